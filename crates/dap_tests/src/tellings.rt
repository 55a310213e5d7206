use crate::rows::{head, is_row};
use dap_messages::{
    BreakMode, Breakpoint, BreakpointStatus, Evaluated, Event, Failure, Outcome, Response, Shape,
    Source, StackFrame, StopReason, Stopped, Thread, ThreadChange, Told, Variable, Written,
    text_of,
};
use std::alloc::Global;
use std::test::Fail;
use wire_core::{List, Text};

// A message is told by the text that stands beside it.
fn are_told(alloc: Global, rows: &str) -> Result<(), Fail> {
    for row in rows.split('\n') {
        if is_row(row) {
            let (asked, wanted) = row.split_once(" => ").ok_or("a row that tells nothing")?;
            is_told(alloc, asked, wanted)?;
        }
    }
    Ok(())
}

fn is_told(alloc: Global, asked: &str, wanted: &str) -> Result<(), Fail> {
    let (word, about) = head(asked);
    let told = told_of(alloc, word, about)?;
    let text = text_of(alloc, seq_of(word), &told);
    drop(told);
    if text?.as_slice() != wanted.as_bytes() {
        return Err(format!(in alloc; "{asked}")?.into());
    }
    Ok(())
}

// The number of a message, by its first word.
fn seq_of(word: &str) -> u64 {
    match word {
        "nothing" => 9,
        "failure" => 2,
        "event" => 5,
        _ => 3,
    }
}

fn told_of(alloc: Global, word: &str, about: &str) -> Result<Told, Fail> {
    match word {
        "nothing" => response(alloc, 2, "disconnect", Outcome::Success(Shape::Nothing)),
        "failure" => response(alloc, 4, "c", Outcome::Failure(failure_of(alloc, about)?)),
        "event" => Ok(Told::Event(event_of(alloc, about)?)),
        _ => response(
            alloc,
            7,
            "é",
            Outcome::Success(shape_of(alloc, word, about)?),
        ),
    }
}

fn response(
    alloc: Global,
    request_seq: u64,
    command: &str,
    outcome: Outcome,
) -> Result<Told, Fail> {
    Ok(Told::Response(Response {
        request_seq,
        command: Text::from_str(alloc, command)?,
        outcome,
    }))
}

fn shape_of(alloc: Global, word: &str, about: &str) -> Result<Shape, Fail> {
    match word {
        "capabilities" => Ok(Shape::Capabilities),
        "continued" => Ok(Shape::Continued),
        "threads" => Ok(Shape::Threads(threads(alloc, about)?)),
        "frames" => frames_shape(alloc, about),
        "scopes" => Ok(Shape::Scopes(about.parse()?)),
        "variables" => Ok(Shape::Variables(variables(alloc, about)?)),
        "written" => Ok(Shape::Written(written(alloc, about)?)),
        "evaluated" => Ok(Shape::Evaluated(evaluated(alloc, about)?)),
        "breakpoints" => Ok(Shape::Breakpoints(breakpoints(alloc, about)?)),
        "unhandled" => exception_shape(alloc, about, BreakMode::Unhandled),
        "always" => exception_shape(alloc, about, BreakMode::Always),
        _ => Err("no body has this name".into()),
    }
}

// The first of the fields of an item, which stand between `|`, and the others.
fn field(item: &str) -> (&str, &str) {
    match item.split_once('|') {
        Some((first, rest)) => (first, rest),
        None => (item, ""),
    }
}

fn optional(alloc: Global, text: &str) -> Result<Option<Text>, Fail> {
    match text {
        "-" => Ok(None),
        _ => Ok(Some(Text::from_str(alloc, text)?)),
    }
}

fn threads(alloc: Global, items: &str) -> Result<List<Thread>, Fail> {
    let mut threads = List::new(alloc);
    for item in items.split(';') {
        if !item.is_empty() {
            let (id, name) = field(item);
            threads.push(Thread {
                id: id.parse()?,
                name: Text::from_str(alloc, name)?,
            })?;
        }
    }
    Ok(threads)
}

// The number of all frames, and those that are told.
fn frames_shape(alloc: Global, about: &str) -> Result<Shape, Fail> {
    let mut frames = List::new(alloc);
    let (total, items) = match about.split_once(';') {
        Some((total, items)) => (total, items),
        None => (about, ""),
    };
    for item in items.split(';') {
        if !item.is_empty() {
            frames.push(frame(alloc, item)?)?;
        }
    }
    Ok(Shape::StackFrames {
        frames,
        total: total.parse()?,
    })
}

fn frame(alloc: Global, item: &str) -> Result<StackFrame, Fail> {
    let (id, rest) = field(item);
    let (name, rest) = field(rest);
    let (line, source) = field(rest);
    Ok(StackFrame {
        id: id.parse()?,
        name: Text::from_str(alloc, name)?,
        line: line.parse()?,
        column: 1,
        source: source_of(alloc, source)?,
    })
}

fn source_of(alloc: Global, fields: &str) -> Result<Option<Source>, Fail> {
    if fields.is_empty() {
        return Ok(None);
    }
    let (name, path) = field(fields);
    Ok(Some(Source {
        name: Text::from_str(alloc, name)?,
        path: Text::from_str(alloc, path)?,
    }))
}

fn variables(alloc: Global, items: &str) -> Result<List<Variable>, Fail> {
    let mut variables = List::new(alloc);
    for item in items.split(';') {
        if !item.is_empty() {
            variables.push(variable(alloc, item)?)?;
        }
    }
    Ok(variables)
}

fn variable(alloc: Global, item: &str) -> Result<Variable, Fail> {
    let (name, rest) = field(item);
    let shown = evaluated(alloc, rest)?;
    Ok(Variable {
        name: Text::from_str(alloc, name)?,
        value: shown.result,
        kind: shown.kind,
        indexed: shown.indexed,
        reference: shown.reference,
    })
}

fn written(alloc: Global, item: &str) -> Result<Written, Fail> {
    let (value, kind) = field(item);
    Ok(Written {
        value: Text::from_str(alloc, value)?,
        kind: optional(alloc, kind)?,
    })
}

fn evaluated(alloc: Global, item: &str) -> Result<Evaluated, Fail> {
    let (result, rest) = field(item);
    let (kind, rest) = field(rest);
    let (indexed, reference) = field(rest);
    Ok(Evaluated {
        result: Text::from_str(alloc, result)?,
        kind: optional(alloc, kind)?,
        indexed: number(indexed)?,
        reference: reference.parse()?,
    })
}

fn number(text: &str) -> Result<Option<u32>, Fail> {
    match text {
        "-" => Ok(None),
        _ => Ok(Some(text.parse()?)),
    }
}

fn breakpoints(alloc: Global, items: &str) -> Result<List<Breakpoint>, Fail> {
    let mut breakpoints = List::new(alloc);
    for item in items.split(';') {
        breakpoints.push(breakpoint(item)?)?;
    }
    Ok(breakpoints)
}

fn breakpoint(item: &str) -> Result<Breakpoint, Fail> {
    let (id, rest) = field(item);
    let (line, status) = field(rest);
    Ok(Breakpoint {
        id: id.parse()?,
        line: number(line)?,
        status: status_of(status)?,
    })
}

fn status_of(name: &str) -> Result<BreakpointStatus, Fail> {
    match name {
        "Verified" => Ok(BreakpointStatus::Verified),
        "NoSourceRoot" => Ok(BreakpointStatus::NoSourceRoot),
        "ConditionsUnsupported" => Ok(BreakpointStatus::ConditionsUnsupported),
        "RefusedByTarget" => Ok(BreakpointStatus::RefusedByTarget),
        "NotBoundYet" => Ok(BreakpointStatus::NotBoundYet),
        _ => Err("no status".into()),
    }
}

fn exception_shape(alloc: Global, name: &str, mode: BreakMode) -> Result<Shape, Fail> {
    let id = Text::from_str(alloc, name)?;
    Ok(Shape::ExceptionInfo { id, mode })
}

fn failure_of(alloc: Global, about: &str) -> Result<Failure, Fail> {
    let (name, detail) = head(about);
    match name {
        "unsupported" => Ok(Failure::unsupported()),
        "bad_arguments" => Ok(Failure::bad_arguments(Text::from_str(alloc, detail)?)),
        "not_attached" => Ok(Failure::not_attached()),
        "not_stopped" => Ok(Failure::not_stopped()),
        "stale" => Ok(Failure::stale(detail.parse()?)),
        "unknown_reference" => Ok(Failure::unknown_reference(detail.parse()?)),
        "wrong_kind" => Ok(Failure::wrong_kind()),
        "unknown_thread" => Ok(Failure::unknown_thread()),
        "target_error" => Ok(Failure::target_error(detail.parse()?)),
        "target_gone" => Ok(Failure::target_gone()),
        "references_spent" => Ok(Failure::references_spent()),
        "already_attached" => Ok(Failure::already_attached()),
        "no_such_name" => Ok(Failure::no_such_name()),
        "bad_expression" => Ok(Failure::bad_expression(detail.parse()?)),
        "bad_index" => Ok(Failure::bad_index()),
        "not_writable" => Ok(Failure::not_writable()),
        _ => Err("no failure".into()),
    }
}

fn event_of(alloc: Global, about: &str) -> Result<Event, Fail> {
    match head(about) {
        ("terminated", _) => Ok(Event::Terminated),
        ("initialized", _) => Ok(Event::Initialized),
        ("breakpoint", item) => Ok(Event::Breakpoint(breakpoint(item)?)),
        ("started", id) => Ok(thread_event(true, id.parse()?)),
        ("exited", id) => Ok(thread_event(false, id.parse()?)),
        ("stop", reason) => Ok(Event::Stopped(Stopped {
            reason: reason_of(alloc, reason)?,
            thread: 4,
        })),
        ("output", text) => Ok(Event::Output(Text::from_str(alloc, text)?)),
        _ => Err("no event".into()),
    }
}

fn thread_event(started: bool, id: u64) -> Event {
    Event::Thread(ThreadChange { started, id })
}

fn reason_of(alloc: Global, about: &str) -> Result<StopReason, Fail> {
    match head(about) {
        ("breakpoint", ids) => Ok(StopReason::Breakpoint(numbers(alloc, ids)?)),
        ("function", ids) => Ok(StopReason::FunctionBreakpoint(numbers(alloc, ids)?)),
        ("exception", "") => Ok(StopReason::Exception(None)),
        ("exception", name) => Ok(StopReason::Exception(Some(Text::from_str(alloc, name)?))),
        ("step", _) => Ok(StopReason::Step),
        ("pause", _) => Ok(StopReason::Pause),
        _ => Err("no reason".into()),
    }
}

fn numbers(alloc: Global, words: &str) -> Result<List<u64>, Fail> {
    let mut numbers = List::new(alloc);
    for word in words.split_whitespace() {
        numbers.push(word.parse()?)?;
    }
    Ok(numbers)
}

const PLAIN: &str = r#"
nothing => {"command":"disconnect","request_seq":2,"seq":9,"success":true,"type":"response"}
capabilities => {"body":{"exceptionBreakpointFilters":[{"filter":"caught","label":"Caught exceptions"},{"filter":"uncaught","label":"Uncaught exceptions"}],"supportTerminateDebuggee":true,"supportsConfigurationDoneRequest":true,"supportsEvaluateForHovers":true,"supportsExceptionInfoRequest":true,"supportsFunctionBreakpoints":true,"supportsSetVariable":true},"command":"é","request_seq":7,"seq":3,"success":true,"type":"response"}
continued => {"body":{"allThreadsContinued":true},"command":"é","request_seq":7,"seq":3,"success":true,"type":"response"}
scopes 2147483647 => {"body":{"scopes":[{"expensive":false,"name":"Locals","presentationHint":"locals","variablesReference":2147483647}]},"command":"é","request_seq":7,"seq":3,"success":true,"type":"response"}
"#;

#[test]
fn responses_without_items_are_told(rt: HostRuntime) -> Result<(), Fail> {
    are_told(rt.alloc(), PLAIN)
}

const THREADS: &str = r#"
threads 1|main;2|Signal "Dispatcher" => {"body":{"threads":[{"id":1,"name":"main"},{"id":2,"name":"Signal \"Dispatcher\""}]},"command":"é","request_seq":7,"seq":3,"success":true,"type":"response"}
threads => {"body":{"threads":[]},"command":"é","request_seq":7,"seq":3,"success":true,"type":"response"}
"#;

#[test]
fn threads_are_told(rt: HostRuntime) -> Result<(), Fail> {
    are_told(rt.alloc(), THREADS)
}

// The number of all frames; and of each frame its number, its name, its line, and the name and the path of its source.
const FRAMES: &str = r#"
frames 23;5|Main.run|12|Main.java|/p/Main.java;2147483647|<init>|-1;0|a "b"|-9223372036854775808;4294967295||9223372036854775807|é| => {"body":{"stackFrames":[{"column":1,"id":5,"line":12,"name":"Main.run","source":{"name":"Main.java","path":"/p/Main.java"}},{"column":1,"id":2147483647,"line":-1,"name":"<init>"},{"column":1,"id":0,"line":-9223372036854775808,"name":"a \"b\""},{"column":1,"id":4294967295,"line":9223372036854775807,"name":"","source":{"name":"é","path":""}}],"totalFrames":23},"command":"é","request_seq":7,"seq":3,"success":true,"type":"response"}
frames 0 => {"body":{"stackFrames":[],"totalFrames":0},"command":"é","request_seq":7,"seq":3,"success":true,"type":"response"}
"#;

#[test]
fn stack_frames_are_told(rt: HostRuntime) -> Result<(), Fail> {
    are_told(rt.alloc(), FRAMES)
}

// Of each variable its name, its value, its type, how many children with an index it has, and its reference.
const VARIABLES: &str = r#"
variables n|5|-|-|0;s|"a \"\\" (3)|java.lang.String|-|7;[0]|int[3]|-|3|4294967295;|é||0|1 => {"body":{"variables":[{"name":"n","value":"5","variablesReference":0},{"name":"s","type":"java.lang.String","value":"\"a \\\"\\\\\" (3)","variablesReference":7},{"indexedVariables":3,"name":"[0]","value":"int[3]","variablesReference":4294967295},{"indexedVariables":0,"name":"","type":"","value":"é","variablesReference":1}]},"command":"é","request_seq":7,"seq":3,"success":true,"type":"response"}
variables => {"body":{"variables":[]},"command":"é","request_seq":7,"seq":3,"success":true,"type":"response"}
"#;

#[test]
fn variables_are_told(rt: HostRuntime) -> Result<(), Fail> {
    are_told(rt.alloc(), VARIABLES)
}

const WRITTEN: &str = r#"
written 5|- => {"body":{"value":"5","variablesReference":0},"command":"é","request_seq":7,"seq":3,"success":true,"type":"response"}
written null|java.lang.String => {"body":{"type":"java.lang.String","value":"null","variablesReference":0},"command":"é","request_seq":7,"seq":3,"success":true,"type":"response"}
written '"' é| => {"body":{"type":"","value":"'\"' é","variablesReference":0},"command":"é","request_seq":7,"seq":3,"success":true,"type":"response"}
"#;

#[test]
fn what_a_variable_was_set_to_is_told(rt: HostRuntime) -> Result<(), Fail> {
    are_told(rt.alloc(), WRITTEN)
}

// A value, its type, how many children with an index it has, and its reference.
const RESULTS: &str = r#"
evaluated 5|-|-|0 => {"body":{"result":"5","variablesReference":0},"command":"é","request_seq":7,"seq":3,"success":true,"type":"response"}
evaluated "a" (3)|java.lang.String|-|2147483647 => {"body":{"result":"\"a\" (3)","type":"java.lang.String","variablesReference":2147483647},"command":"é","request_seq":7,"seq":3,"success":true,"type":"response"}
evaluated int[3]|-|3|4294967295 => {"body":{"indexedVariables":3,"result":"int[3]","variablesReference":4294967295},"command":"é","request_seq":7,"seq":3,"success":true,"type":"response"}
evaluated é||0|1 => {"body":{"indexedVariables":0,"result":"é","type":"","variablesReference":1},"command":"é","request_seq":7,"seq":3,"success":true,"type":"response"}
"#;

#[test]
fn results_are_told(rt: HostRuntime) -> Result<(), Fail> {
    are_told(rt.alloc(), RESULTS)
}

const BREAKPOINTS: &str = r#"
breakpoints 1|10|Verified;2|11|NoSourceRoot;3|12|ConditionsUnsupported;4|13|RefusedByTarget;5|14|NotBoundYet;6|-|NotBoundYet;7|-|Verified => {"body":{"breakpoints":[{"id":1,"line":10,"verified":true},{"id":2,"line":11,"message":"no source root","verified":false},{"id":3,"line":12,"message":"conditions are not supported","verified":false},{"id":4,"line":13,"message":"refused by the target","verified":false},{"id":5,"line":14,"message":"not bound yet","verified":false},{"id":6,"message":"not bound yet","verified":false},{"id":7,"verified":true}]},"command":"é","request_seq":7,"seq":3,"success":true,"type":"response"}
"#;

#[test]
fn breakpoints_are_told(rt: HostRuntime) -> Result<(), Fail> {
    are_told(rt.alloc(), BREAKPOINTS)
}

const EXCEPTIONS: &str = r#"
unhandled java.lang.IllegalStateException => {"body":{"breakMode":"unhandled","exceptionId":"java.lang.IllegalStateException"},"command":"é","request_seq":7,"seq":3,"success":true,"type":"response"}
always null => {"body":{"breakMode":"always","exceptionId":"null"},"command":"é","request_seq":7,"seq":3,"success":true,"type":"response"}
"#;

#[test]
fn exceptions_are_told(rt: HostRuntime) -> Result<(), Fail> {
    are_told(rt.alloc(), EXCEPTIONS)
}

const FAILURES: &str = r#"
failure unsupported => {"body":{"error":{"format":"unsupported","id":1}},"command":"c","message":"unsupported","request_seq":4,"seq":2,"success":false,"type":"response"}
failure bad_arguments a "b" => {"body":{"error":{"format":"badArguments a \"b\"","id":2}},"command":"c","message":"badArguments","request_seq":4,"seq":2,"success":false,"type":"response"}
failure not_attached => {"body":{"error":{"format":"notAttached","id":3}},"command":"c","message":"notAttached","request_seq":4,"seq":2,"success":false,"type":"response"}
failure not_stopped => {"body":{"error":{"format":"notStopped","id":4}},"command":"c","message":"notStopped","request_seq":4,"seq":2,"success":false,"type":"response"}
failure stale 3 => {"body":{"error":{"format":"stale 3","id":5}},"command":"c","message":"stale","request_seq":4,"seq":2,"success":false,"type":"response"}
failure unknown_reference 2147483648 => {"body":{"error":{"format":"unknownReference 2147483648","id":6}},"command":"c","message":"unknownReference","request_seq":4,"seq":2,"success":false,"type":"response"}
failure wrong_kind => {"body":{"error":{"format":"wrongKind","id":7}},"command":"c","message":"wrongKind","request_seq":4,"seq":2,"success":false,"type":"response"}
failure unknown_thread => {"body":{"error":{"format":"unknownThread","id":8}},"command":"c","message":"unknownThread","request_seq":4,"seq":2,"success":false,"type":"response"}
failure target_error 503 => {"body":{"error":{"format":"targetError 503","id":9}},"command":"c","message":"targetError","request_seq":4,"seq":2,"success":false,"type":"response"}
failure target_gone => {"body":{"error":{"format":"targetGone","id":10}},"command":"c","message":"targetGone","request_seq":4,"seq":2,"success":false,"type":"response"}
failure references_spent => {"body":{"error":{"format":"referencesSpent","id":15}},"command":"c","message":"referencesSpent","request_seq":4,"seq":2,"success":false,"type":"response"}
failure already_attached => {"body":{"error":{"format":"alreadyAttached","id":16}},"command":"c","message":"alreadyAttached","request_seq":4,"seq":2,"success":false,"type":"response"}
"#;

#[test]
fn failures_are_told(rt: HostRuntime) -> Result<(), Fail> {
    are_told(rt.alloc(), FAILURES)
}

const OF_EXPRESSIONS: &str = r#"
failure no_such_name => {"body":{"error":{"format":"noSuchName","id":11}},"command":"c","message":"noSuchName","request_seq":4,"seq":2,"success":false,"type":"response"}
failure bad_expression 0 => {"body":{"error":{"format":"badExpression 0","id":12}},"command":"c","message":"badExpression","request_seq":4,"seq":2,"success":false,"type":"response"}
failure bad_expression 4294967295 => {"body":{"error":{"format":"badExpression 4294967295","id":12}},"command":"c","message":"badExpression","request_seq":4,"seq":2,"success":false,"type":"response"}
failure bad_index => {"body":{"error":{"format":"badIndex","id":13}},"command":"c","message":"badIndex","request_seq":4,"seq":2,"success":false,"type":"response"}
failure not_writable => {"body":{"error":{"format":"notWritable","id":14}},"command":"c","message":"notWritable","request_seq":4,"seq":2,"success":false,"type":"response"}
"#;

#[test]
fn failures_of_expressions_are_told(rt: HostRuntime) -> Result<(), Fail> {
    are_told(rt.alloc(), OF_EXPRESSIONS)
}

const EVENTS: &str = r#"
event terminated => {"event":"terminated","seq":5,"type":"event"}
event initialized => {"event":"initialized","seq":5,"type":"event"}
event breakpoint 1|10|Verified => {"body":{"breakpoint":{"id":1,"line":10,"verified":true},"reason":"changed"},"event":"breakpoint","seq":5,"type":"event"}
event breakpoint 2|-|Verified => {"body":{"breakpoint":{"id":2,"verified":true},"reason":"changed"},"event":"breakpoint","seq":5,"type":"event"}
event started 3 => {"body":{"reason":"started","threadId":3},"event":"thread","seq":5,"type":"event"}
event exited 3 => {"body":{"reason":"exited","threadId":3},"event":"thread","seq":5,"type":"event"}
event output i is "5" => {"body":{"category":"console","output":"i is \"5\""},"event":"output","seq":5,"type":"event"}
"#;

#[test]
fn events_are_told(rt: HostRuntime) -> Result<(), Fail> {
    are_told(rt.alloc(), EVENTS)
}

const STOPS: &str = r#"
event stop breakpoint 1 2 => {"body":{"allThreadsStopped":true,"hitBreakpointIds":[1,2],"reason":"breakpoint","threadId":4},"event":"stopped","seq":5,"type":"event"}
event stop function 3 => {"body":{"allThreadsStopped":true,"hitBreakpointIds":[3],"reason":"function breakpoint","threadId":4},"event":"stopped","seq":5,"type":"event"}
event stop function => {"body":{"allThreadsStopped":true,"hitBreakpointIds":[],"reason":"function breakpoint","threadId":4},"event":"stopped","seq":5,"type":"event"}
event stop exception a.B => {"body":{"allThreadsStopped":true,"reason":"exception","text":"a.B","threadId":4},"event":"stopped","seq":5,"type":"event"}
event stop exception => {"body":{"allThreadsStopped":true,"reason":"exception","threadId":4},"event":"stopped","seq":5,"type":"event"}
event stop step => {"body":{"allThreadsStopped":true,"reason":"step","threadId":4},"event":"stopped","seq":5,"type":"event"}
event stop pause => {"body":{"allThreadsStopped":true,"reason":"pause","threadId":4},"event":"stopped","seq":5,"type":"event"}
"#;

#[test]
fn stops_are_told(rt: HostRuntime) -> Result<(), Fail> {
    are_told(rt.alloc(), STOPS)
}
