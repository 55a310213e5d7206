use crate::rows::is_row;
use dap_messages::{
    Command, EvaluateArguments, Filter, FunctionBreakpoint, Incoming, InitializeArguments,
    ReadFault, Request, SetExceptionBreakpointsArguments, SetVariableArguments, SourceBreakpoint,
    StackTraceArguments, VariablesArguments, read_request,
};
use std::alloc::{AllocError, Global};
use std::test::Fail;
use wire_core::{NoMemory, Text};

// What a body says, in a few words.
//
// A value that goes at the end of a scope is taken apart in the proof of that scope: large ones are let go by a call.
fn summary(alloc: Global, body: &[u8]) -> Result<String, AllocError> {
    let read = read_request(alloc, body);
    let said = incoming_summary(alloc, &read);
    drop(read);
    said
}

fn incoming_summary(
    alloc: Global,
    read: &Result<Incoming, ReadFault>,
) -> Result<String, AllocError> {
    match read {
        Ok(Incoming::Request(request)) => request_summary(alloc, request),
        Ok(Incoming::Ignored) => String::from_str(alloc, "ignored"),
        Err(ReadFault::NotJson) => String::from_str(alloc, "not JSON"),
        Err(ReadFault::NotAMessage) => String::from_str(alloc, "not a message"),
        Err(ReadFault::NoMemory) => Err(AllocError),
    }
}

fn request_summary(alloc: Global, request: &Request) -> Result<String, AllocError> {
    let said = command_summary(alloc, &request.command)?;
    let seq = request.seq;
    let name = request.name.as_str();
    format!(in alloc; "{seq} {name} {said}")
}

fn command_summary(alloc: Global, command: &Command) -> Result<String, AllocError> {
    match command {
        Command::Initialize(arguments) => initialize_summary(alloc, arguments),
        Command::Attach(arguments) => joined(alloc, arguments.source_roots.as_slice()),
        Command::ConfigurationDone => String::from_str(alloc, "runs"),
        Command::SetBreakpoints(arguments) => {
            let path = arguments.path.as_str();
            let breakpoints = listed(alloc, arguments.breakpoints.as_slice())?;
            format!(in alloc; "{path}:{breakpoints}")
        }
        Command::SetFunctionBreakpoints(arguments) => named(
            alloc,
            arguments.breakpoints.as_slice(),
        ),
        Command::SetExceptionBreakpoints(arguments) => exceptions_summary(alloc, *arguments),
        Command::Threads => String::from_str(alloc, "lists"),
        Command::Continue(arguments) => numbered(alloc, "resumes", arguments.thread_id),
        Command::Next(arguments) => numbered(alloc, "steps over", arguments.thread_id),
        Command::StepIn(arguments) => numbered(alloc, "steps into", arguments.thread_id),
        Command::StepOut(arguments) => numbered(alloc, "steps out of", arguments.thread_id),
        Command::Pause(arguments) => numbered(alloc, "suspends", arguments.thread_id),
        Command::ExceptionInfo(arguments) => numbered(alloc, "explains", arguments.thread_id),
        Command::StackTrace(arguments) => stack_trace_summary(alloc, *arguments),
        Command::Scopes(arguments) => numbered(alloc, "opens", arguments.frame_id),
        Command::Variables(arguments) => variables_summary(alloc, arguments),
        Command::SetVariable(arguments) => set_variable_summary(alloc, arguments),
        Command::Evaluate(arguments) => evaluate_summary(alloc, arguments),
        Command::Disconnect(arguments) => {
            let terminate = arguments.terminate_debuggee;
            format!(in alloc; "terminates {terminate}")
        }
        Command::Unsupported => String::from_str(alloc, "unsupported"),
        Command::BadArguments(argument) => {
            let argument = argument.as_str();
            format!(in alloc; "bad {argument}")
        }
    }
}

fn initialize_summary(
    alloc: Global,
    arguments: &InitializeArguments,
) -> Result<String, AllocError> {
    let adapter = arguments.adapter_id.as_str();
    let lines = arguments.lines_start_at1;
    let columns = arguments.columns_start_at1;
    let types = arguments.supports_variable_type;
    format!(in alloc; "{adapter} {lines} {columns} {types}")
}

fn exceptions_summary(
    alloc: Global,
    arguments: SetExceptionBreakpointsArguments,
) -> Result<String, AllocError> {
    let caught = arguments.caught;
    let uncaught = arguments.uncaught;
    format!(in alloc; "caught {caught} uncaught {uncaught}")
}

fn stack_trace_summary(
    alloc: Global,
    arguments: StackTraceArguments,
) -> Result<String, AllocError> {
    let thread = arguments.thread_id;
    let start = arguments.start_frame;
    let levels = arguments.levels;
    format!(in alloc; "{thread} from {start} for {levels}")
}

fn variables_summary(alloc: Global, arguments: &VariablesArguments) -> Result<String, AllocError> {
    let reference = arguments.variables_reference;
    let filter = match arguments.filter {
        Filter::Both => "both",
        Filter::Indexed => "indexed",
        Filter::Named => "named",
    };
    let start = arguments.start;
    let count = arguments.count;
    format!(in alloc; "{filter} of {reference} from {start} for {count}")
}

fn set_variable_summary(
    alloc: Global,
    arguments: &SetVariableArguments,
) -> Result<String, AllocError> {
    let reference = arguments.variables_reference;
    let name = arguments.name.as_str();
    let value = arguments.value.as_str();
    format!(in alloc; "'{name}' of {reference} becomes '{value}'")
}

fn evaluate_summary(alloc: Global, arguments: &EvaluateArguments) -> Result<String, AllocError> {
    let expression = arguments.expression.as_str();
    let frame = arguments.frame_id;
    format!(in alloc; "{expression} in {frame}")
}

fn numbered(alloc: Global, verb: &str, number: u32) -> Result<String, AllocError> {
    format!(in alloc; "{verb} {number}")
}

// Texts, each with `;` behind it.
fn joined(alloc: Global, texts: &[Text]) -> Result<String, AllocError> {
    let mut all = String::new(alloc);
    for text in texts {
        all.push_str(text.as_str())?;
        all.push_str(";")?;
    }
    Ok(all)
}

// Breakpoints, each with ` ` before it, and with `?` behind it where it isn't plain.
fn listed(alloc: Global, breakpoints: &[SourceBreakpoint]) -> Result<String, AllocError> {
    let mut all = String::new(alloc);
    for breakpoint in breakpoints {
        let line = breakpoint.line;
        let mark = if breakpoint.plain { "" } else { "?" };
        all.push_str(format!(in alloc; " {line}{mark}")?.as_str())?;
    }
    Ok(all)
}

// Functions, each with ` ` before it, and with `?` behind it where it isn't plain.
fn named(alloc: Global, functions: &[FunctionBreakpoint]) -> Result<String, AllocError> {
    let mut all = String::from_str(alloc, "sets")?;
    for function in functions {
        let name = function.name.as_str();
        let mark = if function.plain { "" } else { "?" };
        all.push_str(format!(in alloc; " {name}{mark}")?.as_str())?;
    }
    Ok(all)
}

// What stands behind ` => ` is said of the bodies with these texts around what each row has before that. Rows that are
// empty or begin with `#` say nothing.
fn are_read(alloc: Global, around: (&str, &str), first: &str, rows: &str) -> Result<(), Fail> {
    for row in rows.split('\n') {
        if is_row(row) {
            is_row_read(alloc, around, first, row)?;
        }
    }
    Ok(())
}

// In a row a sign stands for the end of a line.
fn is_row_read(alloc: Global, around: (&str, &str), first: &str, row: &str) -> Result<(), Fail> {
    let (before, behind) = around;
    let (inside, wanted) = row.split_once(" => ").ok_or("a row that says nothing")?;
    let body = format!(in alloc; "{before}{inside}{behind}")?.replace(alloc, '␊', "\n")?;
    let wanted = format!(in alloc; "{first}{wanted}")?;
    is_read(alloc, body.as_str(), wanted.as_str())
}

// A body says this.
fn is_read(alloc: Global, body: &str, wanted: &str) -> Result<(), Fail> {
    let said = summary(alloc, body.as_bytes())?;
    if said.as_str() != wanted {
        return Err(format!(in alloc; "{body}: {said}")?.into());
    }
    Ok(())
}

fn bodies_are_read(alloc: Global, rows: &str) -> Result<(), Fail> {
    are_read(alloc, ("", ""), "", rows)
}

fn numbers_are_read(alloc: Global, rows: &str) -> Result<(), Fail> {
    let behind = r#","type":"request","command":"f"}"#;
    are_read(alloc, (r#"{"seq":"#, behind), "", rows)
}

// What stands beside them is said of a command with these arguments.
fn arguments_are_read(alloc: Global, command: &str, rows: &str) -> Result<(), Fail> {
    commands_are_read(alloc, command, ("", ""), rows)
}

// What stands beside them is said of a command with these members behind a reference.
fn reference_is_followed(alloc: Global, command: &str, rows: &str) -> Result<(), Fail> {
    commands_are_read(alloc, command, (r#"{"variablesReference":1,"#, "}"), rows)
}

// What stands beside them is said of a list with each of these breakpoints behind another one.
fn breakpoints_end_with(alloc: Global, rows: &str) -> Result<(), Fail> {
    let before = r#"{"source":{"path":"/a"},"breakpoints":[{"line":1},"#;
    commands_are_read(alloc, "setBreakpoints", (before, "]}"), rows)
}

fn commands_are_read(
    alloc: Global,
    command: &str,
    around: (&str, &str),
    rows: &str,
) -> Result<(), Fail> {
    let (before, behind) = around;
    let before = format!(in alloc; "{{\"arguments\":{before}")?;
    let behind = format!(in alloc;
        "{behind},\"command\":\"{command}\",\"seq\":1,\"type\":\"request\"}}"
    )?;
    let first = format!(in alloc; "1 {command} ")?;
    are_read(
        alloc,
        (before.as_str(), behind.as_str()),
        first.as_str(),
        rows,
    )
}

#[test]
fn bytes_outside_utf8_are_no_json(rt: HostRuntime) -> Result<(), Fail> {
    let said = summary(rt.alloc(), b"{\"type\":\"event\"\xff}")?;
    assert!(rt; said.as_str() == "not JSON");
    Ok(())
}

#[test]
fn memory_that_is_refused_is_no_fault_of_a_body(rt: HostRuntime) {
    assert_eq!(rt; ReadFault::from(NoMemory), ReadFault::NoMemory);
}

const TYPES: &str = r#"
 => not JSON
{"seq":1, => not JSON
{"seq":1}{} => not JSON
{"seq":1,"type":"request","command":"\ud800"} => not JSON
[1] => not a message
null => not a message
{"seq":1,"command":"f"} => not a message
{"seq":1,"type":7,"command":"f"} => not a message
{"seq":1,"type":"Request","command":"f"} => not a message
{"seq":1,"type":"request"} => not a message
{"seq":1,"type":"request","command":null} => not a message
{"type":"response"} => ignored
{"seq":-1,"type":"event"} => ignored
{"seq":1,"type":"request","command":"f"} => 1 f unsupported
"#;

#[test]
fn types_of_messages_are_told_apart(rt: HostRuntime) -> Result<(), Fail> {
    bodies_are_read(rt.alloc(), TYPES)
}

// The last of repeated members counts, escapes are read, others are passed over.
const MEMBERS: &str = r#"
{"type":"request","command":"f"} => not a message
{"seq":1,"seq":2,"type":"request","command":"f"} => 2 f unsupported
{"\u0073eq":3,"type":"requ\u0065st","command":"\u0066","x":[]} => 3 f unsupported
{"seq":1,"type":"request","command":"Initialize","arguments":7} => 1 Initialize unsupported
"#;

#[test]
fn members_are_found(rt: HostRuntime) -> Result<(), Fail> {
    bodies_are_read(rt.alloc(), MEMBERS)
}

const NUMBERS: &str = r#"
0 => 0 f unsupported
9007199254740991 => 9007199254740991 f unsupported
9007199254740992 => not a message
18446744073709551617 => not a message
-1 => not a message
-0 => not a message
1.0 => not a message
1e0 => not a message
"1" => not a message
"#;

#[test]
fn sequence_numbers_are_read(rt: HostRuntime) -> Result<(), Fail> {
    numbers_are_read(rt.alloc(), NUMBERS)
}

const INITIALIZE: &str = r#"
{"adapterID":"jdwp"} => jdwp true true false
{"adapterID":"","linesStartAt1":false,"columnsStartAt1":false,"pathFormat":"path",␊            "supportsVariableType":true,"clientID":7} =>  false false true
{"adapterID":"a","linesStartAt1":null,"columnsStartAt1":null,"pathFormat":null,␊            "supportsVariableType":null} => a true true false
null => bad adapterID
{} => bad adapterID
[] => bad arguments
{"adapterID":null,"linesStartAt1":1} => bad adapterID
{"adapterID":"a","columnsStartAt1":1,"linesStartAt1":1} => bad linesStartAt1
{"adapterID":"a","pathFormat":"uri","columnsStartAt1":""} => bad columnsStartAt1
{"adapterID":"a","pathFormat":"uri","supportsVariableType":0} => bad pathFormat
{"adapterID":"a","supportsVariableType":0} => bad supportsVariableType
"#;

#[test]
fn initialize_is_read(rt: HostRuntime) -> Result<(), Fail> {
    arguments_are_read(rt.alloc(), "initialize", INITIALIZE)
}

const ATTACH: &str = r#"
{"sourceRoots":["/p/src","","\u00e9"],"port":5005} => /p/src;;é;
null => bad sourceRoots
{} => bad sourceRoots
{"sourceRoots":null} => bad sourceRoots
{"sourceRoots":"/p/src"} => bad sourceRoots
{"sourceRoots":[]} => bad sourceRoots
{"sourceRoots":["/p/src",7]} => bad sourceRoots
{"sourceRoots":[null,"/p/src"]} => bad sourceRoots
["/p/src"] => bad arguments
"#;

#[test]
fn attach_is_read(rt: HostRuntime) -> Result<(), Fail> {
    arguments_are_read(rt.alloc(), "attach", ATTACH)
}

const CONFIGURATION_DONE: &str = r#"
null => runs
{"a":1} => runs
"" => bad arguments
"#;

#[test]
fn configuration_done_is_read(rt: HostRuntime) -> Result<(), Fail> {
    arguments_are_read(rt.alloc(), "configurationDone", CONFIGURATION_DONE)
}

const THREADS: &str = r#"
null => lists
{"threadId":"x"} => lists
7 => bad arguments
"#;

#[test]
fn threads_is_read(rt: HostRuntime) -> Result<(), Fail> {
    arguments_are_read(rt.alloc(), "threads", THREADS)
}

const DISCONNECT: &str = r#"
null => terminates false
{"terminateDebuggee":true,"restart":7} => terminates true
{"terminateDebuggee":1} => bad terminateDebuggee
false => bad arguments
"#;

#[test]
fn disconnect_is_read(rt: HostRuntime) -> Result<(), Fail> {
    arguments_are_read(rt.alloc(), "disconnect", DISCONNECT)
}

const UNKNOWN: &str = "
false => unsupported
{} => unsupported
";

#[test]
fn an_unknown_command_is_read(rt: HostRuntime) -> Result<(), Fail> {
    arguments_are_read(rt.alloc(), "launch", UNKNOWN)
}

const CONTINUE: &str = r#"
{"threadId":1} => resumes 1
{"threadId":2147483647,"singleThread":7} => resumes 2147483647
null => bad threadId
{"thread":1} => bad threadId
{"threadId":null} => bad threadId
{"threadId":-1} => bad threadId
{"threadId":2147483648} => bad threadId
{"threadId":"1"} => bad threadId
[1] => bad arguments
"#;

#[test]
fn continue_is_read(rt: HostRuntime) -> Result<(), Fail> {
    arguments_are_read(rt.alloc(), "continue", CONTINUE)
}

const PAUSE: &str = r#"
{"threadId":0} => suspends 0
{} => bad threadId
{"threadId":-1} => bad threadId
{"threadId":2147483648} => bad threadId
{"threadId":1.0} => bad threadId
{"threadId":"1"} => bad threadId
1 => bad arguments
"#;

#[test]
fn pause_is_read(rt: HostRuntime) -> Result<(), Fail> {
    arguments_are_read(rt.alloc(), "pause", PAUSE)
}

const NEXT: &str = r#"
{"threadId":0} => steps over 0
{"singleThread":"","threadId":2147483647,"granularity":7} => steps over 2147483647
null => bad threadId
{"threadID":1} => bad threadId
{"threadId":null} => bad threadId
{"threadId":-1} => bad threadId
{"threadId":2147483648} => bad threadId
{"threadId":"1"} => bad threadId
[1] => bad arguments
"#;

#[test]
fn next_is_read(rt: HostRuntime) -> Result<(), Fail> {
    arguments_are_read(rt.alloc(), "next", NEXT)
}

const STEP_IN: &str = r#"
{"threadId":0} => steps into 0
{"singleThread":"","threadId":2147483647,"granularity":7} => steps into 2147483647
null => bad threadId
{"threadID":1} => bad threadId
{"threadId":null} => bad threadId
{"threadId":-1} => bad threadId
{"threadId":2147483648} => bad threadId
{"threadId":"1"} => bad threadId
[1] => bad arguments
"#;

#[test]
fn step_in_is_read(rt: HostRuntime) -> Result<(), Fail> {
    arguments_are_read(rt.alloc(), "stepIn", STEP_IN)
}

const STEP_OUT: &str = r#"
{"threadId":0} => steps out of 0
{"singleThread":"","threadId":2147483647,"granularity":7} => steps out of 2147483647
null => bad threadId
{"threadID":1} => bad threadId
{"threadId":null} => bad threadId
{"threadId":-1} => bad threadId
{"threadId":2147483648} => bad threadId
{"threadId":"1"} => bad threadId
[1] => bad arguments
"#;

#[test]
fn step_out_is_read(rt: HostRuntime) -> Result<(), Fail> {
    arguments_are_read(rt.alloc(), "stepOut", STEP_OUT)
}

const EXCEPTION_INFO: &str = r#"
{"threadId":0} => explains 0
{"singleThread":"","threadId":2147483647,"granularity":7} => explains 2147483647
null => bad threadId
{"threadID":1} => bad threadId
{"threadId":null} => bad threadId
{"threadId":-1} => bad threadId
{"threadId":2147483648} => bad threadId
{"threadId":"1"} => bad threadId
[1] => bad arguments
"#;

#[test]
fn exception_info_is_read(rt: HostRuntime) -> Result<(), Fail> {
    arguments_are_read(rt.alloc(), "exceptionInfo", EXCEPTION_INFO)
}

const OTHER_STEPS: &str = r#"
{"threadId":1} => unsupported
"#;

#[test]
fn other_steps_are_not_supported(rt: HostRuntime) -> Result<(), Fail> {
    arguments_are_read(rt.alloc(), "stepin", OTHER_STEPS)?;
    arguments_are_read(rt.alloc(), "stepBack", OTHER_STEPS)
}

const STACK_TRACE: &str = r#"
{"threadId":1} => 1 from 0 for 0
{"threadId":1,"startFrame":null,"levels":null} => 1 from 0 for 0
{"levels":20,"startFrame":3,"threadId":0,"format":7} => 0 from 3 for 20
{"threadId":1,"startFrame":2147483647} => 1 from 2147483647 for 0
{"threadId":1,"levels":2147483647} => 1 from 0 for 2147483647
null => bad threadId
{"startFrame":"","levels":""} => bad threadId
{"threadId":2147483648,"startFrame":-1} => bad threadId
{"threadId":1,"levels":-1,"startFrame":-1} => bad startFrame
{"threadId":1,"startFrame":2147483648} => bad startFrame
{"threadId":1,"startFrame":0.0} => bad startFrame
{"threadId":1,"startFrame":"0"} => bad startFrame
{"threadId":1,"levels":-1} => bad levels
{"threadId":1,"levels":2147483648} => bad levels
{"threadId":1,"levels":[]} => bad levels
[] => bad arguments
"#;

#[test]
fn stack_trace_is_read(rt: HostRuntime) -> Result<(), Fail> {
    arguments_are_read(rt.alloc(), "stackTrace", STACK_TRACE)
}

const SCOPES: &str = r#"
{"frameId":0} => opens 0
{"threadId":"","frameId":2147483647} => opens 2147483647
null => bad frameId
{"frameid":1} => bad frameId
{"frameId":null} => bad frameId
{"frameId":-1} => bad frameId
{"frameId":2147483648} => bad frameId
{"frameId":1.0} => bad frameId
{"frameId":"1"} => bad frameId
[1] => bad arguments
"#;

#[test]
fn scopes_is_read(rt: HostRuntime) -> Result<(), Fail> {
    arguments_are_read(rt.alloc(), "scopes", SCOPES)
}

const VARIABLES: &str = r#"
{"variablesReference":1} => both of 1 from 0 for 0
{"variablesReference":1,"filter":null,"start":null,"count":null} => both of 1 from 0 for 0
{"count":20,"start":3,"filter":"indexed","variablesReference":0,"format":7} => indexed of 0 from 3 for 20
{"variablesReference":2147483647,"filter":"n\u0061med","start":2147483647} => named of 2147483647 from 2147483647 for 0
{"variablesReference":1,"count":2147483647} => both of 1 from 0 for 2147483647
null => bad variablesReference
[] => bad arguments
{"count":"","start":"","filter":""} => bad variablesReference
{"variablesReference":null,"filter":7} => bad variablesReference
{"variablesReference":-1} => bad variablesReference
{"variablesReference":2147483648} => bad variablesReference
{"variablesReference":"1"} => bad variablesReference
"#;

#[test]
fn variables_is_read(rt: HostRuntime) -> Result<(), Fail> {
    arguments_are_read(rt.alloc(), "variables", VARIABLES)
}

const FILTERS: &str = r#"
"count":-1,"start":-1,"filter":"both" => bad filter
"filter":"Indexed" => bad filter
"filter":"names" => bad filter
"filter":"" => bad filter
"filter":0 => bad filter
"filter":["named"] => bad filter
"#;

#[test]
fn bad_filters_are_read(rt: HostRuntime) -> Result<(), Fail> {
    reference_is_followed(rt.alloc(), "variables", FILTERS)
}

const STARTS: &str = r#"
"count":-1,"start":-1 => bad start
"start":2147483648,"filter":"named" => bad start
"start":0.0 => bad start
"start":"0" => bad start
"count":-1 => bad count
"count":2147483648,"start":7 => bad count
"count":[] => bad count
"count":false => bad count
"#;

#[test]
fn bad_starts_and_counts_are_read(rt: HostRuntime) -> Result<(), Fail> {
    reference_is_followed(rt.alloc(), "variables", STARTS)
}

const SET_VARIABLE: &str = r#"
{"variablesReference":0,"name":"n","value":"5"} => 'n' of 0 becomes '5'
{"value":"","format":7,"name":"","variablesReference":2147483647} => '' of 2147483647 becomes ''
{"variablesReference":1,"name":"[\u0030]","value":"\u00e9 \"x\""} => '[0]' of 1 becomes 'é "x"'
null => bad variablesReference
[] => bad arguments
{"value":7,"name":7} => bad variablesReference
{"variablesReference":null,"name":"n","value":"5"} => bad variablesReference
{"variablesReference":-1,"name":"n","value":"5"} => bad variablesReference
{"variablesReference":2147483648,"name":"n"} => bad variablesReference
{"variablesReference":1.0,"value":"5"} => bad variablesReference
{"variablesReference":"1","name":null} => bad variablesReference
"#;

#[test]
fn set_variable_is_read(rt: HostRuntime) -> Result<(), Fail> {
    arguments_are_read(rt.alloc(), "setVariable", SET_VARIABLE)
}

const NAMES: &str = r#"
"value":7 => bad name
"Name":"n","value":"5" => bad name
"name":null,"value":"5" => bad name
"name":0,"value":null => bad name
"name":["n"],"value":"5" => bad name
"name":"n" => bad value
"value":null,"name":"n" => bad value
"name":"n","value":5 => bad value
"name":"n","value":true => bad value
"name":"n","value":{"name":"5"} => bad value
"#;

#[test]
fn bad_names_and_values_are_read(rt: HostRuntime) -> Result<(), Fail> {
    reference_is_followed(rt.alloc(), "setVariable", NAMES)
}

const EVALUATE: &str = r#"
{"expression":"a[3]","frameId":0} => a[3] in 0
{"context":"hover","frameId":2147483647,"expression":"this.\u00e9"} => this.é in 2147483647
{"expression":"","frameId":1} =>  in 1
null => bad expression
[] => bad arguments
{"frameId":-1} => bad expression
{"Expression":"a","frameId":1} => bad expression
{"expression":null,"frameId":""} => bad expression
{"expression":7,"frameId":1} => bad expression
{"expression":["a"],"frameId":1} => bad expression
{"expression":"a"} => bad frameId
{"frameId":null,"expression":"a"} => bad frameId
{"expression":"a","frameId":-1} => bad frameId
{"expression":"a","frameId":2147483648} => bad frameId
{"expression":"a","frameId":1.0} => bad frameId
{"expression":"a","frameId":"1"} => bad frameId
"#;

#[test]
fn evaluate_is_read(rt: HostRuntime) -> Result<(), Fail> {
    arguments_are_read(rt.alloc(), "evaluate", EVALUATE)
}

const BREAKPOINTS: &str = r#"
# the source
null => bad source
[] => bad arguments
{"breakpoints":7} => bad source
{"source":null,"breakpoints":[]} => bad source
{"source":"/a"} => bad source
{"source":{}} => bad source
{"source":{"path":null}} => bad source
{"source":{"path":7}} => bad source
{"source":{"path":""}} => :
{"lines":7,"source":{"path":"/p/\u00e9.java","name":7}} => /p/é.java:
# the list
{"source":{"path":"/a"},"breakpoints":null} => /a:
{"source":{"path":"/a"},"breakpoints":[]} => /a:
{"source":{"path":"/a"},"breakpoints":{}} => bad breakpoints
{"source":{"path":"/a"},"breakpoints":false} => bad breakpoints
{"source":{"path":"/a"},"breakpoints":[{"line":7,"column":"x"},{"line":7},{"line":3}]} => /a: 7 7 3
"#;

#[test]
fn breakpoints_are_read(rt: HostRuntime) -> Result<(), Fail> {
    arguments_are_read(rt.alloc(), "setBreakpoints", BREAKPOINTS)
}

const LINES: &str = r#"
{"line":0} => /a: 1 0
{"line":2147483647} => /a: 1 2147483647
{"line":2147483648} => bad breakpoints
{"line":18446744073709551617} => bad breakpoints
{"line":-1} => bad breakpoints
{"line":-0} => bad breakpoints
{"line":1.0} => bad breakpoints
{"line":1e0} => bad breakpoints
{"line":"1"} => bad breakpoints
{"line":null} => bad breakpoints
{} => bad breakpoints
null => bad breakpoints
7 => bad breakpoints
[] => bad breakpoints
"#;

#[test]
fn lines_are_read(rt: HostRuntime) -> Result<(), Fail> {
    breakpoints_end_with(rt.alloc(), LINES)
}

const CONDITIONS: &str = r#"
{"line":2,"condition":"x > 1"} => /a: 1 2?
{"line":2,"hitCondition":"5"} => /a: 1 2?
{"line":2,"logMessage":" "} => /a: 1 2?
{"line":2,"condition":"","hitCondition":"","logMessage":""} => /a: 1 2
{"line":2,"condition":null,"hitCondition":5,"logMessage":["x"]} => /a: 1 2
{"line":2,"Condition":"x"} => /a: 1 2
"#;

#[test]
fn conditions_are_read(rt: HostRuntime) -> Result<(), Fail> {
    breakpoints_end_with(rt.alloc(), CONDITIONS)
}

const FUNCTIONS: &str = r#"
{"breakpoints":[]} => sets
{"breakpoints":[{"name":"com.acme.Foo.run"},{"name":""},{"name":"\u00e9"}]} => sets com.acme.Foo.run  é
{"breakpoints":[{"name":"a","condition":"x"},{"name":"b","hitCondition":"5"},{"name":"c"}]} => sets a? b? c
{"breakpoints":[{"name":"a","condition":"","hitCondition":5,"logMessage":"x"}]} => sets a
null => bad breakpoints
{"breakpoints":null} => bad breakpoints
{"breakpoints":{"name":"a"}} => bad breakpoints
{"breakpoints":["a"]} => bad breakpoints
{"breakpoints":[{"name":"a"},{}]} => bad breakpoints
{"breakpoints":[{"name":null}]} => bad breakpoints
{"breakpoints":[{"name":7}]} => bad breakpoints
[{"name":"a"}] => bad arguments
"#;

#[test]
fn functions_are_read(rt: HostRuntime) -> Result<(), Fail> {
    arguments_are_read(rt.alloc(), "setFunctionBreakpoints", FUNCTIONS)
}

const EXCEPTIONS: &str = r#"
{"filters":[]} => caught false uncaught false
{"filters":["caught"]} => caught true uncaught false
{"filters":["uncaught"],"filterOptions":7} => caught false uncaught true
{"filters":["uncaught","all","","caught","caught"]} => caught true uncaught true
{"filters":["Caught","uncaught "]} => caught false uncaught false
null => bad filters
{"filters":null} => bad filters
{"filters":"caught"} => bad filters
{"filters":["caught",null]} => bad filters
{"filters":[7]} => bad filters
["caught"] => bad arguments
"#;

#[test]
fn exceptions_are_read(rt: HostRuntime) -> Result<(), Fail> {
    arguments_are_read(rt.alloc(), "setExceptionBreakpoints", EXCEPTIONS)
}
