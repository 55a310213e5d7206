//! What is known of classes. A line is a fact that is learnt, or a question, ` = ` and its answer.
use crate::rows::{expect, head, shown};
use class_tables::{ClassView, Classes};
use jdwp_values::{
    ClassId, Field, FieldId, Line, LineTable, Location, Method, MethodId, TypeTag, Variable,
};
use std::alloc::Global;
use std::test::Fail;
use wire_core::{Blob, List, NoMemory};

// The first number of some words, and the words behind it.
fn number(words: &str) -> Result<(u64, &str), Fail> {
    let (word, rest) = head(words);
    Ok((word.parse()?, rest))
}

fn method(alloc: Global, id: u64) -> Result<Method, NoMemory> {
    Ok(Method {
        id: MethodId(id),
        name: Blob::from_slice(alloc, b"run")?,
        signature: Blob::from_slice(alloc, b"()V")?,
        bits: 8,
    })
}

// The methods of these ids.
fn methods_of(alloc: Global, ids: &str) -> Result<List<Method>, Fail> {
    let mut methods = List::new(alloc);
    for id in ids.split_whitespace() {
        methods.push(method(alloc, number(id)?.0)?)?;
    }
    Ok(methods)
}

// A field of this id.
fn fields_of(alloc: Global, id: &str) -> Result<List<Field>, Fail> {
    let mut fields = List::new(alloc);
    fields.push(Field {
        id: FieldId(number(id)?.0),
        name: Blob::from_slice(alloc, b"n")?,
        signature: Blob::from_slice(alloc, b"I")?,
        bits: 2,
    })?;
    Ok(fields)
}

// A variable in this slot; or that there are none.
fn variables_of(alloc: Global, slot: &str) -> Result<Option<List<Variable>>, Fail> {
    if slot == "none" {
        return Ok(None);
    }
    let mut variables = List::new(alloc);
    variables.push(Variable {
        index: 0,
        name: Blob::from_slice(alloc, b"n")?,
        signature: Blob::from_slice(alloc, b"I")?,
        length: 9,
        slot: slot.parse()?,
    })?;
    Ok(Some(variables))
}

fn line(entry: &str) -> Result<Line, Fail> {
    let (index, line) = entry.split_once(':').ok_or("no entry")?;
    Ok(Line {
        index: number(index)?.0,
        line: line.parse()?,
    })
}

// The first code index, and each entry's code index and line; or that there are none.
fn lines_of(alloc: Global, words: &str) -> Result<Option<LineTable>, Fail> {
    if words == "none" {
        return Ok(None);
    }
    let (start, entries) = head(words);
    let start = start.parse()?;
    let mut lines = List::new(alloc);
    for entry in entries.split_whitespace() {
        lines.push(line(entry)?)?;
    }
    let end = 20;
    Ok(Some(LineTable { start, end, lines }))
}

// The name of a file; or that there is none.
fn source_of(alloc: Global, name: &str) -> Result<Option<Blob>, NoMemory> {
    if name == "none" {
        return Ok(None);
    }
    Ok(Some(Blob::from_slice(alloc, name.as_bytes())?))
}

// Learns that a class was found, `prepared` or not, and its signature.
fn learn_class(
    classes: &mut Classes,
    alloc: Global,
    class: ClassId,
    words: &str,
) -> Result<(), NoMemory> {
    let (state, signature) = head(words);
    let signature = Blob::from_slice(alloc, signature.as_bytes())?;
    classes.learn(class, TypeTag::Class, signature, state == "prepared")
}

fn learn_lines(
    classes: &mut Classes,
    alloc: Global,
    class: ClassId,
    words: &str,
) -> Result<(), Fail> {
    let (method, rest) = number(words)?;
    Ok(classes.learn_lines(class, MethodId(method), lines_of(alloc, rest)?)?)
}

fn learn_variables(
    classes: &mut Classes,
    alloc: Global,
    class: ClassId,
    words: &str,
) -> Result<(), Fail> {
    let (method, rest) = number(words)?;
    Ok(classes.learn_variables(class, MethodId(method), variables_of(alloc, rest)?)?)
}

fn learn(classes: &mut Classes, alloc: Global, fact: &str) -> Result<(), Fail> {
    let (word, rest) = head(fact);
    let (class, rest) = number(rest)?;
    let class = ClassId(class);
    match word {
        "class" => Ok(learn_class(classes, alloc, class, rest)?),
        "source" => Ok(classes.learn_source(class, source_of(alloc, rest)?)?),
        "methods" => Ok(classes.learn_methods(class, methods_of(alloc, rest)?)?),
        "fields" => Ok(classes.learn_fields(class, fields_of(alloc, rest)?)?),
        "super" => Ok(classes.learn_super(class, ClassId(number(rest)?.0))?),
        "lines" => learn_lines(classes, alloc, class, rest),
        "variables" => learn_variables(classes, alloc, class, rest),
        _ => Err("no fact".into()),
    }
}

// How long a class's signature and source are, and how many methods and fields it has.
fn sizes(view: &ClassView<'_>) -> Option<(usize, usize, usize, usize)> {
    Some((
        view.signature?.len(),
        view.source??.len(),
        view.methods?.len(),
        view.fields?.len(),
    ))
}

fn class_text(classes: &Classes, alloc: Global, class: ClassId) -> Result<String, Fail> {
    match classes.class(class) {
        Some(view) => shown(alloc, (view.tag, view.above, view.prepared, sizes(&view))),
        None => Ok("None".to_string(alloc)?),
    }
}

// The package and the file.
fn key_text(classes: &Classes, alloc: Global, class: ClassId) -> Result<String, Fail> {
    match classes.key_of(class) {
        Some(key) => {
            let package = std::str::from_utf8(key.package)?;
            let file = std::str::from_utf8(key.file)?;
            Ok(format!(in alloc; "{package}:{file}")?)
        }
        None => Ok("None".to_string(alloc)?),
    }
}

fn line_count(classes: &Classes, class: ClassId, method: MethodId) -> Option<Option<usize>> {
    match classes.lines(class, method)? {
        Some(table) => Some(Some(table.lines.len())),
        None => Some(None),
    }
}

fn variable_count(classes: &Classes, class: ClassId, method: MethodId) -> Option<Option<usize>> {
    match classes.variables(class, method)? {
        Some(variables) => Some(Some(variables.len())),
        None => Some(None),
    }
}

// The line of a code index of a method.
fn line_of(classes: &Classes, class: ClassId, method: MethodId, index: u64) -> Option<i32> {
    classes.line_of(Location {
        tag: TypeTag::Class,
        class,
        method,
        index,
    })
}

// What is said of a method.
fn method_answer(
    classes: &Classes,
    alloc: Global,
    class: ClassId,
    words: &str,
) -> Result<String, Fail> {
    let (method, rest) = number(words)?;
    let method = MethodId(method);
    match rest {
        "lines" => shown(alloc, line_count(classes, class, method)),
        "variables" => shown(alloc, variable_count(classes, class, method)),
        _ => shown(alloc, line_of(classes, class, method, number(rest)?.0)),
    }
}

fn answer(classes: &Classes, alloc: Global, question: &str) -> Result<String, Fail> {
    let (word, rest) = head(question);
    let (number, rest) = number(rest)?;
    let class = ClassId(number);
    match word {
        "nth" => shown(alloc, classes.nth(usize::try_from(number)?)),
        "class" => class_text(classes, alloc, class),
        "key" => key_text(classes, alloc, class),
        "line" => shown(alloc, classes.locations(alloc, class, rest.parse()?)?),
        "method" => method_answer(classes, alloc, class, rest),
        _ => Err("no question".into()),
    }
}

fn run_line(classes: &mut Classes, alloc: Global, line: &str) -> Result<(), Fail> {
    if line.is_empty() {
        return Ok(());
    }
    match line.split_once(" = ") {
        Some((question, wanted)) => {
            let given = answer(classes, alloc, question)?;
            expect(alloc, line, given.as_str(), wanted)
        }
        None => learn(classes, alloc, line),
    }
}

fn run(classes: &mut Classes, alloc: Global, lines: &str) -> Result<(), Fail> {
    for line in lines.split('\n') {
        run_line(classes, alloc, line)?;
    }
    Ok(())
}

// Facts, and then the lines of a test, beginning with no class.
fn check(alloc: Global, facts: &str, lines: &str) -> Result<(), Fail> {
    let mut classes = Classes::new(alloc);
    let outcome = match run(&mut classes, alloc, facts) {
        Ok(()) => run(&mut classes, alloc, lines),
        Err(fail) => Err(fail),
    };
    drop(classes);
    outcome
}

// The class Foo of the package com.acme, with all its facts: the methods 3 and 4 have lines. The class comes last but
// for its fields, its variables and what it extends.
const FOO: &str = "
source 16 Foo.java
methods 16 3 4
lines 16 3 0 9:11 0:9 5:10 5:12 7:10
lines 16 4 0 8:10 2:10 0:14
class 16 prepared Lcom/acme/Foo;
variables 16 3 1
fields 16 7
super 16 5
";

// Of a class: its tag, what it extends, whether it is prepared; how long its signature and its source are, and how many
// methods and fields it has. Of a method: how many lines and variables.
const ALL: &str = "
class 16 = (Some(Class), Some(ClassId(5)), true, Some((14, 8, 2, 1)))
class 5 = None
method 16 3 lines = Some(Some(5))
method 16 5 lines = None
method 16 3 variables = Some(Some(1))
method 16 4 variables = None
key 16 = com/acme:Foo.java
";

#[test]
fn a_class_shows_what_was_learnt_of_it(rt: HostRuntime) -> Result<(), Fail> {
    check(rt.alloc(), FOO, ALL)
}

const EARLY: &str = "
source 16 Foo.java
methods 16 3 4
lines 16 3 0 9:11 0:9 5:10 5:12 7:10
lines 16 4 0 8:10 2:10 0:14
class 16 = (None, None, false, None)
nth 0 = None
key 16 = None
method 16 3 0 = Some(9)
line 16 9 = List { items: [] }
class 16 listed LFoo;
key 16 = :Foo.java
";

#[test]
fn facts_may_come_before_their_class(rt: HostRuntime) -> Result<(), Fail> {
    check(rt.alloc(), "", EARLY)
}

// Another class, and Foo listed again as if it were not prepared.
const AGAIN: &str = "
class 2 listed LBar;
class 16 listed Lcom/acme/Foo;
class 16 = (Some(Class), Some(ClassId(5)), true, Some((14, 8, 2, 1)))
class 2 = (Some(Class), None, false, None)
nth 0 = Some(ClassId(16))
nth 1 = Some(ClassId(2))
nth 2 = None
";

#[test]
fn a_prepared_class_stays_so_and_keeps_its_place(rt: HostRuntime) -> Result<(), Fail> {
    check(rt.alloc(), FOO, AGAIN)
}

const BEGINNINGS: &str = "
line 16 10 = List { items: [Location { tag: Class, class: ClassId(16), method: MethodId(3), index: 5 }, Location { tag: Class, class: ClassId(16), method: MethodId(4), index: 2 }] }
line 16 11 = List { items: [Location { tag: Class, class: ClassId(16), method: MethodId(3), index: 9 }] }
line 16 14 = List { items: [Location { tag: Class, class: ClassId(16), method: MethodId(4), index: 0 }] }
line 16 13 = List { items: [] }
";

#[test]
fn a_line_begins_at_its_least_index_in_each_method(rt: HostRuntime) -> Result<(), Fail> {
    check(rt.alloc(), FOO, BEGINNINGS)
}

const LINES: &str = "
method 16 3 0 = Some(9)
method 16 3 4 = Some(9)
method 16 3 5 = Some(12)
method 16 3 6 = Some(12)
method 16 3 8 = Some(10)
method 16 3 9 = Some(11)
method 16 3 100 = Some(11)
method 16 4 1 = Some(14)
method 16 5 1 = None
method 2 3 1 = None
";

#[test]
fn a_location_has_the_line_of_the_greatest_entry(rt: HostRuntime) -> Result<(), Fail> {
    check(rt.alloc(), FOO, LINES)
}

// Foo with no source, no lines and no variables, and an array with a source.
const ABSENT: &str = "
source 16 none
lines 16 3 none
lines 16 4 -1 2:10
variables 16 3 none
class 2 prepared [Lcom/acme/Foo;
source 2 Foo.java
key 16 = None
key 2 = None
method 16 3 lines = Some(None)
method 16 3 variables = Some(None)
method 16 3 0 = None
method 16 4 2 = Some(10)
line 16 10 = List { items: [] }
";

#[test]
fn facts_may_be_absent(rt: HostRuntime) -> Result<(), Fail> {
    check(rt.alloc(), FOO, ABSENT)
}
