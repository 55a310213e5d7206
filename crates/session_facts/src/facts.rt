//! The facts of classes that replies tell.
ghost use Rattle.std.specs.Prelude.{◌≡◌, fold, option_copied, IfOk, OnOk};
ghost use Rattle.machine_model.specs.Classes.{classes_in, has_prepared, with_listed};
ghost use Rattle.machine_model.specs.Facts.{above_in, fields_in, lines_in, methods_in, source_in, variables_in};
ghost use Rattle.machine_model.specs.Plans.{answer_in};
ghost use Rattle.machine_model.specs.Replying.{knows_fact, learnt, with_heard};

use crate::known_classes::{
    known_methods, known_signature, known_source, knows_above, knows_fields,
};
use class_tables::Classes;
use jdwp_commands::{Answer, LoadedClass, Question, Replied};
use jdwp_values::{ClassId, Field, LineTable, Method, TypeTag, Variable};
use std::alloc::Global;
use wire_core::{Blob, List, NoMemory};

/// The source of a class in a reply, where it has one (JDWP, ReferenceType command set, SourceFile).
pub fn source_in(replied: &Replied) -> Option<&Blob>
    ensures { option_copied result ≡ source_in (answer_in replied.now) }
{
    match replied {
        Replied::Answer(Answer::SourceFile(file)) => Some(file),
        _ => None,
    }
}

fn source_copy(alloc: Global, source: Option<&Blob>) -> Result<Option<Blob>, NoMemory>
    ensures { IfOk result (λ copy. copy ≡ option_copied source.entry) }
{
    match source {
        None => Ok(None),
        Some(file) => Ok(Some(Blob::from_slice(alloc, file.as_slice())?)),
    }
}

fn method_copies(alloc: Global, methods: &[Method]) -> Result<List<Method>, NoMemory>
    ensures { IfOk result (λ copies. copies ≡ methods.now) }
{
    let mut copies = List::new(alloc);
    for method in methods {
        copies.push(Method {
            id: method.id,
            name: Blob::from_slice(alloc, method.name.as_slice())?,
            signature: Blob::from_slice(alloc, method.signature.as_slice())?,
            bits: method.bits,
        })?;
    }
    Ok(copies)
}

/// The methods of a class in a reply (JDWP, ReferenceType command set, Methods).
pub fn methods_in(replied: &Replied) -> &[Method]
    ensures { result.now ≡ methods_in (answer_in replied.now) }
{
    match replied {
        Replied::Answer(Answer::Methods(methods)) => methods.as_slice(),
        _ => &[],
    }
}

fn field_copies(alloc: Global, fields: &[Field]) -> Result<List<Field>, NoMemory>
    ensures { IfOk result (λ copies. copies ≡ fields.now) }
{
    let mut copies = List::new(alloc);
    for field in fields {
        copies.push(Field {
            id: field.id,
            name: Blob::from_slice(alloc, field.name.as_slice())?,
            signature: Blob::from_slice(alloc, field.signature.as_slice())?,
            bits: field.bits,
        })?;
    }
    Ok(copies)
}

fn fields_in(alloc: Global, replied: &Replied) -> Result<List<Field>, NoMemory>
    ensures { IfOk result (λ fields. fields ≡ fields_in (answer_in replied.now)) }
{
    match replied {
        Replied::Answer(Answer::Fields(fields)) => field_copies(alloc, fields.as_slice()),
        _ => Ok(List::new(alloc)),
    }
}

fn above_in(replied: &Replied) -> ClassId
    ensures { result ≡ above_in (answer_in replied.now) }
{
    match replied {
        Replied::Answer(Answer::Superclass(class)) => *class,
        _ => ClassId(0),
    }
}

/// The lines of a method in a reply, where it has any (JDWP, Method command set, LineTable).
pub fn line_table_in(replied: &Replied) -> Option<&LineTable>
    ensures { option_copied result ≡ lines_in (answer_in replied.now) }
{
    match replied {
        Replied::Answer(Answer::LineTable(table)) => Some(table),
        _ => None,
    }
}

fn lines_in(alloc: Global, replied: &Replied) -> Result<Option<LineTable>, NoMemory>
    ensures { IfOk result (λ lines. lines ≡ lines_in (answer_in replied.now)) }
{
    match replied {
        Replied::Answer(Answer::LineTable(table)) => Ok(Some(LineTable {
            start: table.start,
            end: table.end,
            lines: List::from_slice(alloc, table.lines.as_slice())?,
        })),
        _ => Ok(None),
    }
}

fn variable_copies(alloc: Global, variables: &[Variable]) -> Result<List<Variable>, NoMemory>
    ensures { IfOk result (λ copies. copies ≡ variables.now) }
{
    let mut copies = List::new(alloc);
    for variable in variables {
        copies.push(Variable {
            index: variable.index,
            name: Blob::from_slice(alloc, variable.name.as_slice())?,
            signature: Blob::from_slice(alloc, variable.signature.as_slice())?,
            length: variable.length,
            slot: variable.slot,
        })?;
    }
    Ok(copies)
}

fn variables_in(alloc: Global, replied: &Replied) -> Result<Option<List<Variable>>, NoMemory>
    ensures { IfOk result (λ variables. variables ≡ variables_in (answer_in replied.now)) }
{
    match replied {
        Replied::Answer(Answer::VariableTable { variables, .. }) => {
            Ok(Some(variable_copies(alloc, variables.as_slice())?))
        }
        _ => Ok(None),
    }
}

// Whether a status has the bit of a class that is prepared (JDWP, Constants, ClassStatus, PREPARED).
fn has_prepared(status: i32) -> bool
    ensures { result ≡ has_prepared status }
{
    status.cast_unsigned() / 2 % 2 == 1
}

/// Learns a class by what a list of all classes has of it, or the event that it was prepared (JDWP, VirtualMachine
/// command set, AllClasses; JDWP, Event command set, Composite, ClassPrepare).
pub fn learn_loaded(
    alloc: Global,
    classes: &mut Classes,
    class: ClassId,
    tag: TypeTag,
    signature: &[u8],
    status: i32,
) -> Result<(), NoMemory>
    ensures { OnOk result (classes.new ≡ with_listed classes.old
        (record { tag = tag; class = class; signature = signature.now; status = status })) }
{
    let signature = Blob::from_slice(alloc, signature)?;
    classes.learn(class, tag, signature, has_prepared(status))
}

fn learn_listed(alloc: Global, classes: &mut Classes, class: &LoadedClass) -> Result<(), NoMemory>
    ensures { OnOk result (classes.new ≡ with_listed classes.old class.now) }
{
    let signature = class.signature.as_slice();
    learn_loaded(
        alloc,
        classes,
        class.class,
        class.tag,
        signature,
        class.status,
    )
}

// The classes that an answer lists.
fn classes_in(replied: &Replied) -> &[LoadedClass]
    ensures { result.now ≡ classes_in (answer_in replied.now) }
{
    match replied {
        Replied::Answer(Answer::AllClasses(classes)) => classes.as_slice(),
        _ => &[],
    }
}

// Learns all classes that were listed (JDWP, VirtualMachine command set, AllClasses).
fn learn_all(alloc: Global, classes: &mut Classes, listed: &[LoadedClass]) -> Result<(), NoMemory>
    ensures { OnOk result (classes.new ≡ fold with_listed classes.old listed.now) }
{
    for class in listed {
        learn_listed(alloc, classes, class)?;
    }
    Ok(())
}

// Whether the fact of a class that is asked for was learnt.
fn knows_fact(question: &Question, classes: &Classes) -> bool
    ensures { result ≡ knows_fact question.now classes.now }
{
    match question {
        Question::Signature(class) => known_signature(classes, *class).is_some(),
        Question::SourceFile(class) => known_source(classes, *class).is_some(),
        Question::Methods(class) => known_methods(classes, *class).is_some(),
        Question::Fields(class) => knows_fields(classes, *class),
        Question::Superclass(class) => knows_above(classes, *class),
        Question::LineTable { class, method } => classes.lines(*class, *method).is_some(),
        Question::VariableTable { class, method } => classes.variables(*class, *method).is_some(),
        _ => false,
    }
}

/// Learns the fact of a class that was asked for, unless it was learnt before, or all classes that were listed; where
/// the target refused it, the fact is absent. `NoMemory` comes where memory is refused (JDWP, VirtualMachine command
/// set, AllClasses; JDWP, ReferenceType command set, SourceFile, Methods and Fields; JDWP, ClassType command set,
/// Superclass; JDWP, Method command set, LineTable and VariableTable).
pub fn learn(
    alloc: Global,
    question: &Question,
    replied: &Replied,
    classes: &mut Classes,
) -> Result<(), NoMemory>
    ensures { OnOk result (classes.new ≡ learnt question.now (answer_in replied.now) classes.old) }
{
    if knows_fact(question, classes) {
        return Ok(());
    }
    learn_heard(alloc, question, replied, classes)
}

// Learns what was replied.
fn learn_heard(
    alloc: Global,
    question: &Question,
    replied: &Replied,
    classes: &mut Classes,
) -> Result<(), NoMemory>
    ensures { OnOk result (classes.new ≡ with_heard question.now (answer_in replied.now) classes.old) }
{
    match question {
        Question::AllClasses => learn_all(alloc, classes, classes_in(replied)),
        Question::SourceFile(class) => classes.learn_source(
            *class,
            source_copy(alloc, source_in(replied))?,
        ),
        Question::Methods(class) => classes.learn_methods(
            *class,
            method_copies(alloc, methods_in(replied))?,
        ),
        Question::Fields(class) => classes.learn_fields(*class, fields_in(alloc, replied)?),
        Question::Superclass(class) => classes.learn_super(*class, above_in(replied)),
        Question::LineTable { class, method } => {
            classes.learn_lines(*class, *method, lines_in(alloc, replied)?)
        }
        Question::VariableTable { class, method } => {
            classes.learn_variables(*class, *method, variables_in(alloc, replied)?)
        }
        _ => Ok(()),
    }
}
