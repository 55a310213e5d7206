//! What has to be known of classes before breakpoints are bound in them: what each lacks, and which are found.
ghost use Rattle.std.specs.Prelude.{◌≡◌, ◌++◌, ◌∷◌, [], None, cond, filter, option_copied, option_map, IfOk, OnOk};
ghost use Rattle.std.specs.List.{flat_map};
ghost use Rattle.class_tables.specs.Lookups.{found_in};
ghost use Rattle.jdwp_commands.specs.declared.question.Question.TheVariants as questions;
ghost use Rattle.machine_model.specs.Classes.{counts};
ghost use Rattle.machine_model.specs.Lookups.{plan};
ghost use Rattle.machine_model.specs.Plans.{found_from, need};
ghost use Rattle.machine_model.specs.declared.acts.Want.TheVariants.{Fact};
ghost use Rattle.machine_model.specs.declared.parts.Finding.TheVariants.{Classes as classes_found};
ghost use Rattle.machine_model.specs.declared.parts.Lookup.TheVariants.{Classes as class_facts};
ghost use Rattle.session_facts.specs.ClassPlanning.{all_found, all_lacking, class_need, early_lacking, lines_lacking};
ghost use Rattle.session_facts.specs.ClassPlanning.{methods_heard, source_heard};
ghost use Rattle.session_facts.specs.OpenClasses.{AreOpen};
ghost use Rattle.talk_look_ups.specs.Planning.{lacks_or, listing_by, need_of, sight_in};
ghost use Rattle.wish_sets.specs.Wished.{is_named};

use crate::need::{Need, lacks};
use jdwp_commands::{Question, Replied};
use jdwp_values::{ClassId, Method, MethodId};
use look_ups::{Asked, QuestionKey};
use machine_model::{Finding, Want};
use session_facts::{
    OpenClasses, all_open, counts, is_bound, is_keyed, known_methods, known_source, methods_in,
    source_in, watched_signature,
};
use std::alloc::Global;
use std::collections::VecDeque;
use talk_state::State;
use wire_core::{Blob, List, NoMemory};

/// The fact of a class is lacking.
pub(crate) fn lack(wants: &mut VecDeque<Want>, question: Question) -> Result<(), NoMemory>
    ensures { OnOk result (wants.new.items ≡ wants.old.items ++ Fact question ∷ []) }
{
    wants.push_back(Want::Fact(question))?;
    Ok(())
}

/// The source of a class, where it was learnt or replied; it may be absent (JDWP, ReferenceType command set,
/// SourceFile).
pub(crate) fn source_heard<'a>(
    alloc: Global,
    state: &'a State,
    asked: &'a Asked,
    class: ClassId,
) -> Result<Option<Option<&'a Blob>>, NoMemory>
    ensures { IfOk result (λ source.
        option_map option_copied source ≡ source_heard (sight_in state.now asked.now) class) }
{
    if let Some(source) = known_source(&state.classes, class) {
        return Ok(Some(source));
    }
    let key = QuestionKey::new(alloc, Question::SourceFile(class))?;
    match asked.find(&key) {
        None => Ok(None),
        Some((_, replied)) => Ok(Some(source_in(replied))),
    }
}

/// The methods of a class, where they were learnt or replied (JDWP, ReferenceType command set, Methods).
pub(crate) fn methods_heard<'a>(
    alloc: Global,
    state: &'a State,
    asked: &'a Asked,
    class: ClassId,
) -> Result<Option<&'a [Method]>, NoMemory>
    ensures { IfOk result (λ methods. option_copied methods ≡ methods_heard (sight_in state.now asked.now) class) }
{
    if let Some(methods) = known_methods(&state.classes, class) {
        return Ok(Some(methods));
    }
    let key = QuestionKey::new(alloc, Question::Methods(class))?;
    match asked.find(&key) {
        None => Ok(None),
        Some((_, replied)) => Ok(Some(methods_in(replied))),
    }
}

/// The lines of a method are lacking where they were neither learnt nor replied (JDWP, Method command set, LineTable).
pub(crate) fn add_lines(
    alloc: Global,
    state: &State,
    asked: &Asked,
    class: ClassId,
    method: MethodId,
    wants: &mut VecDeque<Want>,
) -> Result<(), NoMemory>
    ensures { OnOk result (wants.new.items
        ≡ wants.old.items ++ lines_lacking (sight_in state.now asked.now) class method) }
{
    if state.classes.lines(class, method).is_some() {
        return Ok(());
    }
    let key = QuestionKey::new(alloc, Question::LineTable { class, method })?;
    if asked.find(&key).is_some() {
        return Ok(());
    }
    wants.push_back(Want::Fact(key.into_question()))?;
    Ok(())
}

// The lines of a method, where it counts.
fn add_counted(
    alloc: Global,
    state: &State,
    asked: &Asked,
    keyed: bool,
    class: ClassId,
    signature: &[u8],
    method: &Method,
    wants: &mut VecDeque<Want>,
) -> Result<(), NoMemory>
    ensures { OnOk result (wants.new.items ≡ wants.old.items
        ++ cond (counts keyed state.now.wishes.wanted signature.now method.now)
        (lines_lacking (sight_in state.now asked.now) class method.now.id) []) }
{
    if !counts(keyed, &state.wishes, signature, method) {
        return Ok(());
    }
    add_lines(alloc, state, asked, class, method.id, wants)
}

// The lines of the methods that count.
fn add_all_lines(
    alloc: Global,
    state: &State,
    asked: &Asked,
    keyed: bool,
    class: ClassId,
    signature: &[u8],
    methods: &[Method],
    wants: &mut VecDeque<Want>,
) -> Result<(), NoMemory>
    ensures { OnOk result (wants.new.items ≡ wants.old.items
        ++ flat_map (λ method. lines_lacking (sight_in state.now asked.now) class method.id)
        (filter (counts keyed state.now.wishes.wanted signature.now) methods.now)) }
{
    for method in methods {
        add_counted(alloc, state, asked, keyed, class, signature, method, wants)?;
    }
    Ok(())
}

// The methods of a class that a function names, where they were neither learnt nor replied (JDWP, ReferenceType command
// set, Methods).
fn add_early(
    alloc: Global,
    state: &State,
    asked: &Asked,
    class: ClassId,
    signature: &[u8],
    wants: &mut VecDeque<Want>,
) -> Result<(), NoMemory>
    ensures { OnOk result (wants.new.items
        ≡ wants.old.items ++ early_lacking (is_named state.now.wishes.wanted signature.now None) class
        (methods_heard (sight_in state.now asked.now) class)) }
{
    if !is_bound(false, &state.wishes, signature) {
        return Ok(());
    }
    match methods_heard(alloc, state, asked, class)? {
        None => lack(wants, Question::Methods(class)),
        Some(_) => Ok(()),
    }
}

// What a class lacks, behind what those before it lack.
fn add_lacking(
    alloc: Global,
    state: &State,
    asked: &Asked,
    class: ClassId,
    wants: &mut VecDeque<Want>,
) -> Result<(), NoMemory>
    ensures { OnOk result (wants.new.items ≡ wants.old.items
        ++ (class_need (sight_in state.now asked.now) state.now.wishes.wanted class).lacking) }
{
    let Some(signature) = watched_signature(&state.classes, &state.wishes, class) else {
        return Ok(());
    };
    let Some(source) = source_heard(alloc, state, asked, class)? else {
        lack(wants, Question::SourceFile(class))?;
        return add_early(alloc, state, asked, class, signature, wants);
    };
    let keyed = is_keyed(&state.wishes, signature, source);
    if !is_bound(keyed, &state.wishes, signature) {
        return Ok(());
    }
    match methods_heard(alloc, state, asked, class)? {
        None => lack(wants, Question::Methods(class)),
        Some(methods) => add_all_lines(
            alloc, state, asked, keyed, class, signature, methods, wants,
        ),
    }
}

// A class, behind those before it, where it is found.
fn add_found(
    alloc: Global,
    state: &State,
    asked: &Asked,
    class: ClassId,
    found: &mut List<ClassId>,
) -> Result<(), NoMemory>
    ensures { OnOk result (found.new
        ≡ found.old ++ (class_need (sight_in state.now asked.now) state.now.wishes.wanted class).found) }
{
    let Some(signature) = watched_signature(&state.classes, &state.wishes, class) else {
        return Ok(());
    };
    let Some(source) = source_heard(alloc, state, asked, class)? else {
        return Ok(());
    };
    let keyed = is_keyed(&state.wishes, signature, source);
    if !is_bound(keyed, &state.wishes, signature) {
        return Ok(());
    }
    match methods_heard(alloc, state, asked, class)? {
        None => Ok(()),
        Some(_) => found.push(class),
    }
}

fn lacking_among(
    alloc: Global,
    state: &State,
    asked: &Asked,
    those: &[ClassId],
) -> Result<VecDeque<Want>, NoMemory>
    ensures { IfOk result (λ wants. wants.items
        ≡ all_lacking (sight_in state.now asked.now) state.now.wishes.wanted those.now) }
{
    let mut wants = VecDeque::new(alloc);
    for class in those {
        add_lacking(alloc, state, asked, *class, &mut wants)?;
    }
    Ok(wants)
}

fn found_among(
    alloc: Global,
    state: &State,
    asked: &Asked,
    those: &[ClassId],
) -> Result<List<ClassId>, NoMemory>
    ensures { IfOk result (λ found. found
        ≡ all_found (sight_in state.now asked.now) state.now.wishes.wanted those.now) }
{
    let mut found = List::new(alloc);
    for class in those {
        add_found(alloc, state, asked, *class, &mut found)?;
    }
    Ok(found)
}

#[tactic(auto, using(session_facts::proofs::OpenLaws::left_lack))]
fn lacking_by(
    alloc: Global,
    state: &State,
    asked: &Asked,
    left: &OpenClasses,
) -> Result<VecDeque<Want>, NoMemory>
    requires { AreOpen state.now.wishes.wanted (found_in state.now.classes) left.now }
    ensures { IfOk result (λ wants. wants.items
        ≡ all_lacking (sight_in state.now asked.now) state.now.wishes.wanted (found_in state.now.classes).order) }
{
    lacking_among(alloc, state, asked, left.lacking.as_slice())
}

// What all classes lack that were listed, in the order in which they were first listed (JDWP, ReferenceType command set,
// SourceFile and Methods; JDWP, Method command set, LineTable).
fn all_lacking(alloc: Global, state: &State, asked: &Asked) -> Result<VecDeque<Want>, NoMemory>
    ensures { IfOk result (λ wants. wants.items
        ≡ all_lacking (sight_in state.now asked.now) state.now.wishes.wanted (found_in state.now.classes).order) }
{
    match &state.left {
        Some(left) => lacking_by(alloc, state, asked, left),
        None => {
            let left = all_open(alloc, &state.classes, &state.wishes)?;
            lacking_by(alloc, state, asked, &left)
        }
    }
}

#[tactic(auto, using(session_facts::proofs::OpenLaws::left_found))]
fn found_by(
    alloc: Global,
    state: &State,
    asked: &Asked,
    left: &OpenClasses,
) -> Result<List<ClassId>, NoMemory>
    requires { AreOpen state.now.wishes.wanted (found_in state.now.classes) left.now }
    ensures { IfOk result (λ found. found
        ≡ all_found (sight_in state.now asked.now) state.now.wishes.wanted (found_in state.now.classes).order) }
{
    found_among(alloc, state, asked, left.found.as_slice())
}

// The classes in which breakpoints may be bound, in the order in which they were first listed (JDWP, ReferenceType command
// set, SourceFile and Methods).
fn all_found(alloc: Global, state: &State, asked: &Asked) -> Result<List<ClassId>, NoMemory>
    ensures { IfOk result (λ found. found
        ≡ all_found (sight_in state.now asked.now) state.now.wishes.wanted (found_in state.now.classes).order) }
{
    match &state.left {
        Some(left) => found_by(alloc, state, asked, left),
        None => {
            let left = all_open(alloc, &state.classes, &state.wishes)?;
            found_by(alloc, state, asked, &left)
        }
    }
}

// What lacks these, where there are any, and finds no class.
fn lacks_alone(alloc: Global, wants: VecDeque<Want>) -> Need
    ensures { need_of result ≡ lacks_or wants.items (classes_found []) }
{
    match lacks(wants) {
        Some(found) => found,
        None => Need::Has(Finding::Classes(List::new(alloc))),
    }
}

// All classes are listed beside these, and nothing is read off (JDWP, VirtualMachine command set, AllClasses).
fn listing_need(alloc: Global, asked: &Asked, others: VecDeque<Want>) -> Result<Need, NoMemory>
    ensures { IfOk result (λ found. need_of found
        ≡ listing_by (found_from 0 asked.now questions.AllClasses) others.items) }
{
    let key = QuestionKey::new(alloc, Question::AllClasses)?;
    match asked.find(&key) {
        None => Ok(Need::Lacks {
            first: Want::Must(key.into_question()),
            others,
        }),
        Some((place, Replied::Error(code))) => Ok(Need::Fails { place, code: *code }),
        Some((_, Replied::Answer(_))) => Ok(lacks_alone(alloc, others)),
    }
}

/// What the look-up of classes comes to: what has to be known of them before breakpoints are bound in them. `NoMemory`
/// comes where memory is refused (JDWP, VirtualMachine command set, AllClasses; JDWP, ReferenceType command set,
/// SourceFile and Methods; JDWP, Method command set, LineTable).
#[tactic(auto, using(crate::proofs::ClassLaws::listing_need, crate::proofs::ClassLaws::known_need))]
pub fn classes_need(alloc: Global, state: &State, asked: &Asked) -> Result<Need, NoMemory>
    ensures { IfOk result (λ found. need_of found ≡ need (sight_in state.now asked.now) (plan class_facts state.now)) }
{
    let wants = all_lacking(alloc, state, asked)?;
    if state.unlisted {
        return listing_need(alloc, asked, wants);
    }
    match lacks(wants) {
        Some(found) => Ok(found),
        None => Ok(Need::Has(Finding::Classes(all_found(alloc, state, asked)?))),
    }
}
