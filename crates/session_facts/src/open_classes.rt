//! How classes stand by what was learnt of them: which may lack something, and which may be found.
ghost use Rattle.std.specs.Prelude.{◌≡◌, ◌++◌, cond, IfOk, OnOk, true};
ghost use Rattle.std.specs.Prelude.{filter, is_some, option_copied, option_map};
ghost use Rattle.std.specs.List.{list_all};
ghost use Rattle.class_tables.specs.Lookups.{found_in};
ghost use Rattle.class_tables.specs.Views.{key_in};
ghost use Rattle.machine_model.specs.Classes.{counts};
ghost use Rattle.machine_model.specs.State.{is_empty};
ghost use Rattle.session_facts.specs.OpenClasses.{AreOpen, class_standing, keyed_standing, kept_by, may_be_found, may_lack};
ghost use Rattle.session_facts.specs.OpenClasses.{methods_standing, source_standing, standing_so, stays_open};
ghost use Rattle.session_facts.specs.OpenClasses.{unlisted_by, unnamed_by};
ghost use Rattle.session_facts.specs.declared.open_classes.Standing.TheVariants.{Passed};

use crate::known_classes::{
    counts, is_bound, is_keyed, known_methods, known_signature, known_source, watched_signature,
};
use crate::places::next_place;
use class_tables::Classes;
use jdwp_commands::Question;
use jdwp_values::{ClassId, Method};
use std::alloc::Global;
use wire_core::{Blob, List, NoMemory};
use wish_sets::Wishes;

/// How a class stands: it is passed over, whatever is asked; or it is found, and nothing is lacking of it; or something
/// may be lacking.
#[derive(Clone, Copy, PartialEq, Eq)]
pub enum Standing {
    Passed,
    Settled,
    Open,
}

/// The classes that may lack something, and those that may be found, in the order in which they were first listed.
#[derive(Drop)]
pub struct OpenClasses {
    pub lacking: List<ClassId>,
    pub found: List<ClassId>,
}

// Whether the lines of all methods were learnt that count.
fn has_lines(
    classes: &Classes,
    keyed: bool,
    wishes: &Wishes,
    class: ClassId,
    signature: &[u8],
    methods: &[Method],
) -> bool
    ensures { result ≡ list_all (λ method. is_some ((found_in classes.now).lines class method.id))
        (filter (counts keyed wishes.now.wanted signature.now) methods.now) }
{
    for method in methods {
        if counts(keyed, wishes, signature, method) && classes.lines(class, method.id).is_none() {
            return false;
        }
    }
    true
}

// A class whose source is listed, or that a function names, and whose methods may be known.
fn methods_standing(
    classes: &Classes,
    keyed: bool,
    wishes: &Wishes,
    class: ClassId,
    signature: &[u8],
    methods: Option<&[Method]>,
) -> Standing
    ensures { result ≡ methods_standing (found_in classes.now) keyed wishes.now.wanted class signature.now
        (option_copied methods.entry) }
{
    let Some(methods) = methods else {
        return Standing::Open;
    };
    if has_lines(classes, keyed, wishes, class, signature, methods) {
        Standing::Settled
    } else {
        Standing::Open
    }
}

// A class whose source is known: it is listed, or isn't.
fn keyed_standing(
    classes: &Classes,
    keyed: bool,
    wishes: &Wishes,
    class: ClassId,
    signature: &[u8],
) -> Standing
    ensures { result ≡ keyed_standing (found_in classes.now) keyed wishes.now.wanted class signature.now }
{
    if !is_bound(keyed, wishes, signature) {
        return Standing::Passed;
    }
    methods_standing(
        classes,
        keyed,
        wishes,
        class,
        signature,
        known_methods(classes, class),
    )
}

// A class in a package that is watched, and whose source may be known.
fn source_standing(
    classes: &Classes,
    wishes: &Wishes,
    class: ClassId,
    signature: &[u8],
    source: Option<Option<&Blob>>,
) -> Standing
    ensures { result ≡ source_standing wishes.now.wanted (found_in classes.now) class signature.now
        (option_map option_copied source.entry) }
{
    let Some(source) = source else {
        return Standing::Open;
    };
    keyed_standing(
        classes,
        is_keyed(wishes, signature, source),
        wishes,
        class,
        signature,
    )
}

// Whether the source of a class is known, and isn't listed.
fn is_unlisted(classes: &Classes, wishes: &Wishes, class: ClassId) -> bool
    ensures { result ≡ unlisted_by wishes.now.wanted (key_in (found_in classes.now) class) }
{
    match classes.key_of(class) {
        None => false,
        Some(key) => !wishes.is_listed(key.package, key.file),
    }
}

// Whether no function names a class, as far as its signature is known.
fn is_unnamed(wishes: &Wishes, signature: Option<&Blob>) -> bool
    ensures { result ≡ unnamed_by wishes.now.wanted (option_copied signature.entry) }
{
    match signature {
        None => true,
        Some(signature) => !wishes.is_named(signature.as_slice(), None),
    }
}

// Whether the source of a class is known and isn't listed, and no function names the class. Then it is passed over.
fn passes(classes: &Classes, wishes: &Wishes, class: ClassId) -> bool
    ensures { result ≡ true → class_standing wishes.now.wanted (found_in classes.now) class ≡ Passed }
{
    if !is_unlisted(classes, wishes, class) {
        return false;
    }
    is_unnamed(wishes, known_signature(classes, class))
}

/// How a class stands by what is known of it.
pub(crate) fn standing_of(classes: &Classes, wishes: &Wishes, class: ClassId) -> Standing
    ensures { result ≡ class_standing wishes.now.wanted (found_in classes.now) class }
{
    if passes(classes, wishes, class) {
        return Standing::Passed;
    }
    match watched_signature(classes, wishes, class) {
        None => Standing::Passed,
        Some(signature) => source_standing(
            classes,
            wishes,
            class,
            signature,
            known_source(classes, class),
        ),
    }
}

/// Whether something may be lacking of a class that stands so.
pub(crate) fn may_lack(standing: Standing) -> bool
    ensures { result ≡ may_lack standing }
{
    match standing {
        Standing::Passed => false,
        Standing::Settled => false,
        Standing::Open => true,
    }
}

/// Whether a class may be found that stands so.
pub(crate) fn may_be_found(standing: Standing) -> bool
    ensures { result ≡ may_be_found standing }
{
    match standing {
        Standing::Passed => false,
        Standing::Settled => true,
        Standing::Open => true,
    }
}

impl OpenClasses {
    /// A class that stands so, behind those before it.
    pub(crate) fn add(&mut self, standing: Standing, class: ClassId) -> Result<(), NoMemory>
        ensures lacking { OnOk result (self.new.lacking ≡ self.old.lacking ++ kept_by (may_lack standing) class) }
        ensures found { OnOk result (self.new.found ≡ self.old.found ++ kept_by (may_be_found standing) class) }
    {
        match standing {
            Standing::Passed => Ok(()),
            Standing::Settled => self.found.push(class),
            Standing::Open => {
                self.lacking.push(class)?;
                self.found.push(class)
            }
        }
    }
}

/// Which of all classes that were listed may lack something, and which may be found: these and no others, so that each
/// that is left out lacks nothing, or isn't found. `NoMemory` comes where memory is refused (JDWP, ReferenceType
/// command set, SourceFile and Methods; JDWP, Method command set, LineTable).
pub fn all_open(alloc: Global, classes: &Classes, wishes: &Wishes) -> Result<OpenClasses, NoMemory>
    ensures lacking { IfOk result (λ left. left.lacking
        ≡ standing_so may_lack wishes.now.wanted (found_in classes.now) (found_in classes.now).order) }
    ensures found { IfOk result (λ left. left.found
        ≡ standing_so may_be_found wishes.now.wanted (found_in classes.now) (found_in classes.now).order) }
    ensures enough { IfOk result (λ left. AreOpen wishes.now.wanted (found_in classes.now) left) }
{
    let mut left = OpenClasses {
        lacking: List::new(alloc),
        found: List::new(alloc),
    };
    let mut place = 0;
    while let Some(class) = classes.nth(place) {
        left.add(standing_of(classes, wishes, class), class)?;
        place = next_place(place)?;
    }
    Ok(left)
}

// Those of some classes that may still lack something.
fn still_open(
    alloc: Global,
    classes: &Classes,
    wishes: &Wishes,
    those: &[ClassId],
) -> Result<List<ClassId>, NoMemory>
    ensures { IfOk result (λ kept. kept
        ≡ standing_so may_lack wishes.now.wanted (found_in classes.now) those.now) }
{
    let mut kept = List::new(alloc);
    for class in those {
        if let Standing::Open = standing_of(classes, wishes, *class) {
            kept.push(*class)?;
        }
    }
    Ok(kept)
}

// Those of some classes that may still be found.
fn still_found(
    alloc: Global,
    classes: &Classes,
    wishes: &Wishes,
    those: &[ClassId],
) -> Result<List<ClassId>, NoMemory>
    ensures { IfOk result (λ kept. kept
        ≡ standing_so may_be_found wishes.now.wanted (found_in classes.now) those.now) }
{
    let mut kept = List::new(alloc);
    for class in those {
        if may_be_found(standing_of(classes, wishes, *class)) {
            kept.push(*class)?;
        }
    }
    Ok(kept)
}

fn none_lacks(left: &OpenClasses) -> bool
    ensures { result ≡ is_empty left.now.lacking }
{
    match left.lacking.as_slice() {
        [] => true,
        _ => false,
    }
}

// Those that are left by what is known now, and no others.
fn sorted_out(
    alloc: Global,
    classes: &Classes,
    wishes: &Wishes,
    left: OpenClasses,
) -> Result<OpenClasses, NoMemory>
    requires { AreOpen wishes.now.wanted (found_in classes.now) left }
    ensures lacking { IfOk result (λ kept. kept.lacking
        ≡ standing_so may_lack wishes.now.wanted (found_in classes.now) (found_in classes.now).order) }
    ensures found { IfOk result (λ kept. kept.found
        ≡ standing_so may_be_found wishes.now.wanted (found_in classes.now) (found_in classes.now).order) }
    ensures enough { IfOk result (λ kept. AreOpen wishes.now.wanted (found_in classes.now) kept) }
{
    let OpenClasses { lacking, found } = left;
    let lacking = still_open(alloc, classes, wishes, lacking.as_slice())?;
    let found = still_found(alloc, classes, wishes, found.as_slice())?;
    Ok(OpenClasses { lacking, found })
}

/// The same by what is known now: of all classes that were listed those that may lack something are left, and no others,
/// and those that may be found. Where none may lack anything, nothing is gone through, and those that may be found stay.
/// `NoMemory` comes where memory is refused (JDWP, ReferenceType command set, SourceFile and Methods; JDWP, Method
/// command set, LineTable).
pub fn trimmed(
    alloc: Global,
    classes: &Classes,
    wishes: &Wishes,
    left: OpenClasses,
) -> Result<OpenClasses, NoMemory>
    requires { AreOpen wishes.now.wanted (found_in classes.now) left }
    ensures lacking { IfOk result (λ kept. kept.lacking
        ≡ standing_so may_lack wishes.now.wanted (found_in classes.now) (found_in classes.now).order) }
    ensures found { IfOk result (λ kept. kept.found ≡ cond (is_empty left.lacking) left.found
        (standing_so may_be_found wishes.now.wanted (found_in classes.now) (found_in classes.now).order)) }
    ensures enough { IfOk result (λ kept. AreOpen wishes.now.wanted (found_in classes.now) kept) }
{
    if none_lacks(&left) {
        return Ok(left);
    }
    sorted_out(alloc, classes, wishes, left)
}

/// Whether classes that lack nothing still do once the reply to a question is learnt: it lists no classes (JDWP,
/// VirtualMachine command set, AllClasses).
pub fn stays_open(question: &Question) -> bool
    ensures { result ≡ stays_open question.now }
{
    !matches!(question, Question::AllClasses)
}
