//! The fields of classes, each told apart from those before it by its name.
ghost use Rattle.std.specs.Prelude.{◌≡◌, ◌++◌, ◌∷◌, [], IfOk, OnOk, bytes_eq};
ghost use Rattle.jdwp_values.specs.Lossy.{lossy};
ghost use Rattle.std.specs.List.{list_any};
ghost use Rattle.std.proofs.Common.{rules};
ghost use Rattle.std.specs.Hash as fed;
ghost use Rattle.std.specs.Cmp.Rules.{comparing, hashing};
ghost use Rattle.machine_model.specs.Children.{names_met, of_classes, of_fields, own_fields, with_name};

use indexmap::IndexSet;
use jdwp_values::{ClassId, Field, lossy};
use look_ups::is_static;
use std::alloc::Global;
use std::collections::VecDeque;
use std::hash::{Hash, Hasher};
use std::marker::Model;
use wire_core::{NoMemory, Text};

/// A class with its fields.
#[derive(Drop)]
pub(crate) struct ClassFields<'a> {
    pub(crate) class: ClassId,
    pub(crate) fields: &'a [Field],
}

impl<'a> Model for ClassFields<'a> {
    ghost use Rattle.std.specs.Prelude.{ℕ, List};
    ghost use Rattle.jdwp_values.specs.declared.class.Field.{Field};

    ghost Value = { ℕ × List Field };

    ghost view = { λ c. (c.class.0, c.fields.now) };
}

/// A field, its class, and whether its name was met before.
#[derive(Drop)]
pub(crate) struct FieldOf<'a> {
    pub(crate) class: ClassId,
    pub(crate) is_met: bool,
    pub(crate) field: &'a Field,
}

impl<'a> Model for FieldOf<'a> {
    ghost use Rattle.machine_model.specs.Children as children;

    ghost Value = { children.FieldOf };

    ghost view = { λ f. record { class = f.class.0; is_met = f.is_met; field = f.field.now } };
}

// A field's name as it is shown. Contracts see its bytes.
#[derive(Drop)]
struct Name {
    text: Text,
}

impl Model for Name {
    ghost use Rattle.std.specs.Prelude.{ℕ, List};

    ghost Value = { List ℕ };

    ghost view = { λ n. n.text };
}

impl PartialEq for Name {
    ghost use Rattle.std.specs.Prelude.{bytes_eq};

    ghost eq = { bytes_eq };

    ghost laws = { Prim.search (comparing, rules) };

    fn eq(&self, other: &Name) -> bool {
        self.text.as_bytes() == other.text.as_bytes()
    }
}

impl Eq for Name {
    ghost laws = { Prim.search (comparing, rules) };
}

impl Hash for Name {
    ghost hash_input = { λ name. fed.slice fed.u8 name };

    ghost respects_eq = { Prim.search (hashing, rules) };

    fn hash<H: Hasher>(&self, state: &mut H) {
        self.text.as_bytes().hash(state);
    }
}

// A name is met; whether it was before.
fn meet(alloc: Global, met: &mut IndexSet<Name>, name: &[u8]) -> Result<bool, NoMemory>
    ensures was { IfOk result (λ was. was ≡ list_any (bytes_eq (lossy name.now)) met.old.keys) }
    ensures met { OnOk result (met.new.keys ≡ with_name met.old.keys (lossy name.now)) }
{
    let text = lossy(alloc, name)?;
    let is_new = met.insert(Name { text })?;
    Ok(!is_new)
}

// A field of a class's objects is found, and its name is met.
fn add_field<'a>(
    alloc: Global,
    class: ClassId,
    met: &mut IndexSet<Name>,
    field: &'a Field,
    found: &mut VecDeque<FieldOf<'a>>,
) -> Result<(), NoMemory>
    ensures found { OnOk result (found.new.items
        ≡ found.old.items ++ of_fields class.0 met.old.keys (own_fields (field.now ∷ []))) }
    ensures met { OnOk result (met.new.keys ≡ names_met met.old.keys (own_fields (field.now ∷ []))) }
{
    if is_static(field.bits) {
        return Ok(());
    }
    let is_met = meet(alloc, met, field.name.as_slice())?;
    found.push_back(FieldOf {
        class,
        is_met,
        field,
    })?;
    Ok(())
}

// The fields of a class, behind those before it.
#[tactic(auto, using(crate::proofs::FieldLaws::fields_step, crate::proofs::FieldLaws::names_step))]
fn add_fields<'a>(
    alloc: Global,
    class: &ClassFields<'a>,
    met: &mut IndexSet<Name>,
    found: &mut VecDeque<FieldOf<'a>>,
) -> Result<(), NoMemory>
    ensures found { OnOk result (found.new.items
        ≡ found.old.items ++ of_fields class.now.0 met.old.keys (own_fields class.now.1)) }
    ensures met { OnOk result (met.new.keys ≡ names_met met.old.keys (own_fields class.now.1)) }
{
    for field in class.fields {
        add_field(alloc, class.class, met, field, found)?;
    }
    Ok(())
}

/// The fields of a chain of classes, from the class upwards, each with whether its name was met before.
pub(crate) fn of_classes<'a>(
    alloc: Global,
    classes: &[ClassFields<'a>],
) -> Result<VecDeque<FieldOf<'a>>, NoMemory>
    ensures { IfOk result (λ found. found.items ≡ of_classes [] classes.now) }
{
    let mut met = IndexSet::new(alloc);
    let mut found = VecDeque::new(alloc);
    for class in classes {
        add_fields(alloc, class, &mut met, &mut found)?;
    }
    Ok(found)
}
