//! Questions told apart.
ghost use Rattle.std.specs.Prelude.{◌≡◌, ◌∷◌, ◌++◌, map, IfOk, OnOk};
ghost use Rattle.std.specs.List.{flat_map};
ghost use Rattle.machine_model.specs.Keys.{question_key, signed_key, slot_key};
ghost use Rattle.std.proofs.Common.{rules};
ghost use Rattle.std.specs.Hash as fed;
ghost use Rattle.std.specs.Cmp.Rules.{comparing, hashing};

use jdwp_commands::{Question, Slot};
use jdwp_values::FieldId;
use std::alloc::Global;
use std::hash::{Hash, Hasher};
use std::marker::Model;
use wire_core::{List, NoMemory};

/// A question with its key, by which it is found. Contracts see the question.
#[derive(Drop)]
pub struct QuestionKey {
    question: Question,
    key: List<u64>,
}

impl Model for QuestionKey {
    ghost use Rattle.std.specs.Prelude.{◌≡◌};
    ghost use Rattle.jdwp_commands.specs.declared.question.Question.{Question};
    ghost use Rattle.machine_model.specs.Keys.{question_key};

    ghost Value = { Question };

    ghost view = { λ k. k.question };

    ghost invariant = { λ k. k.key ≡ question_key k.question };
}

// A number with a sign, as two.
fn add_signed(key: &mut List<u64>, number: i32) -> Result<(), NoMemory>
    ensures { OnOk result (key.new ≡ key.old ++ signed_key number) }
{
    if number < 0 {
        key.push(1)?;
        return key.push((-1 - i64::from(number)) as u64);
    }
    key.push(0)?;
    key.push(number as u64)
}

fn add_fields(key: &mut List<u64>, fields: &[FieldId]) -> Result<(), NoMemory>
    ensures { OnOk result (key.new ≡ key.old ++ map (λ field. field.0) fields.now) }
{
    for field in fields {
        key.push(field.0)?;
    }
    Ok(())
}

fn add_slot(key: &mut List<u64>, slot: Slot) -> Result<(), NoMemory>
    ensures { OnOk result (key.new ≡ key.old ++ slot_key slot) }
{
    key.push(u64::from(slot.tag))?;
    add_signed(key, slot.slot)
}

fn add_slots(key: &mut List<u64>, slots: &[Slot]) -> Result<(), NoMemory>
    ensures { OnOk result (key.new ≡ key.old ++ flat_map slot_key slots.now) }
{
    for slot in slots {
        add_slot(key, *slot)?;
    }
    Ok(())
}

fn add_bytes(key: &mut List<u64>, bytes: &[u8]) -> Result<(), NoMemory>
    ensures { OnOk result (key.new ≡ key.old ++ bytes.now) }
{
    for byte in bytes {
        key.push(u64::from(*byte))?;
    }
    Ok(())
}

fn signature_key(alloc: Global, signature: &[u8]) -> Result<List<u64>, NoMemory>
    ensures { IfOk result (λ key. key ≡ 0 ∷ signature.now) }
{
    let mut key = List::from_slice(alloc, &[0])?;
    add_bytes(&mut key, signature)?;
    Ok(key)
}

fn fields_key(alloc: Global, object: u64, fields: &[FieldId]) -> Result<List<u64>, NoMemory>
    ensures { IfOk result (λ key. key ≡ 12 ∷ object ∷ map (λ field. field.0) fields.now) }
{
    let mut key = List::from_slice(alloc, &[12, object])?;
    add_fields(&mut key, fields)?;
    Ok(key)
}

fn range_key(
    alloc: Global,
    place: u64,
    of: u64,
    first: i32,
    length: i32,
) -> Result<List<u64>, NoMemory>
    ensures { IfOk result (λ key. key ≡ place ∷ of ∷ signed_key first ++ signed_key length) }
{
    let mut key = List::from_slice(alloc, &[place, of])?;
    add_signed(&mut key, first)?;
    add_signed(&mut key, length)?;
    Ok(key)
}

fn slots_key(alloc: Global, thread: u64, frame: u64, slots: &[Slot]) -> Result<List<u64>, NoMemory>
    ensures { IfOk result (λ key. key ≡ 19 ∷ thread ∷ frame ∷ flat_map slot_key slots.now) }
{
    let mut key = List::from_slice(alloc, &[19, thread, frame])?;
    add_slots(&mut key, slots)?;
    Ok(key)
}

fn key_of(alloc: Global, question: &Question) -> Result<List<u64>, NoMemory>
    ensures { IfOk result (λ key. key ≡ question_key question.now) }
{
    match question {
        Question::ClassesBySignature(signature) => signature_key(alloc, signature.as_slice()),
        Question::AllClasses => List::from_slice(alloc, &[1]),
        Question::AllThreads => List::from_slice(alloc, &[2]),
        Question::IdSizes => List::from_slice(alloc, &[3]),
        Question::Signature(class) => List::from_slice(alloc, &[4, class.0]),
        Question::Fields(class) => List::from_slice(alloc, &[5, class.0]),
        Question::Methods(class) => List::from_slice(alloc, &[6, class.0]),
        Question::SourceFile(class) => List::from_slice(alloc, &[7, class.0]),
        Question::Superclass(class) => List::from_slice(alloc, &[8, class.0]),
        Question::LineTable { class, method } => List::from_slice(alloc, &[9, class.0, method.0]),
        Question::VariableTable { class, method } => {
            List::from_slice(alloc, &[10, class.0, method.0])
        }
        Question::ObjectType(object) => List::from_slice(alloc, &[11, object.0]),
        Question::GetFields { object, fields } => fields_key(alloc, object.0, fields.as_slice()),
        Question::StringValue(object) => List::from_slice(alloc, &[13, object.0]),
        Question::ThreadName(thread) => List::from_slice(alloc, &[14, thread.0]),
        Question::Frames {
            thread,
            start,
            length,
        } => range_key(alloc, 15, thread.0, *start, *length),
        Question::FrameCount(thread) => List::from_slice(alloc, &[16, thread.0]),
        Question::ArrayLength(array) => List::from_slice(alloc, &[17, array.0]),
        Question::GetElements {
            array,
            first,
            length,
        } => range_key(alloc, 18, array.0, *first, *length),
        Question::GetSlots {
            thread,
            frame,
            slots,
        } => slots_key(alloc, thread.0, frame.0, slots.as_slice()),
        Question::ThisObject { thread, frame } => {
            List::from_slice(alloc, &[20, thread.0, frame.0])
        }
    }
}

impl QuestionKey {
    /// A question with its key. `NoMemory` comes where memory is refused (JDWP, JDWP Packets, command packet).
    pub fn new(alloc: Global, question: Question) -> Result<QuestionKey, NoMemory>
        ensures { IfOk result (λ key. key ≡ question) }
    {
        let key = key_of(alloc, &question)?;
        Ok(QuestionKey { question, key })
    }

    /// The question.
    pub fn question(&self) -> &Question
        ensures { result.now ≡ self.now }
    {
        &self.question
    }

    /// The question by value.
    pub fn into_question(self) -> Question
        ensures { result ≡ self }
    {
        let QuestionKey { question, key: _ } = self;
        question
    }
}

impl PartialEq for QuestionKey {
    ghost use Rattle.machine_model.specs.Keys.{same_question};

    ghost eq = { same_question };

    ghost laws = { Prim.search (comparing, rules) };

    fn eq(&self, other: &QuestionKey) -> bool {
        self.key.as_slice() == other.key.as_slice()
    }
}

impl Eq for QuestionKey {
    ghost laws = { Prim.search (comparing, rules) };
}

impl Hash for QuestionKey {
    ghost hash_input = { λ question. fed.slice fed.u64 (question_key question) };

    ghost respects_eq = { Prim.search (hashing, rules) };

    fn hash<H: Hasher>(&self, state: &mut H) {
        self.key.as_slice().hash(state);
    }
}
