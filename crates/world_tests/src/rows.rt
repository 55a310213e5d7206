use crate::courses::sizes_of;
use jdwp_values::{
    ClassId, Field, FieldId, FrameId, IdSizes, Line, Method, MethodId, ObjectId, Tag, ThreadId,
    TypeTag, Value, Variable,
};
use slot_values::SlotValue;
use std::alloc::Global;
use std::test::Fail;
use wire_core::{Blob, List};
use world_model::{
    Put, World, WorldArray, WorldClass, WorldField, WorldFrame, WorldMethod, WorldObject,
    WorldString, WorldThread, WorldVariable,
};

/// The first word of a text, and what follows it.
pub(crate) fn head(text: &str) -> (&str, &str) {
    match text.split_once(' ') {
        Some((word, rest)) => (word, rest),
        None => (text, ""),
    }
}

/// An id, in hexadecimal digits.
pub(crate) fn id_of(word: &str) -> Result<u64, Fail> {
    Ok(u64::from_str_radix(word, 16)?)
}

/// Adds a row to a world; ids are hexadecimal, all other numbers decimal:
///
/// - `class`, its id, its tag, its signature, its source or `-`, the class above it, and whether it is prepared;
/// - `method`, its class, its id, its name, its signature, its bits, its start, its end, and its lines, each as its
///   index, a colon and its number, or `-`;
/// - `variable`, its class, its method, its name, its signature, its index, its length and its slot;
/// - `field`, its class, its id, its name, its signature and its bits;
/// - `object`, its id and its class;
/// - `array`, its id, its class and its values, each as the letter of its tag, and its number or id;
/// - `string`, its id, its class and its text;
/// - `put`, an object, a field and its value;
/// - `thread`, its id and its name;
/// - `frame`, its thread, its id, its class, its method, its index, its object, and its slots, each as its number, a
///   colon and its value;
/// - `next`, and the number of the next request;
/// - `count`, and how often all threads are suspended;
/// - `sizes`, and how many bytes a field, a method, an object, a class and a frame have in their ids.
pub(crate) fn add_row(alloc: Global, world: &mut World, row: &str) -> Result<(), Fail> {
    let (word, rest) = head(row);
    match word {
        "class" => Ok(world.classes.push(class_of(alloc, rest)?)?),
        "method" => Ok(world.methods.push(method_of(alloc, rest)?)?),
        "variable" => Ok(world.variables.push(variable_of(alloc, rest)?)?),
        "field" => Ok(world.fields.push(field_of(alloc, rest)?)?),
        _ => add_thing(alloc, world, word, rest),
    }
}

fn add_thing(alloc: Global, world: &mut World, word: &str, rest: &str) -> Result<(), Fail> {
    match word {
        "object" => Ok(world.objects.push(object_of(rest)?)?),
        "array" => Ok(world.arrays.push(array_of(alloc, rest)?)?),
        "string" => Ok(world.strings.push(string_of(alloc, rest)?)?),
        "put" => Ok(world.puts.push(put_of(rest)?)?),
        "thread" => Ok(world.threads.push(thread_of(alloc, rest)?)?),
        "frame" => Ok(world.frames.push(frame_of(alloc, rest)?)?),
        _ => set_number(world, word, rest),
    }
}

fn set_number(world: &mut World, word: &str, rest: &str) -> Result<(), Fail> {
    match word {
        "next" => world.next_request = rest.parse()?,
        "count" => world.count = rest.parse()?,
        "sizes" => world.sizes = sizes(rest)?,
        _ => return Err("no row of a world".into()),
    }
    Ok(())
}

fn sizes(words: &str) -> Result<IdSizes, Fail> {
    let (field, rest) = head(words);
    let (method, rest) = head(rest);
    let (object, rest) = head(rest);
    let (class, frame) = head(rest);
    Ok(sizes_of([
        field.parse()?,
        method.parse()?,
        object.parse()?,
        class.parse()?,
        frame.parse()?,
    ])?)
}

fn blob(alloc: Global, text: &str) -> Result<Blob, Fail> {
    Ok(Blob::from_slice(alloc, text.as_bytes())?)
}

fn class_of(alloc: Global, words: &str) -> Result<WorldClass, Fail> {
    let (id, rest) = head(words);
    let (tag, rest) = head(rest);
    let (signature, rest) = head(rest);
    let (source, rest) = head(rest);
    let (above, prepared) = head(rest);
    Ok(WorldClass {
        id: ClassId(id_of(id)?),
        tag: TypeTag::from_byte(tag.parse()?).ok_or("no tag of a class")?,
        above: ClassId(id_of(above)?),
        prepared: prepared == "true",
        signature: blob(alloc, signature)?,
        source: source_of(alloc, source)?,
    })
}

fn source_of(alloc: Global, name: &str) -> Result<Option<Blob>, Fail> {
    match name {
        "-" => Ok(None),
        _ => Ok(Some(blob(alloc, name)?)),
    }
}

fn method_of(alloc: Global, words: &str) -> Result<WorldMethod, Fail> {
    let (class, rest) = head(words);
    let (id, rest) = head(rest);
    let (name, rest) = head(rest);
    let (signature, rest) = head(rest);
    let (bits, rest) = head(rest);
    let (start, rest) = head(rest);
    let (end, lines) = head(rest);
    Ok(WorldMethod {
        class: ClassId(id_of(class)?),
        start: start.parse()?,
        end: end.parse()?,
        method: Method {
            id: MethodId(id_of(id)?),
            bits: bits.parse()?,
            name: blob(alloc, name)?,
            signature: blob(alloc, signature)?,
        },
        lines: lines_of(alloc, lines)?,
    })
}

fn lines_of(alloc: Global, words: &str) -> Result<Option<List<Line>>, Fail> {
    if words == "-" {
        return Ok(None);
    }
    let mut lines = List::new(alloc);
    for word in words.split_whitespace() {
        let (index, line) = word.split_once(':').ok_or("no line")?;
        lines.push(Line {
            index: index.parse()?,
            line: line.parse()?,
        })?;
    }
    Ok(Some(lines))
}

fn variable_of(alloc: Global, words: &str) -> Result<WorldVariable, Fail> {
    let (class, rest) = head(words);
    let (method, rest) = head(rest);
    let (name, rest) = head(rest);
    let (signature, rest) = head(rest);
    let (index, rest) = head(rest);
    let (length, slot) = head(rest);
    Ok(WorldVariable {
        class: ClassId(id_of(class)?),
        method: MethodId(id_of(method)?),
        variable: Variable {
            index: index.parse()?,
            length: length.parse()?,
            slot: slot.parse()?,
            name: blob(alloc, name)?,
            signature: blob(alloc, signature)?,
        },
    })
}

fn field_of(alloc: Global, words: &str) -> Result<WorldField, Fail> {
    let (class, rest) = head(words);
    let (id, rest) = head(rest);
    let (name, rest) = head(rest);
    let (signature, bits) = head(rest);
    Ok(WorldField {
        class: ClassId(id_of(class)?),
        field: Field {
            id: FieldId(id_of(id)?),
            bits: bits.parse()?,
            name: blob(alloc, name)?,
            signature: blob(alloc, signature)?,
        },
    })
}

fn object_of(words: &str) -> Result<WorldObject, Fail> {
    let (id, class) = head(words);
    Ok(WorldObject {
        id: ObjectId(id_of(id)?),
        tag: Tag::Object,
        class: ClassId(id_of(class)?),
    })
}

fn array_of(alloc: Global, words: &str) -> Result<WorldArray, Fail> {
    let (id, rest) = head(words);
    let (class, rest) = head(rest);
    Ok(WorldArray {
        id: ObjectId(id_of(id)?),
        class: ClassId(id_of(class)?),
        values: values_of(alloc, rest)?,
    })
}

fn values_of(alloc: Global, words: &str) -> Result<List<Value>, Fail> {
    let mut values = List::new(alloc);
    for word in words.split_whitespace() {
        values.push(value_of(word)?)?;
    }
    Ok(values)
}

fn value_of(word: &str) -> Result<Value, Fail> {
    if let Some(number) = word.strip_prefix('I') {
        return Ok(Value::Int(number.parse()?));
    }
    if let Some(id) = word.strip_prefix('[') {
        return Ok(Value::Array(ObjectId(id_of(id)?)));
    }
    let id = word.strip_prefix('L').ok_or("no value")?;
    Ok(Value::Object(ObjectId(id_of(id)?)))
}

fn string_of(alloc: Global, words: &str) -> Result<WorldString, Fail> {
    let (id, rest) = head(words);
    let (class, text) = head(rest);
    Ok(WorldString {
        id: ObjectId(id_of(id)?),
        class: ClassId(id_of(class)?),
        text: blob(alloc, text)?,
    })
}

fn put_of(words: &str) -> Result<Put, Fail> {
    let (object, rest) = head(words);
    let (field, value) = head(rest);
    Ok(Put {
        object: ObjectId(id_of(object)?),
        field: FieldId(id_of(field)?),
        value: value_of(value)?,
    })
}

fn thread_of(alloc: Global, words: &str) -> Result<WorldThread, Fail> {
    let (id, name) = head(words);
    Ok(WorldThread {
        id: ThreadId(id_of(id)?),
        name: blob(alloc, name)?,
    })
}

fn frame_of(alloc: Global, words: &str) -> Result<WorldFrame, Fail> {
    let (thread, rest) = head(words);
    let (id, rest) = head(rest);
    let (class, rest) = head(rest);
    let (method, rest) = head(rest);
    let (index, rest) = head(rest);
    let (this, slots) = head(rest);
    Ok(WorldFrame {
        thread: ThreadId(id_of(thread)?),
        id: FrameId(id_of(id)?),
        class: ClassId(id_of(class)?),
        method: MethodId(id_of(method)?),
        index: index.parse()?,
        this: ObjectId(id_of(this)?),
        slots: slots_of(alloc, slots)?,
    })
}

/// Slots and their values.
pub(crate) fn slots_of(alloc: Global, words: &str) -> Result<List<SlotValue>, Fail> {
    let mut slots = List::new(alloc);
    for word in words.split_whitespace() {
        let (slot, value) = word.split_once(':').ok_or("no slot")?;
        slots.push(SlotValue {
            slot: slot.parse()?,
            value: value_of(value)?,
        })?;
    }
    Ok(slots)
}
