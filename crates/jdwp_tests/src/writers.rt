//! Parts that a writer writes one after the other, as the calls of a reader read them.
ghost use Rattle.std.specs.Prelude.{◌≡◌, [], ◌∷◌, IfOk};

use crate::rows::bytes_of;
use jdwp_values::{
    ClassId, FieldId, FrameId, IdSizes, Location, MethodId, ObjectId, ThreadId, TypeTag, Value,
    Writer, write_list,
};
use std::alloc::Global;
use std::test::Fail;
use wire_core::{Blob, NoMemory};

fn made(sizes: [u32; 5]) -> Result<IdSizes, Fail>
    ensures { IfOk result (λ s. sizes ≡ s.field ∷ s.method ∷ s.object ∷ s.class ∷ s.frame ∷ []) }
{
    match IdSizes::new(sizes) {
        Ok(sizes) => Ok(sizes),
        Err(_) => Err("a size is outside 1 to 8".into()),
    }
}

fn expect(alloc: Global, written: Blob, wanted: &str) -> Result<(), Fail> {
    if written.as_slice() == bytes_of(alloc, wanted)?.as_slice() {
        return Ok(());
    }
    Err("other bytes are written".into())
}

fn write_location(alloc: Global, sizes: IdSizes) -> Result<Blob, NoMemory>
    requires { sizes.field ∷ sizes.method ∷ sizes.object ∷ sizes.class ∷ sizes.frame ∷ [] ≡ 4 ∷ 4 ∷ 8 ∷ 8 ∷ 4 ∷ [] }
{
    let mut writer = Writer::new(alloc, sizes);
    writer.location(Location {
        tag: TypeTag::Class,
        class: ClassId(16),
        method: MethodId(3),
        index: 7,
    })?;
    Ok(writer.done())
}

#[test]
fn a_location_is_written(rt: HostRuntime) -> Result<(), Fail> {
    let written = write_location(rt.alloc(), made([4, 4, 8, 8, 4])?)?;
    let wanted = "01 0000000000000010 00000003 0000000000000007";
    expect(rt.alloc(), written, wanted)
}

fn write_parts(alloc: Global, sizes: IdSizes) -> Result<Blob, NoMemory>
    requires { sizes.field ∷ sizes.method ∷ sizes.object ∷ sizes.class ∷ sizes.frame ∷ [] ≡ 1 ∷ 3 ∷ 1 ∷ 2 ∷ 2 ∷ [] }
{
    let mut writer = Writer::new(alloc, sizes);
    writer.byte(7)?;
    writer.int(-2)?;
    writer.long(-3)?;
    writer.index(1 << 63)?;
    writer.object(ObjectId(1))?;
    writer.thread(ThreadId(2))?;
    writer.class(ClassId(3))?;
    writer.method(MethodId(4))?;
    writer.frame(FrameId(5))?;
    writer.field(FieldId(6))?;
    writer.type_tag(TypeTag::Array)?;
    writer.text(b"hi")?;
    writer.value(&Value::Object(ObjectId(10)))?;
    writer.value(&Value::Short(-256))?;
    writer.tail(&[33, 34])?;
    Ok(writer.done())
}

// Each part once, with ids of different sizes; the bytes are reckoned by hand.
const PARTS: &str = "07 fffffffe fffffffffffffffd 8000000000000000 01 02 0003 000004 0005 06 03 \
    00000002 'hi' 'L' 0a 'S' ff00 2122";

#[test]
fn parts_are_written_one_after_the_other(rt: HostRuntime) -> Result<(), Fail> {
    let written = write_parts(rt.alloc(), made([1, 3, 1, 2, 2])?)?;
    expect(rt.alloc(), written, PARTS)
}

fn write_others(alloc: Global, sizes: IdSizes) -> Result<Blob, NoMemory>
    requires { sizes.field ∷ sizes.method ∷ sizes.object ∷ sizes.class ∷ sizes.frame ∷ [] ≡ 8 ∷ 8 ∷ 2 ∷ 8 ∷ 8 ∷ [] }
{
    let mut writer = Writer::new(alloc, sizes);
    writer.number(u32::MAX)?;
    writer.count(2)?;
    writer.reference(&Value::Thread(ObjectId(258)))?;
    writer.untagged(&Value::ClassObject(ObjectId(3)))?;
    writer.untagged(&Value::Short(-2))?;
    Ok(writer.done())
}

#[test]
fn counts_references_and_values_without_tags_are_written(rt: HostRuntime) -> Result<(), Fail> {
    let written = write_others(rt.alloc(), made([8, 8, 2, 8, 8])?)?;
    expect(rt.alloc(), written, "ffffffff 00000002 't' 0102 0003 fffe")
}

fn write_threads(alloc: Global, sizes: IdSizes) -> Result<Blob, NoMemory>
    requires { sizes.field ∷ sizes.method ∷ sizes.object ∷ sizes.class ∷ sizes.frame ∷ [] ≡ 8 ∷ 8 ∷ 2 ∷ 8 ∷ 8 ∷ [] }
{
    let mut writer = Writer::new(alloc, sizes);
    write_list(&mut writer, &[ThreadId(5), ThreadId(256)])?;
    Ok(writer.done())
}

#[test]
fn a_list_is_written_behind_its_count(rt: HostRuntime) -> Result<(), Fail> {
    let written = write_threads(rt.alloc(), made([8, 8, 2, 8, 8])?)?;
    expect(rt.alloc(), written, "00000002 0005 0100")
}
