ghost use Rattle.std.specs.Prelude.{◌≡◌};
ghost use Rattle.std.specs.List.{AllByRecursion};
ghost use Rattle.jdwp_values.specs.Rows.{Tells, times_at, list_at, spell_list, FitsList};
ghost use Rattle.jdwp_values.specs.Spelling.{Writes};
ghost use Rattle.jdwp_commands.specs.Regions.{region_tag_of, meaning_at, element_at, region_at, spell_element};
ghost use Rattle.jdwp_commands.specs.Regions.{spell_region, FitsElement, FitsRegion};

use crate::meaning::bad_tag;
use jdwp_values::{Limit, Reader, RowFault, Tag, Value, Writer};
use std::alloc::Global;
use wire_core::{List, NoMemory};

/// Elements of an array, and the tag of their kind (JDWP, Detailed Command Information, common data types,
/// arrayregion). Where it is a reference's tag each element has its own reference's tag, else that of the region.
#[derive(Debug, Drop)]
pub struct Region {
    pub tag: Tag,
    pub values: List<Value>,
}

fn region_tag(byte: u8) -> Option<Tag>
    ensures { result ≡ region_tag_of byte }
{
    match byte {
        b'B' => Some(Tag::Byte),
        b'C' => Some(Tag::Char),
        b'D' => Some(Tag::Double),
        b'F' => Some(Tag::Float),
        b'I' => Some(Tag::Int),
        b'J' => Some(Tag::Long),
        b'S' => Some(Tag::Short),
        b'Z' => Some(Tag::Boolean),
        b'L' => Some(Tag::Object),
        b'[' => Some(Tag::Array),
        b's' => Some(Tag::String),
        b't' => Some(Tag::Thread),
        b'g' => Some(Tag::ThreadGroup),
        b'l' => Some(Tag::ClassLoader),
        b'c' => Some(Tag::ClassObject),
        _ => None,
    }
}

fn read_tag(reader: &mut Reader<'_>) -> Result<Tag, RowFault>
    ensures { Tells (λ x. x) (meaning_at region_tag_of reader.old) reader.new result }
{
    let at = reader.at();
    match region_tag(reader.byte()?) {
        Some(tag) => Ok(tag),
        None => Err(bad_tag(at)),
    }
}

fn read_element(tag: Tag, reader: &mut Reader<'_>) -> Result<Value, RowFault>
    ensures { Tells (λ x. x) (element_at tag reader.old) reader.new result }
{
    if tag.is_reference() {
        Ok(reader.reference()?)
    } else {
        Ok(reader.untagged(tag.byte())?)
    }
}

fn read_elements(
    alloc: Global,
    tag: Tag,
    count: u32,
    reader: &mut Reader<'_>,
) -> Result<List<Value>, RowFault>
    ensures { Tells (λ x. x) (times_at count (element_at tag) reader.old) reader.new result }
{
    let mut values = List::new(alloc);
    for _ in 0..count {
        values.push(read_element(tag, reader)?)?;
    }
    Ok(values)
}

#[tactic(auto, unfolding(jdwp_values::specs::Rows::list_at))]
fn read_values(
    alloc: Global,
    tag: Tag,
    limit: Limit,
    reader: &mut Reader<'_>,
) -> Result<List<Value>, RowFault>
    ensures { Tells (λ x. x) (list_at limit (element_at tag) reader.old) reader.new result }
{
    let count = reader.count(limit)?;
    read_elements(alloc, tag, count, reader)
}

/// Reads a region of as many elements as the limit allows: `BadTag` at a tag that no element has.
#[tactic(auto, unfolding(crate::specs::Regions::region_at))]
pub(crate) fn read_region(
    alloc: Global,
    limit: Limit,
    reader: &mut Reader<'_>,
) -> Result<Region, RowFault>
    ensures { Tells (λ x. x) (region_at limit reader.old) reader.new result }
{
    let tag = read_tag(reader)?;
    let values = read_values(alloc, tag, limit, reader)?;
    Ok(Region { tag, values })
}

fn write_element(tag: Tag, value: &Value, writer: &mut Writer) -> Result<(), NoMemory>
    requires { FitsElement tag writer.old.sizes value.now }
    ensures { Writes (spell_element tag writer.old.sizes value.now) writer.old writer.new result }
{
    if tag.is_reference() {
        writer.reference(value)
    } else {
        writer.untagged(value)
    }
}

fn write_elements(tag: Tag, values: &[Value], writer: &mut Writer) -> Result<(), NoMemory>
    requires { FitsList (FitsElement tag writer.old.sizes) values.now }
    ensures { Writes (spell_list (spell_element tag writer.old.sizes) values.now) writer.old writer.new result }
{
    writer.count(values.len() as u32)?;
    for value in values {
        write_element(tag, value, writer)?;
    }
    Ok(())
}

/// Writes a region.
#[tactic(auto, using(jdwp_values::proofs::Appends::appends))]
pub(crate) fn write_region(region: &Region, writer: &mut Writer) -> Result<(), NoMemory>
    requires { FitsList (FitsElement region.now.tag writer.old.sizes) region.now.values }
    ensures { Writes (spell_region writer.old.sizes region.now) writer.old writer.new result }
{
    writer.byte(region.tag.byte())?;
    write_elements(region.tag, region.values.as_slice(), writer)?;
    Ok(())
}
