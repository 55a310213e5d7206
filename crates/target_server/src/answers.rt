//! Which answers have a spelling (JDWP, Detailed Command Information).
ghost use Rattle.std.specs.Prelude.{◌≡◌, ◌<◌, ◌^◌, ◌↔◌, IsTrue, Some, MatchResult};
ghost use Rattle.std.specs.List.{AllByRecursion};
ghost use Rattle.jdwp_values.specs.declared.limit.Limit.TheVariants.{Any};
ghost use Rattle.jdwp_values.specs.Tags.{byte_of_tag};
ghost use Rattle.jdwp_commands.specs.Answers.{FitsAnswer};
ghost use Rattle.jdwp_commands.specs.Regions.{region_tag_of, FitsElement, FitsRegion};

use crate::fits::{
    Fitting, id_fits, length_fits, list_fits, location_fits, reference_fits, value_fits,
};
use jdwp_commands::{Answer, ClassStatus, Frame, LoadedClass, Region};
use jdwp_values::{IdSizes, Tag, Value};
use wire_core::NoMemory;

impl Fitting for ClassStatus {
    fn fits(&self, sizes: IdSizes) -> bool {
        id_fits(sizes.class, self.class.0)
    }
}

impl Fitting for LoadedClass {
    fn fits(&self, sizes: IdSizes) -> bool {
        id_fits(sizes.class, self.class.0) && length_fits(self.signature.len())
    }
}

impl Fitting for Frame {
    fn fits(&self, sizes: IdSizes) -> bool {
        id_fits(sizes.frame, self.id.0) && location_fits(self.at, sizes)
    }
}

// Whether values of an array have this tag: all but nothing's.
fn tag_fits(tag: Tag) -> bool
    ensures { IsTrue result ↔ (region_tag_of (byte_of_tag tag) ≡ Some tag) }
{
    match tag {
        Tag::Void => false,
        _ => true,
    }
}

// Whether a value has a spelling in a region of this tag.
fn element_fits(tag: Tag, value: Value, sizes: IdSizes) -> bool
    ensures { IsTrue result ↔ FitsElement tag sizes value }
{
    if tag.is_reference() {
        reference_fits(value, sizes)
    } else {
        value.tag().byte() == tag.byte() && value_fits(value, sizes)
    }
}

// Whether each of some values has one.
fn elements_fit(tag: Tag, values: &[Value], sizes: IdSizes) -> bool
    ensures { IsTrue result ↔ AllByRecursion (FitsElement tag sizes) values.now }
{
    for value in values {
        if !element_fits(tag, *value, sizes) {
            return false;
        }
    }
    true
}

// Whether a region has a spelling.
fn region_fits(region: &Region, sizes: IdSizes) -> bool
    ensures { IsTrue result ↔ FitsRegion Any sizes region.now }
{
    tag_fits(region.tag)
        && length_fits(region.values.len())
        && elements_fit(region.tag, region.values.as_slice(), sizes)
}

// Whether a count has a spelling.
fn count_fits(count: u32) -> bool
    ensures { IsTrue result ↔ (count < 2 ^ 31) }
{
    count < 1 << 31
}

// Whether an answer has a spelling.
fn answer_fits(answer: &Answer, sizes: IdSizes) -> bool
    ensures { IsTrue result ↔ FitsAnswer sizes answer.now }
{
    match answer {
        Answer::ClassesBySignature(classes) => list_fits(classes.as_slice(), sizes),
        Answer::AllClasses(classes) => list_fits(classes.as_slice(), sizes),
        Answer::AllThreads(threads) => list_fits(threads.as_slice(), sizes),
        Answer::Signature(text) => length_fits(text.len()),
        Answer::Fields(fields) => list_fits(fields.as_slice(), sizes),
        Answer::Methods(methods) => list_fits(methods.as_slice(), sizes),
        Answer::SourceFile(text) => length_fits(text.len()),
        Answer::Superclass(class) => id_fits(sizes.class, class.0),
        Answer::LineTable(table) => list_fits(table.lines.as_slice(), sizes),
        Answer::VariableTable { variables, .. } => list_fits(variables.as_slice(), sizes),
        Answer::ObjectType { class, .. } => id_fits(sizes.class, class.0),
        Answer::GetFields(values) => list_fits(values.as_slice(), sizes),
        Answer::StringValue(text) => length_fits(text.len()),
        Answer::ThreadName(text) => length_fits(text.len()),
        Answer::Frames(frames) => list_fits(frames.as_slice(), sizes),
        Answer::FrameCount(count) => count_fits(*count),
        Answer::ArrayLength(length) => count_fits(*length),
        Answer::GetElements(region) => region_fits(region, sizes),
        Answer::GetSlots(values) => list_fits(values.as_slice(), sizes),
        Answer::ThisObject(object) => reference_fits(*object, sizes),
        _ => true,
    }
}

/// An answer is spelled. It takes no memory: `NoMemory` comes just where it has no spelling.
pub(crate) fn fit_answer(answer: &Answer, sizes: IdSizes) -> Result<(), NoMemory>
    ensures { MatchResult result (λ _. FitsAnswer sizes answer.now) (λ _. ¬ FitsAnswer sizes answer.now) }
{
    if !answer_fits(answer, sizes) {
        return Err(NoMemory);
    }
    Ok(())
}
