//! Which rows may follow those before them.
ghost use Rattle.std.specs.Prelude.{◌≡◌};
ghost use Rattle.target_scripts.specs.Judging.{rank, is_twice, may_follow, limits_fit, row_fits, row_is_new, row_is_known, id_fault};
ghost use Rattle.target_scripts.specs.Judging.{fault_of};
ghost use Rattle.target_scripts.specs.Judging.{array_stands, put_stands, frame_stands, may_begin, move_stands};

use crate::building::Building;
use jdwp_events::Policy;
use jdwp_values::ObjectId;
use script_rows::{Row, Script};
use script_text::ScriptFault;
use script_worlds::{
    array_fits, array_is_known, class_fits, field_fits, field_value_fits, frame_fits,
    frame_is_known, has_elements, has_room, is_class, is_field, is_for_field, is_frame, is_method,
    is_object, is_thread, method_fits, move_fits, move_is_known, move_is_new, move_is_of_kind,
    object_fits, put_is_known, string_fits, thread_fits, variable_fits,
};
use world_model::{Move, Put, World, WorldArray, WorldFrame};

/// The place of a row's kind among all kinds, in the order in which they stand.
pub(crate) fn rank(row: &Row) -> u8
    ensures { result ≡ rank row.now }
{
    match row {
        Row::Head { .. } => 0,
        Row::Sizes(_) => 0,
        Row::Limits { .. } => 1,
        Row::Class(_) => 2,
        Row::Method(_) => 3,
        Row::Variable(_) => 4,
        Row::Field(_) => 5,
        Row::Object(_) => 6,
        Row::Array(_) => 7,
        Row::Text(_) => 8,
        Row::Put(_) => 9,
        Row::Thread(_) => 10,
        Row::Frame(_) => 11,
        Row::Begin(_) => 12,
        Row::Move(_) => 13,
        Row::Turn(_) => 14,
        Row::End => 15,
    }
}

// Whether a kind of which a script has one row at most would stand twice.
fn is_twice(last: u8, next: u8) -> bool
    ensures { result ≡ is_twice last next }
{
    last == next && (next == 1 || next == 12)
}

// Whether a row of one kind may follow one of another.
fn may_follow(last: u8, next: u8) -> bool
    ensures { result ≡ may_follow last next }
{
    (0 < next && last <= next) && !is_twice(last, next)
}

// Whether an array fits, and has values of its elements' kind.
#[tactic(auto, unfolding(crate::specs::Judging::array_stands))]
fn array_stands(world: &World, row: &WorldArray) -> bool
    ensures { result ≡ array_stands world.now row.now }
{
    array_fits(world.sizes, row) && has_elements(world, row)
}

// Whether what is put to a field fits, and is of the field's kind.
#[tactic(auto, unfolding(crate::specs::Judging::put_stands))]
fn put_stands(world: &World, row: &Put) -> bool
    ensures { result ≡ put_stands world.now row.now }
{
    field_value_fits(world.sizes, row.object, row.field, &row.value)
        && is_for_field(world, row.object, row.field, &row.value)
}

// Whether a frame fits, and its thread has room for it.
#[tactic(auto, unfolding(crate::specs::Judging::frame_stands))]
fn frame_stands(world: &World, row: &WorldFrame) -> bool
    ensures { result ≡ frame_stands world.now row.now }
{
    frame_fits(world.sizes, row) && has_room(world, row.thread)
}

// Whether a move fits, and what it stores is of its field's kind.
#[tactic(auto, unfolding(crate::specs::Judging::move_stands))]
fn move_stands(world: &World, row: &Move) -> bool
    ensures { result ≡ move_stands world.now row.now }
{
    move_fits(world.sizes, row) && move_is_of_kind(world, row)
}

// Whether a start may have this policy.
fn may_begin(policy: Policy) -> bool
    ensures { result ≡ may_begin policy }
{
    match policy {
        Policy::NoThread => true,
        Policy::EventThread => false,
        Policy::All => true,
    }
}

// Whether a session can be served under limits.
fn limits_fit(turns: u64, quiet: u64, waiting: u32) -> bool
    ensures { result ≡ limits_fit turns quiet waiting }
{
    (0 < turns && turns <= 1_099_511_627_776) && (0 < quiet && 0 < waiting)
}

// Whether the ids of a row fit their sizes, its values are of the kinds that were given, and a start has a policy that
// it may have.
#[tactic(auto, unfolding(crate::specs::Judging::row_fits))]
fn row_fits(world: &World, row: &Row) -> bool
    ensures { result ≡ row_fits world.now row.now }
{
    let sizes = world.sizes;
    match row {
        Row::Limits {
            turns,
            quiet,
            waiting,
        } => limits_fit(*turns, *quiet, *waiting),
        Row::Class(row) => class_fits(sizes, row),
        Row::Method(row) => method_fits(sizes, row),
        Row::Variable(row) => variable_fits(sizes, row),
        Row::Field(row) => field_fits(sizes, row),
        Row::Object(row) => object_fits(sizes, row),
        Row::Array(row) => array_stands(world, row),
        Row::Text(row) => string_fits(sizes, row),
        Row::Put(row) => put_stands(world, row),
        Row::Thread(row) => thread_fits(sizes, row.id),
        Row::Frame(row) => frame_stands(world, row),
        Row::Begin(begin) => thread_fits(sizes, begin.thread) && may_begin(begin.policy),
        Row::Move(row) => move_stands(world, row),
        _ => true,
    }
}

// Whether a row gives no id that was given before.
#[tactic(auto, unfolding(crate::specs::Judging::row_is_new))]
fn row_is_new(script: &Script, row: &Row) -> bool
    ensures { result ≡ row_is_new script.now row.now }
{
    let world = &script.world;
    match row {
        Row::Class(row) => !is_class(world, row.id),
        Row::Method(row) => !is_method(world, row.class, row.method.id),
        Row::Field(row) => !is_field(world, row.class, row.field.id),
        Row::Object(row) => !is_object(world, row.id),
        Row::Array(row) => !is_object(world, row.id),
        Row::Text(row) => !is_object(world, row.id),
        Row::Thread(row) => !is_object(world, ObjectId(row.id.0)),
        Row::Frame(row) => !is_frame(world, row.id),
        Row::Move(row) => move_is_new(world, script.program.as_slice(), row),
        _ => true,
    }
}

// Whether a row names ids alone that were given before.
#[tactic(auto, unfolding(crate::specs::Judging::row_is_known))]
fn row_is_known(script: &Script, row: &Row) -> bool
    ensures { result ≡ row_is_known script.now row.now }
{
    let world = &script.world;
    let program = script.program.as_slice();
    match row {
        Row::Method(row) => is_class(world, row.class),
        Row::Variable(row) => is_method(world, row.class, row.method),
        Row::Field(row) => is_class(world, row.class),
        Row::Object(row) => is_class(world, row.class),
        Row::Array(row) => array_is_known(world, program, row),
        Row::Text(row) => is_class(world, row.class),
        Row::Put(row) => put_is_known(world, program, row),
        Row::Frame(row) => frame_is_known(world, program, row),
        Row::Begin(begin) => is_thread(world, begin.thread),
        Row::Move(row) => move_is_known(world, program, row),
        _ => true,
    }
}

// The fault of the ids that a row gives and names.
fn id_fault(script: &Script, row: &Row) -> Option<ScriptFault>
    ensures { result ≡ id_fault script.now row.now }
{
    if !row_is_new(script, row) {
        return Some(ScriptFault::RepeatedId);
    }
    if !row_is_known(script, row) {
        return Some(ScriptFault::UnknownId);
    }
    None
}

/// The first fault of a row behind the sizes of ids, but that of a move that can't be made.
#[tactic(auto, unfolding(crate::specs::Judging::fault_of))]
pub(crate) fn fault_of(building: &Building, row: &Row) -> Option<ScriptFault>
    ensures { result ≡ fault_of building.now row.now }
{
    if !row_fits(&building.script.world, row) {
        return Some(ScriptFault::BadShape);
    }
    if building.last == 15 {
        return Some(ScriptFault::AfterEnd);
    }
    if !may_follow(building.last, rank(row)) {
        return Some(ScriptFault::BadOrder);
    }
    id_fault(&building.script, row)
}
