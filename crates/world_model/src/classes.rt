//! What a world says of its classes.
ghost use Rattle.std.specs.Prelude.{◌≡◌, ◌==◌, bytes_eq, codes, option_copied, IfOk, map};
ghost use Rattle.std.specs.Result.{result_map_both};
ghost use Rattle.world_model.specs.Classes.{class_in, has_class, status_of, loaded_class, class_status, classes_of};
ghost use Rattle.world_model.specs.Classes.{tag_in};
ghost use Rattle.world_model.specs.Classes.{signature_in, source_in, above_in, method_in, method_at, is_native};

use crate::codes::{ABSENT_INFORMATION, INVALID_CLASS, NOT_IMPLEMENTED};
use crate::rows::{WorldClass, WorldMethod};
use crate::world::World;
use jdwp_commands::{ClassStatus, LoadedClass};
use jdwp_values::{ClassId, MethodId, TypeTag};
use std::alloc::Global;
use wire_core::{Blob, List, NoMemory};

// The signature of the class of all threads.
const THREADS: &[u8] = b"Ljava/lang/Thread;";

/// The class with an id, if it is there.
pub(crate) fn class_in(world: &World, class: ClassId) -> Option<&WorldClass>
    ensures { option_copied result ≡ class_in world.now class }
{
    world
        .classes
        .as_slice()
        .iter()
        .find(|row| row.id.0 == class.0)
}

/// Whether a class is there.
pub(crate) fn has_class(world: &World, class: ClassId) -> bool
    ensures { result ≡ has_class world.now class }
{
    class_in(world, class).is_some()
}

// The status of a class (JDWP, Constants, ClassStatus).
fn status_of(row: &WorldClass) -> i32
    ensures { result ≡ status_of row.now }
{
    if row.prepared { 2 } else { 0 }
}

// A class in the list of all classes.
fn loaded_class(alloc: Global, row: &WorldClass) -> Result<LoadedClass, NoMemory>
    ensures { IfOk result (λ listed. listed ≡ loaded_class row.now) }
{
    Ok(LoadedClass {
        tag: row.tag,
        class: row.id,
        signature: Blob::from_slice(alloc, row.signature.as_slice())?,
        status: status_of(row),
    })
}

/// All classes, in their order (JDWP, VirtualMachine command set, AllClasses).
pub(crate) fn all_classes(alloc: Global, world: &World) -> Result<List<LoadedClass>, NoMemory>
    ensures { IfOk result (λ listed. listed ≡ map loaded_class world.now.classes) }
{
    let mut listed = List::new(alloc);
    let rows = world.classes.as_slice();
    for row in rows {
        listed.push(loaded_class(alloc, row)?)?;
    }
    Ok(listed)
}

// A class in a list of the classes of one signature.
fn class_status(row: &WorldClass) -> ClassStatus
    ensures { result ≡ class_status row.now }
{
    ClassStatus {
        tag: row.tag,
        class: row.id,
        status: status_of(row),
    }
}

/// The classes that have a signature (JDWP, VirtualMachine command set, ClassesBySignature).
pub(crate) fn classes_of(
    alloc: Global,
    world: &World,
    signature: &[u8],
) -> Result<List<ClassStatus>, NoMemory>
    ensures { IfOk result (λ listed. listed ≡ classes_of world.now signature.now) }
{
    let mut listed = List::new(alloc);
    let rows = world.classes.as_slice();
    for row in rows {
        if row.signature.as_slice() == signature {
            listed.push(class_status(row))?;
        }
    }
    Ok(listed)
}

/// What a class is; nothing where it isn't there.
pub(crate) fn tag_in(world: &World, class: ClassId) -> TypeTag
    ensures { result ≡ tag_in world.now class }
{
    match class_in(world, class) {
        Some(row) => row.tag,
        None => TypeTag::Nothing,
    }
}

/// The signature of a class (JDWP, ReferenceType command set, Signature).
pub(crate) fn signature_in(world: &World, class: ClassId) -> Result<&[u8], u16>
    ensures { result_map_both (λ signature. signature.now) (λ code. code) result ≡ signature_in world.now class }
{
    if class.0 == 0 {
        return Ok(THREADS);
    }
    match class_in(world, class) {
        Some(row) => Ok(row.signature.as_slice()),
        None => Err(INVALID_CLASS),
    }
}

/// The name of a class's source file (JDWP, ReferenceType command set, SourceFile).
pub(crate) fn source_in(world: &World, class: ClassId) -> Result<&[u8], u16>
    ensures { result_map_both (λ source. source.now) (λ code. code) result ≡ source_in world.now class }
{
    match class_in(world, class) {
        Some(row) => match &row.source {
            Some(source) => Ok(source.as_slice()),
            None => Err(ABSENT_INFORMATION),
        },
        None => Err(INVALID_CLASS),
    }
}

/// The class that a class extends (JDWP, ClassType command set, Superclass).
pub(crate) fn above_in(world: &World, class: ClassId) -> Result<ClassId, u16>
    ensures { result ≡ above_in world.now class }
{
    if class.0 == 0 {
        return Ok(class);
    }
    match class_in(world, class) {
        Some(row) => Ok(row.above),
        None => Err(INVALID_CLASS),
    }
}

/// The method of a class with an id, if it is there.
pub(crate) fn method_in(world: &World, class: ClassId, method: MethodId) -> Option<&WorldMethod>
    ensures { option_copied result ≡ method_in world.now class method }
{
    world.methods.as_slice().iter().find(|row| row.class.0 == class.0
        && row.method.id.0 == method.0)
}

/// The same, or why it isn't there.
pub(crate) fn method_at(
    world: &World,
    class: ClassId,
    method: MethodId,
) -> Result<&WorldMethod, u16>
    ensures { result_map_both (λ row. row.now) (λ code. code) result ≡ method_at world.now class method }
{
    if !has_class(world, class) {
        return Err(INVALID_CLASS);
    }
    match method_in(world, class, method) {
        Some(row) => Ok(row),
        None => Err(NOT_IMPLEMENTED),
    }
}

/// Whether a method is native (JDWP, Method command set, LineTable, start).
pub(crate) fn is_native(row: &WorldMethod) -> bool
    ensures { result ≡ is_native row.now }
{
    row.start < 0
}
