//! The methods, the fields and the variables of classes.
ghost use Rattle.std.specs.Prelude.{◌≡◌, IfOk};
ghost use Rattle.world_model.specs.Classes.{fields_of, methods_of, variables_of};

use crate::world::World;
use jdwp_values::{ClassId, Field, Method, MethodId, Variable};
use std::alloc::Global;
use wire_core::{Blob, List, NoMemory};

// A copy of a field.
fn field_copy(alloc: Global, field: &Field) -> Result<Field, NoMemory>
    ensures { IfOk result (λ copy. copy ≡ field.now) }
{
    Ok(Field {
        id: field.id,
        name: Blob::from_slice(alloc, field.name.as_slice())?,
        signature: Blob::from_slice(alloc, field.signature.as_slice())?,
        bits: field.bits,
    })
}

/// The fields of a class itself, in their order.
pub(crate) fn fields_of(
    alloc: Global,
    world: &World,
    class: ClassId,
) -> Result<List<Field>, NoMemory>
    ensures { IfOk result (λ fields. fields ≡ fields_of world.now class) }
{
    let mut fields = List::new(alloc);
    let rows = world.fields.as_slice();
    for row in rows {
        if row.class.0 == class.0 {
            fields.push(field_copy(alloc, &row.field)?)?;
        }
    }
    Ok(fields)
}

// A copy of a method.
fn method_copy(alloc: Global, method: &Method) -> Result<Method, NoMemory>
    ensures { IfOk result (λ copy. copy ≡ method.now) }
{
    Ok(Method {
        id: method.id,
        name: Blob::from_slice(alloc, method.name.as_slice())?,
        signature: Blob::from_slice(alloc, method.signature.as_slice())?,
        bits: method.bits,
    })
}

/// The methods of a class itself, in their order.
pub(crate) fn methods_of(
    alloc: Global,
    world: &World,
    class: ClassId,
) -> Result<List<Method>, NoMemory>
    ensures { IfOk result (λ methods. methods ≡ methods_of world.now class) }
{
    let mut methods = List::new(alloc);
    let rows = world.methods.as_slice();
    for row in rows {
        if row.class.0 == class.0 {
            methods.push(method_copy(alloc, &row.method)?)?;
        }
    }
    Ok(methods)
}

// A copy of a variable.
fn variable_copy(alloc: Global, variable: &Variable) -> Result<Variable, NoMemory>
    ensures { IfOk result (λ copy. copy ≡ variable.now) }
{
    Ok(Variable {
        index: variable.index,
        name: Blob::from_slice(alloc, variable.name.as_slice())?,
        signature: Blob::from_slice(alloc, variable.signature.as_slice())?,
        length: variable.length,
        slot: variable.slot,
    })
}

/// The variables of a method, in their order.
pub(crate) fn variables_of(
    alloc: Global,
    world: &World,
    class: ClassId,
    method: MethodId,
) -> Result<List<Variable>, NoMemory>
    ensures { IfOk result (λ variables. variables ≡ variables_of world.now class method) }
{
    let mut variables = List::new(alloc);
    let rows = world.variables.as_slice();
    for row in rows {
        if row.class.0 == class.0 && row.method.0 == method.0 {
            variables.push(variable_copy(alloc, &row.variable)?)?;
        }
    }
    Ok(variables)
}
