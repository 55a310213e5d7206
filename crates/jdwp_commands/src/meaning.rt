//! Bytes that mean something where they stand.

ghost use Rattle.std.specs.Prelude.{◌≡◌};
ghost use Rattle.jdwp_values.specs.declared.fault.RowFault.TheVariants.{Part as a_part};
ghost use Rattle.jdwp_values.specs.declared.fault.ValueFault.TheVariants.{BadTag as a_bad_tag};
ghost use Rattle.jdwp_values.specs.Rows.{Tells};
ghost use Rattle.jdwp_commands.specs.Regions.{meaning_at};
ghost use Rattle.jdwp_events.specs.Kinds.{kind_of_byte, policy_of_byte};

use jdwp_events::{EventKind, Policy};
use jdwp_values::{ReadTrouble, Reader, RowFault, ValueFault};

/// The fault of a byte that means nothing at its place.
pub(crate) fn bad_tag(at: u32) -> RowFault
    ensures { result ≡ a_part (record { fault = a_bad_tag; at = at }) }
{
    RowFault::Part(ReadTrouble {
        fault: ValueFault::BadTag,
        at,
    })
}

/// The byte of an event kind: `BadTag` at another.
pub(crate) fn event_kind(reader: &mut Reader<'_>) -> Result<EventKind, RowFault>
    ensures { Tells (λ x. x) (meaning_at kind_of_byte reader.old) reader.new result }
{
    let at = reader.at();
    match EventKind::from_byte(reader.byte()?) {
        Some(kind) => Ok(kind),
        None => Err(bad_tag(at)),
    }
}

/// The byte of a suspend policy: `BadTag` at another.
pub(crate) fn policy(reader: &mut Reader<'_>) -> Result<Policy, RowFault>
    ensures { Tells (λ x. x) (meaning_at policy_of_byte reader.old) reader.new result }
{
    let at = reader.at();
    match Policy::from_byte(reader.byte()?) {
        Some(policy) => Ok(policy),
        None => Err(bad_tag(at)),
    }
}
