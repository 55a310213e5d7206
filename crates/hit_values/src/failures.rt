//! Why a value can't be had, by what the target replied (JDWP, Error Constants).
ghost use Rattle.std.specs.Prelude.{◌≡◌};
ghost use Rattle.machine_model.specs.Judging.{failure_by};

use dap_messages::Failure;
use look_ups::Refusal;

/// An error as a failure: that of a thread that isn't there, else one without its number, since a target may choose it.
pub(crate) fn failure_by(why: Refusal) -> Failure
    ensures { result ≡ failure_by why }
{
    if why.no_thread {
        Failure::unknown_thread()
    } else {
        Failure::target_error(0)
    }
}
