//! The sizes of ids that commands and bodies are spelled with.
ghost use Rattle.std.specs.Prelude.{◌≡◌, option_map, IfOk};
ghost use Rattle.machine_model.specs.Replying.{SizesFor, sizes_of};
ghost use Rattle.session_facts.specs.Sizes.{sizes_seen};

use jdwp_values::IdSizes;
use session_facts::SizesRead;
use wire_core::NoMemory;

/// The sizes that the target said. Such as ids don't have end the session where they are said, so that none are here.
pub fn known(sizes: SizesRead) -> Result<IdSizes, NoMemory>
    ensures { IfOk result (λ used. sizes_seen sizes ≡ sizes_of used) }
{
    match IdSizes::new([
        sizes.field,
        sizes.method,
        sizes.object,
        sizes.class,
        sizes.frame,
    ]) {
        Ok(used) => Ok(used),
        Err(_) => Err(NoMemory),
    }
}

fn eights() -> IdSizes {
    IdSizes {
        field: 8,
        method: 8,
        object: 8,
        class: 8,
        frame: 8,
    }
}

/// Sizes of ids that serve: the target's, once they are known; before that any do (JDWP, VirtualMachine command set,
/// IDSizes).
#[tactic(auto, using(crate::proofs::HearLaws::any_serve, crate::proofs::HearLaws::known_serve))]
pub fn serving(sizes: Option<SizesRead>) -> Result<IdSizes, NoMemory>
    ensures { IfOk result (λ used. SizesFor (option_map sizes_seen sizes) used) }
{
    match sizes {
        None => Ok(eights()),
        Some(sizes) => known(sizes),
    }
}
