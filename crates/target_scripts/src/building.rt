use script_rows::Script;
use script_text::ScriptFault;
use wire_core::NoMemory;
use world_model::World;

/// A script so far: the place of its last row's kind among all kinds, the line that its first class stands in, what its
/// rows say, and the world behind all moves of its program.
#[derive(Drop)]
pub struct Building {
    pub last: u8,
    pub first_class: u32,
    pub script: Script,
    pub running: World,
}

/// Why a row does not follow those before it: memory was refused, or the first fault that it has.
#[derive(Clone, Copy, Debug, PartialEq, Eq)]
pub enum RowTrouble {
    NoMemory,
    Fault(ScriptFault),
}

impl From<NoMemory> for RowTrouble {
    ghost use Rattle.std.specs.Prelude.{◌≡◌};
    ghost use Rattle.target_scripts.specs.declared.building.RowTrouble.TheVariants.{NoMemory as refused_memory};

    ghost from_gives = { λ _ trouble. trouble ≡ refused_memory };

    fn from(_refused: NoMemory) -> RowTrouble {
        RowTrouble::NoMemory
    }
}
