//! What holds of a script, row by row. Each law is a contract over all scripts.
ghost use Rattle.std.specs.Prelude.{◌≡◌, ℕ, None, Some, Ok};
ghost use Rattle.jdwp_events.specs.declared.kind.Policy.TheVariants as policies;
ghost use Rattle.jdwp_values.specs.declared.id.ThreadId.{ThreadId};
ghost use Rattle.jdwp_values.specs.declared.sizes.IdSizes.{IdSizes};
ghost use Rattle.script_rows.specs.declared.rows.Row.{Row};
ghost use Rattle.script_rows.specs.declared.rows.Row.TheVariants as rows;
ghost use Rattle.script_text.specs.declared.log.ScriptFault.TheVariants as faults;
ghost use Rattle.script_worlds.specs.Shapes.{thread_fits};
ghost use Rattle.target_scripts.specs.declared.building.Building.{Building};
ghost use Rattle.target_scripts.specs.Adding.{begun, grown};
ghost use Rattle.target_scripts.specs.Chains.{chain_fault};
ghost use Rattle.target_scripts.specs.Fit.{IsSoundSoFar, IsFit};
ghost use Rattle.target_scripts.specs.Judging.{fault_of, row_fits};
ghost use Rattle.world_model.specs.declared.rows.WorldClass.{WorldClass};
ghost use Rattle.world_model.specs.declared.world.World.{World};

/// A script stays sound as rows are added that have no fault.
pub fn a_script_stays_sound_as_it_grows()
    ensures begun { (sizes : IdSizes) → IsSoundSoFar (begun sizes) }
    ensures grown { (old new : Building) (row : Row) → IsSoundSoFar old → grown old row ≡ Ok new → IsSoundSoFar new }
{}

/// The parts of a script whose rows have no fault, and whose chains of classes end, are fit for a target.
pub fn a_script_without_a_fault_is_fit_for_a_target()
    ensures { (b : Building) → IsSoundSoFar b → chain_fault b ≡ None → IsFit b.script }
{}

/// Wherever it stands, a class with the id of null is no row, nor is a start under EVENT_THREAD; one that suspends none
/// or all is, where its thread's id fits (JDWP, Detailed Command Information, common data types, objectID; JDWP, Event
/// command set, Composite, VMStart).
pub fn what_no_target_tells_is_no_row()
    ensures null { (b : Building) (row : WorldClass) → row.id.0 ≡ 0
        → fault_of b (rows.Class row) ≡ Some faults.BadShape }
    ensures one { (b : Building) (thread : ThreadId)
        → fault_of b (rows.Begin (record { thread = thread; policy = policies.EventThread })) ≡ Some faults.BadShape }
    ensures none { (w : World) (thread : ThreadId)
        → row_fits w (rows.Begin (record { thread = thread; policy = policies.NoThread }))
        ≡ thread_fits w.sizes thread }
    ensures all { (w : World) (thread : ThreadId)
        → row_fits w (rows.Begin (record { thread = thread; policy = policies.All })) ≡ thread_fits w.sizes thread }
{}
