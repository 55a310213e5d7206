//! What holds of each scripted target, whatever is called in whatever order. Each law is a contract over all targets.
ghost use Rattle.std.specs.Prelude.{◌≡◌, ℕ, ◌<◌, ◌⊎◌, true, List, [], Option, None};
ghost use Rattle.jdwp_events.specs.declared.kind.Policy.{Policy};
ghost use Rattle.jdwp_values.specs.declared.id.ThreadId.{ThreadId};
ghost use Rattle.world_model.specs.declared.moves.Move.{Move};
ghost use Rattle.world_model.specs.declared.world.World.{World};
ghost use Rattle.world_model.specs.Kept.{program_of, values_of};
ghost use Rattle.world_model.specs.Sound.{IsSound};
ghost use Rattle.target_server.specs.Courses.{Goes, Course, fresh, PutsOne, IsStuck};
ghost use Rattle.target_server.specs.Hearing.{TargetState};
ghost use Rattle.target_server.specs.Joints.{Joint, joint_of, next_move, Moves};

/// Whatever is fed, served, moved and read, in any order: the target's joint goes by its moves alone.
pub fn calls_are_moves()
    ensures { (world : World) (program : List Move) (begin : Option (ThreadId × Policy)) (now : TargetState)
        → Course (fresh world program begin) now → Goes (joint_of world program begin) now.joint }
{}

/// While all threads are suspended, no class, object or thread changes, and no value but by a command that puts one.
pub fn a_suspended_target_stays_as_it_is()
    ensures program { (old new : Joint) → Moves old new → 0 < old.world.count
        → program_of new.world ≡ program_of old.world }
    ensures values { (old new : Joint) → Moves old new → 0 < old.world.count
        → (values_of new.world ≡ values_of old.world) ⊎ PutsOne old new }
{}

/// A target whose world is sound stays such a one.
pub fn a_sound_target_stays_sound()
    ensures { (old new : Joint) → Goes old new → IsSound old.world → IsSound new.world }
{}

/// A program waits where its target has ended, while all threads are suspended, and at its end; and else only where its
/// next move can't be made in this world.
pub fn what_keeps_a_program_waiting()
    ensures ended { (w : World) (program : List Move) → w.dead ≡ true → next_move w program ≡ None }
    ensures held { (w : World) (program : List Move) → 0 < w.count → next_move w program ≡ None }
    ensures end { (w : World) → next_move w [] ≡ None }
    ensures only { (w : World) (program : List Move) → next_move w program ≡ None
        → (w.dead ≡ true) ⊎ ((0 < w.count) ⊎ ((program ≡ []) ⊎ IsStuck w program)) }
{}
