//! What holds of each move of a target's program.
ghost use Rattle.std.specs.Prelude.{◌≡◌, ◌<◌, true, false, Option, Ok, Err};
ghost use Rattle.std.specs.List.{AllByRecursion};
ghost use Rattle.jdwp_events.specs.declared.composite.Composite.{Composite};
ghost use Rattle.jdwp_values.specs.declared.id.ClassId.{ClassId};
ghost use Rattle.world_model.specs.declared.moves.Move.{Move};
ghost use Rattle.world_model.specs.declared.moves.MoveTrouble.TheVariants.{Ended, Held};
ghost use Rattle.world_model.specs.declared.rows.Installed.{Installed};
ghost use Rattle.world_model.specs.declared.world.World.{World};
ghost use Rattle.world_model.specs.Emitting.{watches};
ghost use Rattle.world_model.specs.MoveFacts.{facts_of, requested_of, is_prepared, tells_prepared};
ghost use Rattle.world_model.specs.Moving.{count_behind, moved};
ghost use Rattle.world_model.specs.Sound.{IsSound};

/// Neither a target that has ended nor one whose threads are suspended makes a move: no frame, object or thread changes
/// there but by a command.
pub fn a_suspended_target_makes_no_move()
    ensures ended { (w : World) (next : Move) → w.dead ≡ true → moved w next ≡ Err Ended }
    ensures held { (w : World) (next : Move) → w.dead ≡ false → 0 < w.count → moved w next ≡ Err Held }
{}

/// No move changes what is said of classes but that they are prepared, nor an event request.
pub fn classes_and_requests_stay()
    ensures facts { (w now : World) (next : Move) (told : Option Composite) → moved w next ≡ Ok (now, told)
        → facts_of now ≡ facts_of w }
    ensures requests { (w now : World) (next : Move) (told : Option Composite) → moved w next ≡ Ok (now, told)
        → requested_of now ≡ requested_of w }
{}

/// A move suspends all threads where its events say so, and not else.
pub fn a_move_suspends_as_its_events_say()
    ensures { (w now : World) (next : Move) (told : Option Composite) → moved w next ≡ Ok (now, told)
        → now.count ≡ count_behind 0 told }
{}

/// A class is prepared only with an event for each request that watches it.
pub fn a_watched_class_is_prepared_with_its_event()
    ensures { (w now : World) (next : Move) (told : Option Composite) (class : ClassId)
        → moved w next ≡ Ok (now, told) → is_prepared w class ≡ false → is_prepared now class ≡ true
        → AllByRecursion (λ (request : Installed). watches w class request ≡ true
        → tells_prepared told request.request class ≡ true) w.requests }
{}

/// A world whose rows agree with each other stays such a one behind each move.
pub fn a_sound_world_stays_sound_as_it_moves()
    ensures { (w now : World) (next : Move) (told : Option Composite) → IsSound w → moved w next ≡ Ok (now, told)
        → IsSound now }
{}
