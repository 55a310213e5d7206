//! How numbers go, in words of a whole session. Each law is a contract over all of them.
ghost use Rattle.std.specs.Prelude.{◌≡◌, ◌+◌, ◌<◌, ◌≤◌, ℕ, ◌↔◌, true, List, ◌∷◌, length, Ok, Err};
ghost use Rattle.stop_refs.specs.declared.thing.Thing.{Thing};
ghost use Rattle.stop_refs.specs.Things.{same_thing};
ghost use Rattle.stop_refs.specs.Numbers.{look, thing_with, next_in};
ghost use Rattle.stop_refs.specs.Sessions.{told, past_of, Gave};

use crate::fault::RefFault;

/// Two things are one just where they are of one kind and all that they hold is the same.
pub fn things_are_one_where_all_that_they_hold_is()
    ensures { (a b : Thing) → (same_thing a b ≡ true) ↔ (a ≡ b) }
{}

/// A number is given to one thing in one stop, and never again to another or in another; a thing keeps its number
/// within its stop; and numbers are given without a gap, from the first on.
pub fn a_number_is_given_to_one_thing()
    ensures once { (start stop other number : ℕ) (stops : List (List Thing)) (thing another : Thing)
        → Gave start stops stop number thing → Gave start stops other number another
        → (stop ≡ other) × (thing ≡ another) }
    ensures kept { (start stop number other : ℕ) (stops : List (List Thing)) (thing : Thing)
        → Gave start stops stop number thing → Gave start stops stop other thing → number ≡ other }
    ensures no_gap { (start number : ℕ) (stops : List (List Thing))
        → ((stop : ℕ) × (thing : Thing) × Gave start stops stop number thing)
        ↔ ((start ≤ number) × (number < (past_of start stops).next)) }
{}

/// At a stop a number is known just where it was given in this stop, and stands for what it was given to; it is stale
/// just where it was given in a stop before it, and unknown just where it was never given.
pub fn at_a_stop_its_own_numbers_are_known()
    ensures known { (start number : ℕ) (now : List Thing) (before : List (List Thing)) (thing : Thing)
        → (thing_with number (told now (past_of start before)) ≡ Ok thing)
        ↔ Gave start (now ∷ before) (length before + 1) number thing }
    ensures stale { (start number stop : ℕ) (now : List Thing) (before : List (List Thing))
        → (thing_with number (told now (past_of start before)) ≡ Err (RefFault.Stale stop))
        ↔ ((thing : Thing) × Gave start before stop number thing) }
    ensures unknown { (start number : ℕ) (now : List Thing) (before : List (List Thing))
        → let stop = told now (past_of start before) in
        (thing_with number stop ≡ Err (RefFault.Unknown (next_in stop)))
        ↔ ((stop : ℕ) (thing : Thing) → ¬ Gave start (now ∷ before) stop number thing) }
{}

/// While no stop is in hand no number is known: it is stale just where it was given in some stop, and unknown just
/// where it was never given.
pub fn between_stops_each_number_is_stale_or_unknown()
    ensures stale { (start number stop : ℕ) (stops : List (List Thing))
        → (look number (past_of start stops) ≡ RefFault.Stale stop)
        ↔ ((thing : Thing) × Gave start stops stop number thing) }
    ensures unknown { (start number : ℕ) (stops : List (List Thing))
        → (look number (past_of start stops) ≡ RefFault.Unknown (past_of start stops).next)
        ↔ ((stop : ℕ) (thing : Thing) → ¬ Gave start stops stop number thing) }
{}
