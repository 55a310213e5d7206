//! What holds of all that may be wanted and of all that may come of a change. Each law is a contract over all of them.
ghost use Rattle.std.specs.Prelude.{◌≡◌, ◌<◌, ◌&&◌, suc, not, nat_lt, length, filter, Some, None, List, ℕ, true, false, Bool};
ghost use Rattle.std.specs.List.{list_any};
ghost use Rattle.std.specs.List.Sorted.{IsStrictlySortedBy};
ghost use Rattle.wish_sets.specs.declared.change.Settled.{Settled};
ghost use Rattle.wish_sets.specs.declared.wish.Wish.{Wish};
ghost use Rattle.wish_sets.specs.declared.wish.Wish.TheVariants as wishes;
ghost use Rattle.wish_sets.specs.Names.{package_name};
ghost use Rattle.jdwp_values.specs.declared.location.Location.{Location};
ghost use Rattle.wish_sets.specs.Counts.{wishers};
ghost use Rattle.wish_sets.specs.Order.{has_wish, is_wish, wish_cmp, wish_rank};
ghost use Rattle.wish_sets.specs.Places.{places};
ghost use Rattle.wish_sets.specs.Tidy.{IsTidy, IsNewSet, changes_left};
ghost use Rattle.wish_sets.specs.Wanted.{Wanted};
ghost use Rattle.wish_sets.specs.Wished.{wished, all_wished, is_watched};
ghost use Rattle.wish_sets.specs.Wishes.{Wishes, EventRequest, clears, sets, next_change, is_outcome, is_installed};
ghost use Rattle.wish_sets.specs.Wishes.{new_wishes, rewished, settled};

/// Whatever is wanted, all that is wished stands in the wished set, and nothing else does: in wish order, each wish
/// once. The starts and ends of threads are wished always. Two wishes are alike only where they are one.
pub fn each_wish_is_wished_once()
    ensures in_order { (wanted : Wanted) → IsStrictlySortedBy wish_cmp (wished wanted) }
    ensures all { (wanted : Wanted) (wish : Wish) → has_wish (wished wanted) wish ≡ has_wish (all_wished wanted) wish }
    ensures starts { (wanted : Wanted) → has_wish (wished wanted) wishes.ThreadStart ≡ true }
    ensures ends { (wanted : Wanted) → has_wish (wished wanted) wishes.ThreadDeath ≡ true }
    ensures one { (a b : Wish) → is_wish a b ≡ true → a ≡ b }
{}

/// A wish but exceptions and steps is wished just where an entry wishes it. A breakpoint is wished by each entry as
/// often as it is bound there.
pub fn each_wish_is_wished_by_its_entries()
    ensures wished { (wanted : Wanted) (wish : Wish) → wish_rank wish < 4
        → has_wish (wished wanted) wish ≡ nat_lt 0 (wishers wish wanted) }
    ensures stops { (wanted : Wanted) (at : Location) → wishers (wishes.Stop at) wanted
        ≡ length (filter (λ place. is_wish (wishes.Stop at) (wishes.Stop place.at)) (places wanted)) }
{}

/// A package is watched, by the path that a signature has, just where its classes are wished as they are prepared.
pub fn a_package_is_watched_where_it_is_wished()
    ensures { (wanted : Wanted) (path : List ℕ)
        → is_watched wanted path ≡ has_wish (wished wanted) (wishes.Watch (package_name path)) }
{}

/// A change of what is wanted keeps just those refusals whose wish is wished still, and what is installed.
pub fn a_refusal_is_kept_while_it_is_wished()
    ensures refused { (wanted : Wanted) (w : Wishes) (wish : Wish) → has_wish (rewished wanted w).refused wish
        ≡ (has_wish (wished wanted) wish && has_wish w.refused wish) }
    ensures installed { (wanted : Wanted) (w : Wishes) → (rewished wanted w).installed ≡ w.installed }
{}

/// What stands is tidy from the beginning, and stays so, whatever is wanted and whatever comes of the next change.
pub fn what_stands_is_tidy()
    ensures begins { IsTidy new_wishes }
    ensures wanted { (wanted : Wanted) (w : Wishes) → IsTidy w → IsTidy (rewished wanted w) }
    ensures settled { (outcome : Settled) (w : Wishes) → IsTidy w → IsTidy (settled outcome w) }
{}

/// A Set is of a wish that is wished, and neither installed nor refused. A Clear is of a request that is installed and
/// not wished.
pub fn the_next_change_is_new()
    ensures set { (w : Wishes) (wish : Wish) → next_change w ≡ Some (sets wish) → IsNewSet w wish }
    ensures clear { (w : Wishes) (r : EventRequest) → next_change w ≡ Some (clears r)
        → has_wish (wished w.wanted) r.wish ≡ false }
    ensures installed { (w : Wishes) (r : EventRequest) → next_change w ≡ Some (clears r)
        → (test : EventRequest → Bool) → test r ≡ true → list_any test w.installed ≡ true }
{}

/// Each outcome of the next change leaves one change less. None is left just where what is installed is what is wished
/// less what was refused.
pub fn changes_lead_to_what_is_wished()
    ensures less { (outcome : Settled) (w : Wishes) → IsTidy w → is_outcome (next_change w) outcome ≡ true
        → changes_left w ≡ suc (changes_left (settled outcome w)) }
    ensures rest { (w : Wishes) → IsTidy w → next_change w ≡ None → (wish : Wish)
        → is_installed w.installed wish ≡ (has_wish (wished w.wanted) wish && not (has_wish w.refused wish)) }
    ensures none { (w : Wishes) → ((wish : Wish) → is_installed w.installed wish
        ≡ (has_wish (wished w.wanted) wish && not (has_wish w.refused wish))) → next_change w ≡ None }
{}
