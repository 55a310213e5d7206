//! How the window goes, in words of lists. Each law is a contract over all windows.
ghost use Rattle.std.specs.Prelude.{◌≡◌, ℕ, List, Some};
ghost use Rattle.jdwp_commands.specs.declared.asked.Asked.{Asked};
ghost use Rattle.pending_table.specs.Windows.{Move, after, sends_in, id_of, pending_under, without, LackOne};

/// Whatever was settled between, the next id is that of the count of commands sent so far, also past 2^32 - 2 of them.
pub fn ids_follow_their_rule()
    ensures { (moves : List Move) → id_of (after moves).next ≡ id_of (sends_in moves) }
{}

/// Where a command is pending under an id, settling the id takes just this one out, and the others keep their order.
pub fn just_one_is_settled()
    ensures { (id : ℕ) (asked : Asked) (sent : List (ℕ × Asked)) → pending_under id sent ≡ Some asked
        → LackOne id asked sent (without id sent) }
{}
