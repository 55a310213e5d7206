//! What is held, in words of a whole session. The law is a contract over all histories.
ghost use Rattle.std.specs.Prelude.{◌≡◌, ◌+◌, List, count_by};
ghost use Rattle.suspend_ledger.specs.Suspensions.{Happening, after, suspends, resumes, AllHeld};

/// Whatever happened, in whatever order: where each Resume undid a suspension that was held, what is held, with the
/// Resumes sent, is the composites under `All` with the Suspends.
pub fn held_is_suspensions_less_resumes()
    ensures { (history : List Happening) → AllHeld history
        → after history + count_by resumes history ≡ count_by suspends history }
{}
