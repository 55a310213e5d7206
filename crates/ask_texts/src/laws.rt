//! What the definitions of these texts come to. Each law is the contract of a function that does nothing.
ghost use Rattle.std.specs.Prelude.{◌≡◌, ◌≤◌, List, Ok, length};
ghost use Rattle.std.specs.List.{AllByRecursion};
ghost use Rattle.tap_model.specs.declared.ask.Ask.{Ask};
ghost use Rattle.ask_texts.specs.Reading.{most_asks, reading_of};
ghost use Rattle.ask_texts.specs.Sayable.{IsSayable};
ghost use Rattle.ask_texts.specs.Texts.{asks_text};

/// The text of a file of questions is read as these questions, where there are 65,536 at most, and their numbers are of
/// their types: an id has 64 bits, an integer 32, and a byte 8.
pub fn asks_are_read_as_they_are_printed()
    ensures { (asks : List Ask) → length asks ≤ most_asks → AllByRecursion (λ ask. IsSayable ask.question) asks
        → reading_of (asks_text asks) ≡ Ok asks }
{}
