//! What the definitions of commands and answers come to.

ghost use Rattle.std.specs.Prelude.{◌≡◌, ℕ, List, Ok, Some};
ghost use Rattle.jdwp_values.specs.Bytes.{IsBytes};
ghost use Rattle.jdwp_values.specs.declared.sizes.IdSizes.{IdSizes};
ghost use Rattle.jdwp_commands.specs.declared.answer.Answer.{Answer};
ghost use Rattle.jdwp_commands.specs.declared.asked.Asked.{Asked};
ghost use Rattle.jdwp_commands.specs.declared.kind.CommandKind.{CommandKind};
ghost use Rattle.jdwp_commands.specs.Answers.{FitsAnswer, InRangeAnswer, IsAnswerTo, answer_at, spell_answer};
ghost use Rattle.jdwp_commands.specs.Commands.{kind_of, number_of};
ghost use Rattle.jdwp_commands.specs.Kinds.{numbers, kind_of_numbers};

/// Each command is found by its numbers, and what is found by numbers has them: so no two commands have the same.
pub fn numbers_name_one_command()
    ensures found { (asked : Asked) → kind_of_numbers (number_of asked).0 (number_of asked).1 ≡ Some (kind_of asked) }
    ensures back { (set command : ℕ) (kind : CommandKind) → kind_of_numbers set command ≡ Some kind
        → numbers kind ≡ (set, command) }
{}

/// What answers a command has a spelling.
pub fn an_answer_has_a_spelling()
    ensures { (sizes : IdSizes) (asked : Asked) (answer : Answer) → IsAnswerTo sizes asked answer
        → FitsAnswer sizes answer }
{}

/// A body is read as an answer exactly where it spells one: what is read answers the command, and is spelled so; and
/// what is spelled so is read. So a fault is told exactly where the body spells no answer to the command.
pub fn answers_are_read_as_they_are_spelled()
    ensures found { (sizes : IdSizes) (asked : Asked) (body : List ℕ) (answer : Answer) → IsBytes body
        → answer_at sizes asked body ≡ Ok answer
        → IsAnswerTo sizes asked answer × (body ≡ spell_answer sizes answer) }
    ensures back { (sizes : IdSizes) (asked : Asked) (answer : Answer) → IsAnswerTo sizes asked answer
        → InRangeAnswer answer → answer_at sizes asked (spell_answer sizes answer) ≡ Ok answer }
{}
