ghost use Rattle.std.specs.Prelude.{◌≡◌};
ghost use Rattle.jdwp_commands.specs.Answers.{limit_of};
ghost use Rattle.jdwp_commands.specs.Commands.{kind_of};

use crate::answer::Answer;
use crate::effect::Effect;
use crate::kind::CommandKind;
use crate::question::Question;
use jdwp_values::Limit;

/// What a command asks of the target.
#[derive(Debug, Drop)]
pub enum Asked {
    Question(Question),
    Effect(Effect),
}

/// What a reply says: the answer, or the number of an error (JDWP, Error Constants).
#[derive(Debug, Drop)]
pub enum Replied {
    Answer(Answer),
    Error(u16),
}

impl Asked {
    /// Which command it is.
    pub fn kind(&self) -> CommandKind
        ensures { result ≡ kind_of self.now }
    {
        match self {
            Asked::Question(question) => CommandKind::Question(question.kind()),
            Asked::Effect(effect) => CommandKind::Effect(effect.kind()),
        }
    }

    /// How many items the list or the region in its answer may have; an effect's answer has none.
    pub fn limit(&self) -> Limit
        ensures { result ≡ limit_of self.now }
    {
        match self {
            Asked::Question(question) => question.limit(),
            Asked::Effect(_) => Limit::Any,
        }
    }
}
