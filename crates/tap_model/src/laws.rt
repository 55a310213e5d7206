//! What holds of each tap. Each law is the contract of a function that does nothing.
ghost use Rattle.std.specs.Prelude.{◌≡◌, ◌↔◌, ℕ, List, true};
ghost use Rattle.session_endings.specs.declared.ending.Limits.{Limits};
ghost use Rattle.tap_model.specs.Endings.{AreCauses, IsDecided};
ghost use Rattle.tap_model.specs.Laws.{AreGreeted, AreNumbered, AreOwn, AreRead, AreReplies, AreSent, AreTheirs};
ghost use Rattle.tap_model.specs.Laws.{Ascend, IsQuiet, WhileTapping};
ghost use Rattle.tap_model.specs.Names.{Ask, IdSizes, Question};
ghost use Rattle.tap_model.specs.Questions.{IsFit, fitting, is_fit};
ghost use Rattle.tap_model.specs.Rules.{IsStep};
ghost use Rattle.tap_model.specs.States.{TapState};
ghost use Rattle.tap_model.specs.Steps.{Step, step};

/// What a tap says is due, what it hears came, and it ends for what is wrong with that, each by its rule; it waits
/// where nothing is due, and nothing stands at the front of what came.
pub fn steps_are_rules()
    ensures { (asks : List Ask) (s : TapState) → IsStep asks s (step asks s) }
{}

/// Without the tap's own commands and their replies, and with each command and its reply under the debugger's id, what
/// the target is sent are the debugger's commands, in order, but for those that wait; and what the debugger is sent are
/// the target's packets for it, in order, but for those that wait.
pub fn without_the_tap()
    ensures { WhileTapping (λ asks log messages s. AreTheirs messages s) }
{}

/// Each command that the target is sent has the id of its place: 1, 2, and so on to 2^32 - 1, and then 1 again (JDWP,
/// JDWP Packets, id).
pub fn ids_follow_their_rule()
    ensures { WhileTapping (λ asks log messages s. AreNumbered messages) }
{}

/// What goes to each side are the bytes of what is said to it, with nothing between them.
pub fn each_side_is_sent_what_is_said()
    ensures { WhileTapping (λ asks log messages s. AreSent log messages) }
{}

/// The tap's own commands are IDSizes, at most once, and then the questions that have a spelling under the target's
/// sizes of ids and fit a packet, in their order, each at most once; and at most 16 questions have no reply.
pub fn the_taps_own_are_its_questions()
    ensures { WhileTapping (λ asks log messages s. AreOwn asks messages s) }
{}

/// Each side is sent the handshake once, before all else, and the debugger only where both have greeted (JDWP, JDWP
/// Start Up).
pub fn each_side_is_greeted_first()
    ensures { WhileTapping (λ asks log messages s. AreGreeted messages s) }
{}

/// Each question has come to what the reply to its command says; without a reply it is unfit exactly where the sizes of
/// ids are known and it has no spelling under them that fits a packet (JDWP, JDWP Packets, reply packet).
pub fn answers_are_replies()
    ensures { WhileTapping (λ asks log messages s. AreReplies asks messages s) }
{}

/// Where the tap waits, nothing is kept that could be sent.
pub fn the_tap_waits()
    ensures { WhileTapping (λ asks log messages s. step asks s ≡ Step.waits → IsQuiet s) }
{}

/// A tap ends for the causes of the table alone, each ending for its own, and each of them ends it.
pub fn endings_have_their_causes()
    ensures { (limits : Limits) (asks : List Ask) (turns : ℕ) (s : TapState) → AreCauses limits asks turns s }
{}

/// Where several causes could stand, the first one decides.
pub fn the_first_cause_decides()
    ensures { (limits : Limits) (asks : List Ask) (turns : ℕ) (s : TapState) → IsDecided limits asks turns s }
{}

/// A question is fit just where its body has a spelling under the sizes of ids, and fits a packet.
pub fn fit_questions_have_a_spelling()
    ensures { (sizes : IdSizes) (question : Question) → (is_fit sizes question ≡ true) ↔ IsFit sizes question }
{}

/// The questions that are fit stand in their order, each once.
pub fn fit_questions_stand_in_order()
    ensures { (sizes : IdSizes) (asks : List Ask) → Ascend (fitting sizes 0 asks) }
{}

/// The commands of the debugger's and the packets of the target's that are heard are those of all that came from each,
/// behind its handshake, in order and with nothing between them (JDWP, JDWP Start Up; JDWP, JDWP Packets).
pub fn what_is_heard_came()
    ensures { WhileTapping (λ asks log messages s. AreRead log messages s) }
{}
