//! What holds of each reply and of each command.
ghost use Rattle.std.specs.Prelude.{◌≡◌, ℕ, true, false, Some};
ghost use Rattle.jdwp_commands.specs.declared.asked.Replied.{Replied};
ghost use Rattle.std.specs.List.{AllByRecursion};
ghost use Rattle.jdwp_commands.specs.declared.answer.Answer.TheVariants as answers;
ghost use Rattle.jdwp_commands.specs.declared.asked.Replied.TheVariants.{Answer as an_answer, Error as an_error};
ghost use Rattle.jdwp_commands.specs.declared.effect.Effect.{Effect};
ghost use Rattle.jdwp_commands.specs.declared.question.Question.{Question};
ghost use Rattle.jdwp_commands.specs.declared.question.Question.TheVariants as questions;
ghost use Rattle.world_model.specs.declared.rows.WorldClass.{WorldClass};
ghost use Rattle.world_model.specs.declared.world.World.{World};
ghost use Rattle.world_model.specs.Codes.{vm_dead};
ghost use Rattle.world_model.specs.Effects.{applied};
ghost use Rattle.world_model.specs.Kept.{program_of, values_of, puts_values};
ghost use Rattle.world_model.specs.Replies.{reply_of};
ghost use Rattle.world_model.specs.Sound.{IsSound};

/// A target that has ended says so to each question, and does nothing more.
pub fn a_target_that_has_ended_says_so()
    ensures asked { (w : World) (question : Question) → w.dead ≡ true → reply_of w question ≡ an_error vm_dead }
    ensures told { (w : World) (effect : Effect) → w.dead ≡ true → applied w effect ≡ Some (w, an_error vm_dead) }
{}

/// A command that is answered by an error changes nothing.
pub fn what_is_refused_changes_nothing()
    ensures { (w now : World) (effect : Effect) (code : ℕ) → applied w effect ≡ Some (now, an_error code) → now ≡ w }
{}

/// No command changes classes, strings or threads, nor which objects there are.
pub fn the_program_stays()
    ensures { (w now : World) (effect : Effect) (replied : Replied) → applied w effect ≡ Some (now, replied)
        → program_of now ≡ program_of w }
{}

/// No command but those that put a value changes a field, an array or a frame.
pub fn values_stay_unless_one_is_put()
    ensures { (w now : World) (effect : Effect) (replied : Replied) → applied w effect ≡ Some (now, replied)
        → puts_values effect ≡ false → values_of now ≡ values_of w }
{}

/// A world whose rows agree with each other stays such a one, whatever a command makes of it.
pub fn a_sound_world_stays_sound()
    ensures { (w now : World) (effect : Effect) (replied : Replied) → IsSound w
        → applied w effect ≡ Some (now, replied) → IsSound now }
{}

/// Asked for the signature of a class that it lists, a sound world replies the one that it lists for that class: none of
/// its classes is taken for another one, or for the class of all threads, which has the id 0 (JDWP, VirtualMachine
/// command set, AllClasses; JDWP, ReferenceType command set, Signature).
pub fn a_listed_class_has_the_signature_that_is_listed()
    ensures { (w : World) → IsSound w → w.dead ≡ false → AllByRecursion (λ (row : WorldClass).
        reply_of w (questions.Signature row.id) ≡ an_answer (answers.Signature row.signature)) w.classes }
{}
