//! The innermost frame of a thread (JDWP, ThreadReference command set, Frames).
ghost use Rattle.std.specs.Prelude.{◌≡◌, IfOk, pos};
ghost use Rattle.jdwp_commands.specs.declared.question.Question.TheVariants as questions;
ghost use Rattle.machine_model.specs.Judging.{frame_first, frame_heard, innermost_plan};
ghost use Rattle.machine_model.specs.Plans.{need, tried_of};
ghost use Rattle.look_ups.specs.Needs.{need_of, seen_by};

use crate::failures::failure_by;
use dap_messages::Failure;
use jdwp_commands::{Answer, Frame, Question, Replied};
use jdwp_values::ThreadId;
use look_ups::{Need, Refusal, Sight, tried};
use std::alloc::Global;
use stop_refs::FrameThing;
use wire_core::NoMemory;

// A thread without frames has no names.
fn frame_first(thread: ThreadId, frames: &[Frame]) -> Result<FrameThing, Failure>
    ensures { result ≡ frame_first thread frames.now }
{
    match frames {
        [] => Err(Failure::no_such_name()),
        [frame, ..] => Ok(FrameThing {
            thread,
            frame: frame.id,
            at: frame.at,
        }),
    }
}

fn frame_heard(thread: ThreadId, replied: &Replied) -> Result<FrameThing, Failure>
    ensures { result ≡ frame_heard thread (tried_of (questions.Frames thread (pos 0) (pos 1)) replied.now) }
{
    match replied {
        Replied::Answer(Answer::Frames(frames)) => frame_first(thread, frames.as_slice()),
        Replied::Answer(_) => Err(Failure::no_such_name()),
        Replied::Error(code) => Err(failure_by(Refusal {
            no_thread: *code == 10,
        })),
    }
}

/// The innermost frame of a thread, or why there is none.
#[tactic(auto, unfolding(machine_model::specs::Plans::need))]
pub(crate) fn innermost_need(
    alloc: Global,
    sight: Sight<'_>,
    thread: ThreadId,
) -> Result<Need<Result<FrameThing, Failure>>, NoMemory>
    ensures { IfOk result (λ found. need_of found ≡ need (seen_by sight.entry) (innermost_plan thread)) }
{
    let question = Question::Frames {
        thread,
        start: 0,
        length: 1,
    };
    match tried(alloc, sight.asked, question)? {
        Need::Has(replied) => Ok(Need::Has(frame_heard(thread, replied))),
        Need::Fails { place, code } => Ok(Need::Fails { place, code }),
        Need::Lacks { first, others } => Ok(Need::Lacks { first, others }),
    }
}
