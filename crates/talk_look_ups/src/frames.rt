//! What `stackTrace` shows of a thread: what is to be asked for it, and what was found.
ghost use Rattle.std.specs.Prelude.{◌≡◌, ◌++◌, pos, Some, IfOk, OnOk, map, option_copied, option_map};
ghost use Rattle.std.specs.List.{flat_map};
ghost use Rattle.machine_model.specs.Facts.{signature_in};
ghost use Rattle.machine_model.specs.Frames.{count_from, count_in, frames_in};
ghost use Rattle.machine_model.specs.Plans.{answer_in};
ghost use Rattle.session_facts.specs.ClassPlanning.{lines_heard};
ghost use Rattle.talk_look_ups.specs.FramePlanning.{counted_in, frame_found, frame_lacking, line_found, listed_in};
ghost use Rattle.talk_look_ups.specs.FramePlanning.{methods_lacking};
ghost use Rattle.talk_look_ups.specs.FramePlanning.{shown_in, signature_heard, signature_lacking, source_lacking};
ghost use Rattle.talk_look_ups.specs.FramePlanning.{stack_in};
ghost use Rattle.talk_look_ups.specs.Planning.{need_of, sight_in};

use crate::class_plans::{add_lines, lack, methods_heard, source_heard};
use crate::frame_names::{ClassHeard, frame_shown, line_at};
use crate::need::{Need, lacks};
use jdwp_commands::{Answer, Frame, Question, Replied};
use jdwp_values::{ClassId, LineTable, Location, MethodId, ThreadId};
use look_ups::{Asked, QuestionKey, as_int};
use machine_model::{Finding, ShownFrame, Want};
use session_facts::{known_signature, line_table_in};
use std::alloc::Global;
use std::collections::VecDeque;
use talk_state::State;
use wire_core::{List, NoMemory};

// So many frames are shown at most.
const MOST_FRAMES: u32 = 10_000;

// The signature of a class in a reply (JDWP, ReferenceType command set, Signature).
fn signature_in(replied: &Replied) -> &[u8]
    ensures { result.now ≡ signature_in (answer_in replied.now) }
{
    match replied {
        Replied::Answer(Answer::Signature(signature)) => signature.as_slice(),
        _ => &[],
    }
}

// The signature of a class, where it was learnt or replied.
fn signature_heard<'a>(
    alloc: Global,
    state: &'a State,
    asked: &'a Asked,
    class: ClassId,
) -> Result<Option<&'a [u8]>, NoMemory>
    ensures { IfOk result (λ signature.
        option_copied signature ≡ signature_heard (sight_in state.now asked.now) class) }
{
    if let Some(signature) = known_signature(&state.classes, class) {
        return Ok(Some(signature.as_slice()));
    }
    let key = QuestionKey::new(alloc, Question::Signature(class))?;
    match asked.find(&key) {
        None => Ok(None),
        Some((_, replied)) => Ok(Some(signature_in(replied))),
    }
}

// The lines of a method, where they were learnt or replied; they may be absent (JDWP, Method command set, LineTable).
fn lines_heard<'a>(
    alloc: Global,
    state: &'a State,
    asked: &'a Asked,
    class: ClassId,
    method: MethodId,
) -> Result<Option<Option<&'a LineTable>>, NoMemory>
    ensures { IfOk result (λ lines.
        option_map option_copied lines ≡ lines_heard (sight_in state.now asked.now) class method) }
{
    if let Some(lines) = state.classes.lines(class, method) {
        return Ok(Some(lines));
    }
    let key = QuestionKey::new(alloc, Question::LineTable { class, method })?;
    match asked.find(&key) {
        None => Ok(None),
        Some((_, replied)) => Ok(Some(line_table_in(replied))),
    }
}

// The line of a location: by a binary search where the lines of its method were learnt, else by a scan of what was
// replied (JDWP, Method command set, LineTable).
fn line_found(
    alloc: Global,
    state: &State,
    asked: &Asked,
    at: Location,
) -> Result<Option<i32>, NoMemory>
    ensures { IfOk result (λ line. line ≡ line_found (sight_in state.now asked.now) at) }
{
    if state.classes.lines(at.class, at.method).is_some() {
        return Ok(state.classes.line_of(at));
    }
    let lines = lines_heard(alloc, state, asked, at.class, at.method)?;
    Ok(line_at(at.index, lines.unwrap_or(None)))
}

fn add_signature(
    alloc: Global,
    state: &State,
    asked: &Asked,
    class: ClassId,
    wants: &mut VecDeque<Want>,
) -> Result<(), NoMemory>
    ensures { OnOk result (wants.new.items
        ≡ wants.old.items ++ signature_lacking (sight_in state.now asked.now) class) }
{
    match signature_heard(alloc, state, asked, class)? {
        None => lack(wants, Question::Signature(class)),
        Some(_) => Ok(()),
    }
}

fn add_source(
    alloc: Global,
    state: &State,
    asked: &Asked,
    class: ClassId,
    wants: &mut VecDeque<Want>,
) -> Result<(), NoMemory>
    ensures { OnOk result (wants.new.items ≡ wants.old.items ++ source_lacking (sight_in state.now asked.now) class) }
{
    match source_heard(alloc, state, asked, class)? {
        None => lack(wants, Question::SourceFile(class)),
        Some(_) => Ok(()),
    }
}

fn add_methods(
    alloc: Global,
    state: &State,
    asked: &Asked,
    class: ClassId,
    wants: &mut VecDeque<Want>,
) -> Result<(), NoMemory>
    ensures { OnOk result (wants.new.items ≡ wants.old.items ++ methods_lacking (sight_in state.now asked.now) class) }
{
    match methods_heard(alloc, state, asked, class)? {
        None => lack(wants, Question::Methods(class)),
        Some(_) => Ok(()),
    }
}

// What a frame lacks, behind what those before it lack.
fn add_lacking(
    alloc: Global,
    state: &State,
    asked: &Asked,
    frame: Frame,
    wants: &mut VecDeque<Want>,
) -> Result<(), NoMemory>
    ensures { OnOk result (wants.new.items ≡ wants.old.items ++ frame_lacking (sight_in state.now asked.now) frame) }
{
    add_signature(alloc, state, asked, frame.at.class, wants)?;
    add_source(alloc, state, asked, frame.at.class, wants)?;
    add_methods(alloc, state, asked, frame.at.class, wants)?;
    add_lines(alloc, state, asked, frame.at.class, frame.at.method, wants)
}

fn lacking_among(
    alloc: Global,
    state: &State,
    asked: &Asked,
    frames: &[Frame],
) -> Result<VecDeque<Want>, NoMemory>
    ensures { IfOk result (λ wants. wants.items
        ≡ flat_map (frame_lacking (sight_in state.now asked.now)) frames.now) }
{
    let mut wants = VecDeque::new(alloc);
    for frame in frames {
        add_lacking(alloc, state, asked, *frame, &mut wants)?;
    }
    Ok(wants)
}

// A frame as it is shown, by what was heard of its class and its method; what wasn't is absent.
fn frame_found(
    alloc: Global,
    state: &State,
    asked: &Asked,
    thread: ThreadId,
    frame: Frame,
) -> Result<ShownFrame, NoMemory>
    ensures { IfOk result (λ shown. shown ≡ frame_found state.now (sight_in state.now asked.now) thread frame) }
{
    let class = frame.at.class;
    let heard = ClassHeard {
        signature: signature_heard(alloc, state, asked, class)?.unwrap_or(&[]),
        source: source_heard(alloc, state, asked, class)?.unwrap_or(None),
        methods: methods_heard(alloc, state, asked, class)?.unwrap_or(&[]),
        line: line_found(alloc, state, asked, frame.at)?,
    };
    frame_shown(alloc, state, thread, frame, heard)
}

fn found_among(
    alloc: Global,
    state: &State,
    asked: &Asked,
    thread: ThreadId,
    frames: &[Frame],
) -> Result<List<ShownFrame>, NoMemory>
    ensures { IfOk result (λ shown. shown
        ≡ map (frame_found state.now (sight_in state.now asked.now) thread) frames.now) }
{
    let mut shown = List::new(alloc);
    for frame in frames {
        shown.push(frame_found(alloc, state, asked, thread, *frame)?)?;
    }
    Ok(shown)
}

// Each of these frames is shown, of so many in all.
#[tactic(auto, using(crate::proofs::FrameLaws::shown_need))]
fn shown_need(
    alloc: Global,
    state: &State,
    asked: &Asked,
    thread: ThreadId,
    total: u32,
    frames: &[Frame],
) -> Result<Need, NoMemory>
    ensures { IfOk result (λ found. need_of found
        ≡ shown_in (sight_in state.now asked.now) state.now thread total frames.now) }
{
    match lacks(lacking_among(alloc, state, asked, frames)?) {
        Some(found) => Ok(found),
        None => Ok(Need::Has(Finding::Frames {
            total,
            frames: found_among(alloc, state, asked, thread, frames)?,
        })),
    }
}

// How many frames a thread has, in an answer (JDWP, ThreadReference command set, FrameCount).
fn count_in(answer: &Answer) -> u32
    ensures { result ≡ count_in (Some answer.now) }
{
    match answer {
        Answer::FrameCount(count) => *count,
        _ => 0,
    }
}

// The frames in an answer (JDWP, ThreadReference command set, Frames).
fn frames_in(answer: &Answer) -> &[Frame]
    ensures { result.now ≡ frames_in (Some answer.now) }
{
    match answer {
        Answer::Frames(frames) => frames.as_slice(),
        _ => &[],
    }
}

// So many are shown from a place on: as many as are asked for, where 0 is all.
fn count_from(total: u32, start: u32, levels: u32) -> u32
    ensures { result ≡ count_from total start levels }
{
    let left = total.saturating_sub(start);
    if levels == 0 {
        left.min(MOST_FRAMES)
    } else {
        levels.min(left).min(MOST_FRAMES)
    }
}

// So many frames are asked for, from a place on (JDWP, ThreadReference command set, Frames).
#[tactic(auto, using(crate::proofs::FrameLaws::listed_need))]
fn listed_need(
    alloc: Global,
    state: &State,
    asked: &Asked,
    thread: ThreadId,
    total: u32,
    start: u32,
    count: u32,
) -> Result<Need, NoMemory>
    ensures { IfOk result (λ found. need_of found
        ≡ listed_in (sight_in state.now asked.now) state.now thread total start count) }
{
    let start = as_int(start)?;
    let length = as_int(count)?;
    let key = QuestionKey::new(
        alloc,
        Question::Frames {
            thread,
            start,
            length,
        },
    )?;
    match asked.find(&key) {
        None => Ok(Need::Lacks {
            first: Want::Must(key.into_question()),
            others: VecDeque::new(alloc),
        }),
        Some((place, Replied::Error(code))) => Ok(Need::Fails { place, code: *code }),
        Some((_, Replied::Answer(answer))) => {
            shown_need(alloc, state, asked, thread, total, frames_in(answer))
        }
    }
}

// The frames of a thread that has so many in all; where none is shown none is asked for.
#[tactic(auto, using(crate::proofs::FrameLaws::none_need, crate::proofs::FrameLaws::some_need))]
fn counted_need(
    alloc: Global,
    state: &State,
    asked: &Asked,
    thread: ThreadId,
    start: u32,
    levels: u32,
    total: u32,
) -> Result<Need, NoMemory>
    ensures { IfOk result (λ found. need_of found
        ≡ counted_in (sight_in state.now asked.now) state.now thread start levels total) }
{
    let count = count_from(total, start, levels);
    if count == 0 {
        return shown_need(alloc, state, asked, thread, total, &[]);
    }
    listed_need(alloc, state, asked, thread, total, start, count)
}

/// What the look-up of the frames of a thread comes to, from this one on, and so many at most, where 0 is all. `NoMemory`
/// comes where memory is refused, or where a place has no room in 31 bits (DAP specification, StackTrace request; JDWP, ThreadReference command set, FrameCount and Frames).
#[tactic(auto, using(crate::proofs::FrameLaws::frames_need))]
pub fn frames_need(
    alloc: Global,
    state: &State,
    asked: &Asked,
    thread: ThreadId,
    start: u32,
    levels: u32,
) -> Result<Need, NoMemory>
    ensures { IfOk result (λ found. need_of found
        ≡ stack_in (sight_in state.now asked.now) state.now thread start levels) }
{
    let key = QuestionKey::new(alloc, Question::FrameCount(thread))?;
    match asked.find(&key) {
        None => Ok(Need::Lacks {
            first: Want::Must(key.into_question()),
            others: VecDeque::new(alloc),
        }),
        Some((place, Replied::Error(code))) => Ok(Need::Fails { place, code: *code }),
        Some((_, Replied::Answer(answer))) => {
            counted_need(alloc, state, asked, thread, start, levels, count_in(answer))
        }
    }
}
