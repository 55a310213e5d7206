//! What the look-up of threads comes to.
ghost use Rattle.std.specs.Prelude.{◌≡◌, ◌++◌, IfOk, OnOk, option_copied};
ghost use Rattle.std.specs.List.{flat_map};
ghost use Rattle.machine_model.specs.Lookups.{names_plan, threads_plan};
ghost use Rattle.machine_model.specs.Plans.{need};
ghost use Rattle.talk_look_ups.specs.Planning.{lacking_name, name_known, named_thread, need_of, sight_in};

use crate::need::{Need, lacks};
use jdwp_commands::{Answer, Question, Replied};
use jdwp_values::ThreadId;
use look_ups::{Asked, QuestionKey};
use machine_model::{Finding, NamedThread, Want};
use std::alloc::Global;
use std::collections::VecDeque;
use talk_state::State;
use wire_core::{Blob, List, NoMemory};

// The names that have no reply. They are asked for in order, behind the list of threads, which was at this place.
fn lacking_names(
    alloc: Global,
    asked: &Asked,
    list: usize,
    threads: &[ThreadId],
) -> Result<VecDeque<Want>, NoMemory>
    ensures { IfOk result (λ wants. wants.items ≡ flat_map (lacking_name asked.now) threads.now) }
{
    let mut wants = VecDeque::new(alloc);
    let mut place = list;
    for thread in threads {
        place = place.wrapping_add(1);
        if asked.name_reply(alloc, *thread, place)?.is_none() {
            wants.push_back(Want::May(Question::ThreadName(*thread)))?;
        }
    }
    Ok(wants)
}

// A thread with its name; one whose name was refused is left out.
fn add_named(
    alloc: Global,
    named: &mut List<NamedThread>,
    thread: ThreadId,
    reply: Option<&Replied>,
) -> Result<(), NoMemory>
    ensures { OnOk result (named.new ≡ named.old ++ named_thread thread (option_copied reply.entry)) }
{
    match reply {
        Some(Replied::Answer(Answer::ThreadName(name))) => named.push(NamedThread {
            thread,
            name: Blob::from_slice(alloc, name.as_slice())?,
        }),
        _ => Ok(()),
    }
}

fn names_known(
    alloc: Global,
    asked: &Asked,
    list: usize,
    threads: &[ThreadId],
) -> Result<List<NamedThread>, NoMemory>
    ensures { IfOk result (λ named. named ≡ flat_map (name_known asked.now) threads.now) }
{
    let mut named = List::new(alloc);
    let mut place = list;
    for thread in threads {
        place = place.wrapping_add(1);
        let reply = asked.name_reply(alloc, *thread, place)?;
        add_named(alloc, &mut named, *thread, reply)?;
    }
    Ok(named)
}

#[tactic(auto, using(crate::proofs::PlanLaws::names_need))]
fn names_need(
    alloc: Global,
    state: &State,
    asked: &Asked,
    list: usize,
    threads: &[ThreadId],
) -> Result<Need, NoMemory>
    ensures { IfOk result (λ found. need_of found ≡ need (sight_in state.now asked.now) (names_plan threads.now)) }
{
    match lacks(lacking_names(alloc, asked, list, threads)?) {
        Some(found) => Ok(found),
        None => Ok(Need::Has(Finding::Threads(names_known(alloc, asked, list, threads)?))),
    }
}

/// What the look-up of all threads, and of the name of each, comes to. `NoMemory` comes where memory is refused (DAP
/// specification, Threads request; JDWP, VirtualMachine command set, AllThreads).
#[tactic(auto, using(crate::proofs::PlanLaws::threads_need))]
pub fn threads_need(alloc: Global, state: &State, asked: &Asked) -> Result<Need, NoMemory>
    ensures { IfOk result (λ found. need_of found ≡ need (sight_in state.now asked.now) threads_plan) }
{
    let key = QuestionKey::new(alloc, Question::AllThreads)?;
    match asked.find(&key) {
        None => Ok(Need::Lacks {
            first: Want::Must(key.into_question()),
            others: VecDeque::new(alloc),
        }),
        Some((place, Replied::Error(code))) => Ok(Need::Fails { place, code: *code }),
        Some((place, Replied::Answer(Answer::AllThreads(threads)))) => {
            names_need(alloc, state, asked, place, threads.as_slice())
        }
        Some((place, Replied::Answer(_))) => names_need(alloc, state, asked, place, &[]),
    }
}
