//! What the client is told of breakpoints that are verified by and by, and of threads.
ghost use Rattle.std.specs.Prelude.{◌≡◌, ◌++◌, IfOk, OnOk, filter, map, option_map};
ghost use Rattle.std.specs.List.{flat_map};
ghost use Rattle.machine_model.specs.Breakpoints.{client_line, is_news, newly_verified, verified_told};
ghost use Rattle.machine_model.specs.Composites.{change_told, changes_in};
ghost use Rattle.machine_model.specs.declared.parts.News.TheVariants.{Verified as entry_verified};
ghost use Rattle.machine_model.specs.Rows.{each_told, news_of, told_in};
ghost use Rattle.machine_model.specs.Telling.{news_told};

use dap_messages::{Breakpoint, BreakpointStatus, Event as EventTold, ThreadChange};
use jdwp_events::Event as TargetEvent;
use machine_model::{Event, Item, News, Part, Phase};
use session_facts::BoundIds;
use std::alloc::Global;
use std::collections::VecDeque;
use talk_state::State;
use wire_core::{List, NoMemory};
use wish_sets::VerifiedEntry;

// A breakpoint is news, where its id is below this one and the client doesn't know that it is verified.
fn is_news(below: u64, bound: &BoundIds, entry: &VerifiedEntry) -> bool
    ensures { result ≡ is_news below bound.now entry.now }
{
    entry.id < below && !bound.has(entry.id)
}

// Those of these breakpoints that are news.
fn verified_among(
    alloc: Global,
    below: u64,
    bound: &BoundIds,
    entries: &[VerifiedEntry],
) -> Result<List<News>, NoMemory>
    ensures { IfOk result (λ news. news ≡ map entry_verified (filter (is_news below bound.now) entries.now)) }
{
    let mut news = List::new(alloc);
    for entry in entries {
        if is_news(below, bound, entry) {
            news.push(News::Verified(*entry))?;
        }
    }
    Ok(news)
}

// A thread that has started or ended is news (JDWP, Event command set, Composite, ThreadStart and ThreadDeath).
fn add_change(news: &mut List<News>, event: &TargetEvent) -> Result<(), NoMemory>
    ensures { OnOk result (news.new ≡ news.old ++ change_told event.now) }
{
    match event {
        TargetEvent::ThreadStart { thread, .. } => news.push(News::Thread {
            started: true,
            thread: *thread,
        }),
        TargetEvent::ThreadDeath { thread, .. } => news.push(News::Thread {
            started: false,
            thread: *thread,
        }),
        _ => Ok(()),
    }
}

fn add_changes(news: &mut List<News>, events: &[TargetEvent]) -> Result<(), NoMemory>
    ensures { OnOk result (news.new ≡ news.old ++ flat_map change_told events.now) }
{
    for event in events {
        add_change(news, event)?;
    }
    Ok(())
}

// The threads that an item says have started or ended.
fn add_changes_in(news: &mut List<News>, item: &Item) -> Result<(), NoMemory>
    ensures { OnOk result (news.new ≡ news.old ++ changes_in item.now) }
{
    match item {
        Item::Request(_) => Ok(()),
        Item::Composite { composite, .. } => add_changes(news, composite.events.as_slice()),
        Item::Raw { .. } => Ok(()),
        Item::TargetEnd => Ok(()),
    }
}

// Those that are verified, which is news: none, where it was found out that the client knows of each.
fn newly_verified(alloc: Global, below: u64, state: &State) -> Result<List<News>, NoMemory>
    ensures { IfOk result (λ news. news
        ≡ map entry_verified (newly_verified below state.now.bound state.now.wishes)) }
{
    if state.told {
        return Ok(List::new(alloc));
    }
    let verified = state.wishes.verified(alloc)?;
    verified_among(alloc, below, &state.bound, verified.as_slice())
}

fn news_of(alloc: Global, below: u64, state: &State, item: &Item) -> Result<List<News>, NoMemory>
    ensures { IfOk result (λ news. news ≡ news_of below state.now item.now) }
{
    let mut news = newly_verified(alloc, below, state)?;
    add_changes_in(&mut news, item)?;
    Ok(news)
}

fn each_told(alloc: Global, news: &[News]) -> Result<VecDeque<Part>, NoMemory>
    ensures { IfOk result (λ parts. parts.items ≡ each_told news.now) }
{
    let mut parts = VecDeque::new(alloc);
    for one in news {
        parts.push_back(Part::Tells(Event::News(*one)))?;
    }
    Ok(parts)
}

/// The client is told of each breakpoint that is verified, which is news, of those with an id below this one, in order
/// of their ids; and then of each thread that the item says has started or ended; as long as the session is attached.
/// `NoMemory` comes where memory is refused (DAP specification, Events, Breakpoint and Thread).
pub fn told_news(
    alloc: Global,
    below: u64,
    state: &State,
    item: &Item,
) -> Result<VecDeque<Part>, NoMemory>
    ensures { IfOk result (λ parts. parts.items ≡ told_in state.now.phase (news_of below state.now item.now)) }
{
    match state.phase {
        Phase::Fresh => Ok(VecDeque::new(alloc)),
        Phase::Attached => {
            let news = news_of(alloc, below, state, item)?;
            each_told(alloc, news.as_slice())
        }
        Phase::Gone => Ok(VecDeque::new(alloc)),
    }
}

// A line as the client counts it (DAP specification, Initialize request, linesStartAt1).
fn client_line(from_one: bool, line: i32) -> u32
    ensures { result ≡ client_line from_one line }
{
    let line = line.cast_unsigned();
    if from_one {
        line
    } else {
        line.saturating_sub(1)
    }
}

// The line of a breakpoint, where it is one of a source.
fn line_told(from_one: bool, line: Option<i32>) -> Option<u32>
    ensures { result ≡ option_map (client_line from_one) line }
{
    Some(client_line(from_one, line?))
}

// A breakpoint that is verified, as it is told (DAP specification, Types, Breakpoint).
fn verified_told(from_one: bool, entry: VerifiedEntry) -> Breakpoint
    ensures { result ≡ verified_told from_one entry }
{
    Breakpoint {
        id: entry.id,
        line: line_told(from_one, entry.line),
        status: BreakpointStatus::Verified,
    }
}

/// How news is told: a thread by its number (DAP specification, Events, Breakpoint and Thread).
pub fn news_told(news: News, state: &State) -> EventTold
    ensures { result ≡ news_told news state.now }
{
    match news {
        News::Verified(entry) => {
            EventTold::Breakpoint(verified_told(state.options.lines_from_one, entry))
        }
        News::Thread { started, thread } => EventTold::Thread(ThreadChange {
            started,
            id: state.threads.number(thread),
        }),
    }
}
