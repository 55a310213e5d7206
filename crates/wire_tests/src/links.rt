use crate::rows::check;
use std::alloc::Global;
use std::test::Fail;
use wire_core::{Happening, Links, Side, raise};

const COUNTS: &str = "
raise 0 => 1
raise 41 => 42
raise 18446744073709551614 => 18446744073709551615
raise 18446744073709551615 => 18446744073709551615
";

#[test]
fn a_count_stands_still_at_its_last_value(rt: HostRuntime) -> Result<(), Fail> {
    check(rt.alloc(), COUNTS)
}

const OPENED: &str = "
links open => Links { client: Link { faults: 0, empties: 0, is_open: true }, target: Link { faults: 0, empties: 0, is_open: true } }
links closed => Links { client: Link { faults: 0, empties: 0, is_open: false }, target: Link { faults: 0, empties: 0, is_open: false } }
links closed opened => Links { client: Link { faults: 0, empties: 0, is_open: true }, target: Link { faults: 0, empties: 0, is_open: true } }
# a link that has ended
links counted target-failed target-asked opened client-failed client-asked => Links { client: Link { faults: 2, empties: 3, is_open: false }, target: Link { faults: 4, empties: 5, is_open: true } }
links counted target-failed target-asked opened client-failed client-asked opened => Links { client: Link { faults: 2, empties: 3, is_open: true }, target: Link { faults: 4, empties: 5, is_open: true } }
";

#[test]
fn links_are_made_open_or_closed(rt: HostRuntime) -> Result<(), Fail> {
    check(rt.alloc(), OPENED)
}

// Whether the client and the target are open, the first side that is, and how many are.
const SIDES: &str = "
sides open => true true Client 2
sides open target-shut => true false Client 1
sides open client-shut => false true Target 1
sides closed => false false Target 0
";

#[test]
fn open_sides_are_told(rt: HostRuntime) -> Result<(), Fail> {
    check(rt.alloc(), SIDES)
}

const OTHERS: &str = "
other client => Target
other target => Client
";

#[test]
fn each_side_has_the_other(rt: HostRuntime) -> Result<(), Fail> {
    check(rt.alloc(), OTHERS)
}

const HAPPENINGS: &str = "
links counted => Links { client: Link { faults: 1, empties: 2, is_open: true }, target: Link { faults: 3, empties: 4, is_open: true } }
links counted client-bytes => Links { client: Link { faults: 1, empties: 2, is_open: true }, target: Link { faults: 3, empties: 4, is_open: true } }
links counted client-shut => Links { client: Link { faults: 1, empties: 2, is_open: false }, target: Link { faults: 3, empties: 4, is_open: true } }
links counted target-shut => Links { client: Link { faults: 1, empties: 2, is_open: true }, target: Link { faults: 3, empties: 4, is_open: false } }
links counted client-failed => Links { client: Link { faults: 2, empties: 2, is_open: false }, target: Link { faults: 3, empties: 4, is_open: true } }
links counted target-failed => Links { client: Link { faults: 1, empties: 2, is_open: true }, target: Link { faults: 4, empties: 4, is_open: false } }
links counted quiet => Links { client: Link { faults: 1, empties: 3, is_open: true }, target: Link { faults: 3, empties: 5, is_open: true } }
links counted client-asked => Links { client: Link { faults: 1, empties: 3, is_open: true }, target: Link { faults: 3, empties: 4, is_open: true } }
links counted target-asked => Links { client: Link { faults: 1, empties: 2, is_open: true }, target: Link { faults: 3, empties: 5, is_open: true } }
";

#[test]
fn a_happening_changes_the_side_that_it_names(rt: HostRuntime) -> Result<(), Fail> {
    check(rt.alloc(), HAPPENINGS)
}

pub(crate) fn other_side(alloc: Global, name: &str) -> Result<String, Fail> {
    let side = read_side(name).ok_or("no side")?;
    let other = side.other();
    Ok(format!(in alloc; "{other:?}")?)
}

pub(crate) fn raised(alloc: Global, count: &str) -> Result<String, Fail> {
    let count: u64 = count.parse()?;
    Ok(raise(count).to_string(alloc)?)
}

/// The links after these words, as their contents are printed.
pub(crate) fn links_told(alloc: Global, words: &str) -> Result<String, Fail> {
    let links = links_after(words)?;
    Ok(format!(in alloc; "{links:?}")?)
}

pub(crate) fn sides_told(alloc: Global, words: &str) -> Result<String, Fail> {
    let links = links_after(words)?;
    let client = links.is_open(Side::Client);
    let target = links.is_open(Side::Target);
    let first = links.first();
    let count = links.open_count();
    Ok(format!(in alloc; "{client} {target} {first:?} {count}")?)
}

fn links_after(words: &str) -> Result<Links, Fail> {
    let mut links = Links::new(false);
    for word in words.split(' ') {
        links = after(links, word).ok_or("no word of links")?;
    }
    Ok(links)
}

fn after(links: Links, word: &str) -> Option<Links> {
    match word {
        "open" => Some(Links::new(true)),
        "closed" => Some(Links::new(false)),
        "counted" => Some(counted()),
        "opened" => Some(links.opened()),
        "quiet" => Some(links.after(Happening::Quiet)),
        _ => of_side(links, word),
    }
}

// A word of a side.
fn of_side(links: Links, word: &str) -> Option<Links> {
    let (name, what) = word.split_once('-')?;
    let side = read_side(name)?;
    match what {
        "bytes" => Some(links.after(Happening::Bytes(side, 7))),
        "shut" => Some(links.after(Happening::Shut(side))),
        "failed" => Some(links.after(Happening::Failed(side))),
        "asked" => Some(links.asked_in_vain(side)),
        _ => None,
    }
}

pub(crate) fn read_side(name: &str) -> Option<Side> {
    match name {
        "client" => Some(Side::Client),
        "target" => Some(Side::Target),
        _ => None,
    }
}

// Open links that have counted: one fault and two empty reads of the client, three and four of the target.
fn counted() -> Links {
    let mut links = Links::new(true).after(Happening::Failed(Side::Client));
    for _ in 0..3 {
        links = links.after(Happening::Failed(Side::Target));
    }
    links = links
        .opened()
        .after(Happening::Quiet)
        .after(Happening::Quiet);
    links
        .asked_in_vain(Side::Target)
        .asked_in_vain(Side::Target)
}
