//! Which rows may follow each other.
ghost use Rattle.std.specs.Prelude.{◌≡◌};
ghost use Rattle.script_text.specs.Order.{is_closed, closed_with, closes, entered, is_of, first_place, started};
ghost use Rattle.script_text.specs.Order.{limited, inside, ended, next_place, waits_of, next_stage, waits_in};

use crate::log::ScriptFault;
use crate::rows::{MOST_QUIETS, Row, Version};
use wire_core::{Entry, Side};

/// Which sides have ended or failed.
#[derive(Clone, Copy, Debug, Drop, PartialEq, Eq)]
pub(crate) struct Closed {
    client: bool,
    target: bool,
}

const NONE_CLOSED: Closed = Closed {
    client: false,
    target: false,
};

/// Where a log stands behind its head: before the limits; among the entries, where so many waits in vain could come
/// before those that stand last; behind the ending; behind `end`.
#[derive(Clone, Copy, Debug, Drop, PartialEq, Eq)]
pub(crate) enum Place {
    Headed,
    Inside { closed: Closed, before: u64 },
    Ended,
    Over,
}

/// Where a log stands behind some of its lines: before the first; or behind the head of a version, where so many waits
/// in vain may still come.
#[derive(Clone, Copy, Debug, Drop, PartialEq, Eq)]
pub(crate) enum Stage {
    Start,
    Behind {
        version: Version,
        left: u64,
        place: Place,
    },
}

/// Where a log stands behind a row, or why the row may not stand here.
pub(crate) fn next_stage(stage: Stage, row: &Row) -> Result<Stage, ScriptFault>
    ensures { result ≡ next_stage stage row.now }
{
    match stage {
        Stage::Start => started(row),
        Stage::Behind {
            version,
            left,
            place,
        } => {
            if !is_of(version, left, row) {
                return Err(ScriptFault::BadShape);
            }
            Ok(Stage::Behind {
                version,
                left: left.saturating_sub(waits_of(row)),
                place: next_place(left, place, row)?,
            })
        }
    }
}

/// How many waits in vain stand last, and are no part of the log yet.
pub(crate) fn waits_in(stage: Stage) -> u64
    ensures { result ≡ waits_in stage }
{
    match stage {
        Stage::Behind {
            version: _,
            left,
            place: Place::Inside { closed: _, before },
        } => before.saturating_sub(left),
        _ => 0,
    }
}

fn is_of(version: Version, left: u64, row: &Row) -> bool
    ensures { result ≡ is_of version left row.now }
{
    match row {
        Row::Limits { .. } => version == Version::Second,
        Row::Quiet => version == Version::First && 0 < left,
        Row::Quiets(n) => version == Version::Second && *n <= left,
        Row::Head(_) | Row::Entry(_) | Row::Ending(_) | Row::End => true,
    }
}

fn waits_of(row: &Row) -> u64
    ensures { result ≡ waits_of row.now }
{
    match row {
        Row::Quiet => 1,
        Row::Quiets(n) => *n,
        _ => 0,
    }
}

fn started(row: &Row) -> Result<Stage, ScriptFault>
    ensures { result ≡ started row.now }
{
    match row {
        Row::Head(Some(version)) => Ok(Stage::Behind {
            version: *version,
            left: MOST_QUIETS,
            place: first_place(*version),
        }),
        Row::Head(None) => Err(ScriptFault::BadVersion),
        _ => Err(ScriptFault::BadOrder),
    }
}

fn first_place(version: Version) -> Place
    ensures { result ≡ first_place version }
{
    match version {
        Version::First => Place::Inside {
            closed: NONE_CLOSED,
            before: MOST_QUIETS,
        },
        Version::Second => Place::Headed,
    }
}

fn next_place(left: u64, place: Place, row: &Row) -> Result<Place, ScriptFault>
    ensures { result ≡ next_place left place row.now }
{
    match place {
        Place::Headed => limited(row),
        Place::Inside { closed, before } => inside(left, closed, before, row),
        Place::Ended => ended(row),
        Place::Over => Err(ScriptFault::AfterEnd),
    }
}

fn limited(row: &Row) -> Result<Place, ScriptFault>
    ensures { result ≡ limited row.now }
{
    match row {
        Row::Limits { .. } => Ok(Place::Inside {
            closed: NONE_CLOSED,
            before: MOST_QUIETS,
        }),
        _ => Err(ScriptFault::BadOrder),
    }
}

fn inside(left: u64, closed: Closed, before: u64, row: &Row) -> Result<Place, ScriptFault>
    ensures { result ≡ inside left closed before row.now }
{
    match row {
        Row::Entry(entry) => match entered(closed, entry) {
            Some(closed) => Ok(Place::Inside {
                closed,
                before: left,
            }),
            None => Err(ScriptFault::BadOrder),
        },
        Row::Quiet => Ok(Place::Inside { closed, before }),
        Row::Quiets(_) => if before.saturating_sub(left) == 0 {
            Ok(Place::Inside { closed, before })
        } else {
            Err(ScriptFault::BadOrder)
        },
        Row::Ending(_) => Ok(Place::Ended),
        Row::End => Ok(Place::Over),
        Row::Head(_) | Row::Limits { .. } => Err(ScriptFault::BadOrder),
    }
}

fn ended(row: &Row) -> Result<Place, ScriptFault>
    ensures { result ≡ ended row.now }
{
    match row {
        Row::End => Ok(Place::Over),
        _ => Err(ScriptFault::BadOrder),
    }
}

fn entered(closed: Closed, entry: &Entry) -> Option<Closed>
    ensures { result ≡ entered closed entry.now }
{
    match entry {
        Entry::In(side, _) => if is_closed(closed, *side) {
            None
        } else {
            Some(closed)
        },
        Entry::Out(_, _) => Some(closed),
        Entry::Shut(side) => closes(closed, *side),
        Entry::Failed(side) => closes(closed, *side),
        Entry::Quiet => Some(closed),
    }
}

fn closes(closed: Closed, side: Side) -> Option<Closed>
    ensures { result ≡ closes closed side }
{
    if is_closed(closed, side) {
        None
    } else {
        Some(closed_with(closed, side))
    }
}

fn is_closed(closed: Closed, side: Side) -> bool
    ensures { result ≡ is_closed closed side }
{
    match side {
        Side::Client => closed.client,
        Side::Target => closed.target,
    }
}

fn closed_with(closed: Closed, side: Side) -> Closed
    ensures { result ≡ closed_with closed side }
{
    match side {
        Side::Client => Closed {
            client: true,
            target: closed.target,
        },
        Side::Target => Closed {
            client: closed.client,
            target: true,
        },
    }
}
