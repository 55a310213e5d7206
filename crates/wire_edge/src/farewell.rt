ghost use Rattle.std.specs.Prelude.{◌≤◌};
ghost use Rattle.wire_edge.specs.Streams.{TakesRoom};

use crate::streams::{Polled, pause, poll};
use std::io::Read;
use std::net::{OpenStream, Shutdown};
use std::time::{Clock, Duration, Instant};

// For how long, in milliseconds, and how many bytes of a side are read away at its end.
const AWAY_MILLIS: u64 = 2000;

const AWAY_BYTES: usize = 67_108_864;

/// A stream whose write side is shut. It is let go where its peer has closed it too, or enough was read away.
#[derive(Drop)]
struct Leaving<S> {
    stream: Option<S>,
    // how many bytes may still be read away
    room: usize,
}

/// Lets both streams go so that what was sent on them arrives: their write sides are shut, and what still comes is read
/// away, until each peer has closed its stream, for at most two seconds and 64 MiB a side. A close with unread bytes
/// would reset the link, and what was under way would be lost.
pub(crate) fn part<S: Read + OpenStream + Drop>(
    clock: &impl Clock,
    client: Option<S>,
    target: Option<S>,
) {
    let mut client = Leaving::new(client);
    let mut target = Leaving::new(target);
    let Ok(start) = Instant::now(clock) else {
        return;
    };
    let mut buffer = [0; 65_536];
    for _ in 0..u64::MAX {
        let is_client_quiet = client.read_away(&mut buffer) == Polled::Nothing;
        let is_target_quiet = target.read_away(&mut buffer) == Polled::Nothing;
        if client.is_gone() && target.is_gone() || is_over(clock, start) {
            return;
        }
        if (is_client_quiet || client.is_gone()) && (is_target_quiet || target.is_gone()) {
            pause(clock);
        }
    }
}

// Whether the time for reading away is over.
fn is_over(clock: &impl Clock, start: Instant) -> bool {
    match start.elapsed(clock) {
        Ok(age) => age >= Duration::from_millis(AWAY_MILLIS),
        Err(_) => true,
    }
}

impl<S: Read + OpenStream + Drop> Leaving<S> {
    // Shuts the write side; a stream where this can't be done is let go.
    fn new(stream: Option<S>) -> Leaving<S> {
        Leaving {
            stream: shut(stream),
            room: AWAY_BYTES,
        }
    }

    fn is_gone(&self) -> bool {
        self.stream.is_none()
    }

    // Reads away what is there, once, and no more than there is room for.
    fn read_away(&mut self, buffer: &mut [u8]) -> Polled
        ensures { TakesRoom self.old.room self.new.room result }
    {
        let Some(stream) = &mut self.stream else {
            return Polled::Ended;
        };
        let most = self.room.min(buffer.len());
        let polled = poll(stream, &mut buffer[..most]);
        match polled {
            Polled::Bytes(n) => self.room -= n,
            Polled::Nothing => {}
            Polled::Ended | Polled::Broken => self.stream = None,
        }
        polled
    }
}

fn shut<S: OpenStream + Drop>(stream: Option<S>) -> Option<S> {
    let stream = stream?;
    stream.shutdown(Shutdown::Write).ok()?;
    Some(stream)
}
