use crate::streams::pause;
use mio::unix::SourceFd;
use mio::{Events, Interest, Poll, Token};
use std::alloc::Allocator;
use std::io;
use std::net::Net;
use std::os::fd::AsRawFd;
use std::time::{Clock, Duration};

// How long a wait is at most, in milliseconds.
const WAIT_MILLIS: u64 = 4;

// How many events one wait is told of: one for each of the two streams.
const EVENTS: usize = 2;

/// The streams that a wait is for. What it is told is a hint: no contract rests on it, and who waits asks the streams
/// themselves.
#[derive(Drop)]
pub(crate) struct Watch<A: Allocator> {
    poll: Poll,
    events: Events<A>,
}

impl<A: Allocator + Copy> Watch<A> {
    /// A watch of no stream so far.
    pub(crate) fn new(alloc: A, net: &impl Net) -> io::Result<Watch<A>> {
        Ok(Watch {
            events: Events::with_capacity(alloc, EVENTS)?,
            poll: Poll::new(net)?,
        })
    }
}

impl<A: Allocator> Watch<A> {
    /// Watches a stream, until it is closed. It has to answer without blocking: the system tells only of what comes
    /// after a read had nothing.
    pub(crate) fn add(&self, stream: &impl AsRawFd) -> io::Result<()> {
        let fd = stream.as_raw_fd();
        let registry = self.poll.registry();
        registry.register(&mut SourceFd(&fd), Token(0), Interest::READABLE)
    }

    /// Waits until something came on one of the streams, or for a moment; false where the moment went by.
    pub(crate) fn wait(&mut self, clock: &impl Clock) -> bool {
        let moment = Duration::from_millis(WAIT_MILLIS);
        match self.poll.poll(&mut self.events, Some(moment)) {
            Ok(()) => !self.events.is_empty(),
            Err(_) => {
                pause(clock);
                false
            }
        }
    }
}
