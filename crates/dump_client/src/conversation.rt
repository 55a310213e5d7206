//! The conversation of a dump: which request comes next, and the text so far.
ghost use Rattle.std.specs.Prelude.{◌≡◌, ◌++◌, IfOk, OnOk, IsTrue, ◌↔◌};
ghost use Rattle.serde_json.specs.View.{view};
ghost use Rattle.dump_client.specs.Answers.{threads_said};
ghost use Rattle.dump_client.specs.Conversing.{is_gone};

use crate::answers::{
    Heading, failure_of, frames_said, is_response, scope_said, threads_said, variables_said,
};
use crate::due::Due;
use crate::lines::{end_line, failure_line};
use crate::messages::message_in;
use serde_json::Value;
use std::alloc::Global;
use wire_core::{Blob, List, NoMemory, raise};

/// Where a dump stands: the request that is due, or was made and waits for its response; the sequence number of the next
/// request; the thread that is paused; the threads and the frames of a thread that are shown, and how many of them were;
/// the text so far; and whether a request was answered by `targetGone`.
#[derive(Drop)]
pub struct Conversation {
    due: Due,
    waits: bool,
    seq: u64,
    paused: u64,
    threads: List<Heading>,
    thread_at: usize,
    frames: List<Heading>,
    frame_at: usize,
    text: Blob,
    gone: bool,
}

// The code of `targetGone`.
const GONE: u64 = 10;

// Whether this failure tells that the target has gone, before its client leaves it.
fn is_gone(due: Due, failure: Option<u64>) -> bool
    ensures { result ≡ is_gone due failure }
{
    match failure {
        Some(code) => code == GONE && !matches!(due, Due::Disconnect),
        None => false,
    }
}

impl Conversation {
    ghost use Rattle.dump_client.specs.Conversing.{answered, asked, at_first_threads, at_frame, at_stack, at_thread};
    ghost use Rattle.dump_client.specs.Conversing.{at_scopes, at_threads, at_variables, behind, heard, request_due, start};
    ghost use Rattle.dump_client.specs.Conversing.{said, taken, with_text};

    /// A conversation at its beginning, which takes no memory.
    pub fn new(alloc: Global) -> Conversation
        ensures { result ≡ start }
    {
        Conversation {
            due: Due::Initialize,
            waits: false,
            seq: 1,
            paused: 0,
            threads: List::new(alloc),
            thread_at: 0,
            frames: List::new(alloc),
            frame_at: 0,
            text: Blob::new(alloc),
            gone: false,
        }
    }

    /// Whether all was asked for, and answered.
    pub fn is_over(&self) -> bool
        ensures { IsTrue result ↔ (self.now.due ≡ Due.Nothing) }
    {
        self.due.is_over()
    }

    /// Whether a request other than the last was answered by `targetGone`.
    pub fn is_gone(&self) -> bool
        ensures { result ≡ self.now.gone }
    {
        self.gone
    }

    /// The text so far.
    pub fn into_text(self) -> Blob
        ensures { result ≡ self.text }
    {
        self.text
    }

    /// The frame of the request that is due, if one is; `NoMemory` comes where memory is refused.
    pub fn request(&self, alloc: Global) -> Result<Option<Blob>, NoMemory>
        ensures { IfOk result (λ frame. frame ≡ request_due self.now) }
    {
        if self.waits || self.due.is_over() {
            return Ok(None);
        }
        Ok(Some(self.due.request(alloc, self.seq)?))
    }

    /// The request that is due is made.
    pub fn ask(&mut self)
        ensures { self.new ≡ asked self.old }
    {
        self.waits = true;
        self.seq = raise(self.seq);
    }

    /// A frame came: a response is that to the request that was made; all else is passed over. Where memory is refused, the
    /// conversation is lost.
    pub fn hear(&mut self, alloc: Global, frame: &[u8]) -> Result<(), NoMemory>
        ensures { OnOk result (self.new ≡ heard frame.now self.old) }
    {
        match message_in(alloc, frame)? {
            Some(message) => self.hear_message(alloc, &message),
            None => Ok(()),
        }
    }

    fn hear_message(&mut self, alloc: Global, message: &Value) -> Result<(), NoMemory>
        ensures { OnOk result (self.new ≡ said (view message.now) self.old) }
    {
        if self.waits && is_response(message) {
            self.answer(alloc, message)
        } else {
            Ok(())
        }
    }

    // The response comes.
    fn answer(&mut self, alloc: Global, message: &Value) -> Result<(), NoMemory>
        ensures { OnOk result (self.new ≡ answered (view message.now) self.old) }
    {
        let gone = is_gone(self.due, failure_of(message));
        self.waits = false;
        self.gone = self.gone || gone;
        self.take(alloc, message)
    }

    // What it says is taken up.
    fn take(&mut self, alloc: Global, message: &Value) -> Result<(), NoMemory>
        ensures { OnOk result (self.new ≡ taken (view message.now) self.old) }
    {
        match self.due {
            Due::FirstThreads => self.take_first(alloc, message),
            Due::Threads => self.take_threads(alloc, message),
            Due::StackTrace(_) => self.take_stack(alloc, message),
            Due::Scopes(_) => self.take_scopes(alloc, message),
            Due::Variables(_) => self.take_variables(alloc, message),
            Due::Initialize => self.go_on(Due::Attach),
            Due::Attach => self.go_on(Due::ConfigurationDone),
            Due::ConfigurationDone => self.go_on(Due::FirstThreads),
            Due::Pause(_) => self.go_on(Due::Threads),
            Due::Continue(_) => self.go_on(Due::Disconnect),
            Due::Disconnect => self.go_on(Due::Nothing),
            Due::Nothing => self.go_on(Due::Nothing),
        }
    }

    fn go_on(&mut self, due: Due) -> Result<(), NoMemory>
        ensures { OnOk result (self.new ≡ behind due self.old) }
    {
        self.due = due;
        Ok(())
    }

    // The first of the threads is paused; where there is none, all is told.
    fn take_first(&mut self, alloc: Global, message: &Value) -> Result<(), NoMemory>
        ensures { OnOk result (self.new ≡ at_first_threads (threads_said (view message.now)) self.old) }
    {
        let threads = threads_said(alloc, message)?;
        match threads.as_slice().first() {
            Some(thread) => {
                self.paused = thread.number;
                self.due = Due::Pause(thread.number);
            }
            None => {
                self.text.extend_from_slice(end_line(alloc, 0)?.as_slice())?;
                self.due = Due::Disconnect;
            }
        }
        Ok(())
    }

    // The threads are shown one after the other.
    fn take_threads(&mut self, alloc: Global, message: &Value) -> Result<(), NoMemory>
        ensures { OnOk result (self.new ≡ at_threads (threads_said (view message.now)) self.old) }
    {
        self.threads = threads_said(alloc, message)?;
        self.thread_at = 0;
        self.to_thread(alloc)
    }

    // To the next thread; behind the last one all is told.
    fn to_thread(&mut self, alloc: Global) -> Result<(), NoMemory>
        ensures { OnOk result (self.new ≡ at_thread self.old) }
    {
        match self.threads.as_slice().get(self.thread_at) {
            Some(thread) => {
                self.text.extend_from_slice(thread.line.as_slice())?;
                self.due = Due::StackTrace(thread.number);
                self.thread_at += 1;
            }
            None => {
                let threads = self.threads.len();
                self.text
                    .extend_from_slice(end_line(alloc, threads)?.as_slice())?;
                self.due = Due::Continue(self.paused);
            }
        }
        Ok(())
    }

    // To the next frame; behind the last one, to the next thread.
    fn to_frame(&mut self, alloc: Global) -> Result<(), NoMemory>
        ensures { OnOk result (self.new ≡ at_frame self.old) }
    {
        match self.frames.as_slice().get(self.frame_at) {
            Some(frame) => {
                self.text.extend_from_slice(frame.line.as_slice())?;
                self.due = Due::Scopes(frame.number);
                self.frame_at += 1;
                Ok(())
            }
            None => self.to_thread(alloc),
        }
    }

    fn take_stack(&mut self, alloc: Global, message: &Value) -> Result<(), NoMemory>
        ensures { OnOk result (self.new ≡ at_stack (view message.now) self.old) }
    {
        match failure_of(message) {
            Some(code) => {
                self.text
                    .extend_from_slice(failure_line(alloc, "  ", code)?.as_slice())?;
                self.to_thread(alloc)
            }
            None => {
                self.frames = frames_said(alloc, message)?;
                self.frame_at = 0;
                self.to_frame(alloc)
            }
        }
    }

    fn take_scopes(&mut self, alloc: Global, message: &Value) -> Result<(), NoMemory>
        ensures { OnOk result (self.new ≡ at_scopes (view message.now) self.old) }
    {
        match failure_of(message) {
            Some(code) => {
                self.text
                    .extend_from_slice(failure_line(alloc, "    ", code)?.as_slice())?;
                self.to_frame(alloc)
            }
            None => self.go_on(Due::Variables(scope_said(message))),
        }
    }

    fn take_variables(&mut self, alloc: Global, message: &Value) -> Result<(), NoMemory>
        ensures { OnOk result (self.new ≡ at_variables (view message.now) self.old) }
    {
        let lines = match failure_of(message) {
            Some(code) => failure_line(alloc, "    ", code)?,
            None => variables_said(alloc, message)?,
        };
        self.text.extend_from_slice(lines.as_slice())?;
        self.to_frame(alloc)
    }
}
