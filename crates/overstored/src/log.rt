//! What a server says on standard error of the updates that it accepts and of the sessions that it
//! ends, where it is asked to. A line is one print, so lines of sessions that run at once don't mix,
//! and may stand in another order than their epochs. That of an update comes before the reply, which
//! may never arrive: no update that was accepted has no line.

use crate::heads::{Head, Heads};
use crate::texts::on_end;
use jiff::Timestamp;
use ov_session::SessionEnd;
use ov_wire::kinds;
use std::collections::VecDeque;
use std::fmt;
use std::fmt::{Display, Formatter, Write};
use std::net::SocketAddr;
use std::time::Clock;

// When a line is logged, to the second, and of which client; `-` where one isn't known.
#[derive(Drop)]
struct Stamp {
    time: Option<Timestamp>,
    client: Option<SocketAddr>,
}

impl Display for Stamp {
    fn fmt<W: Write>(&self, f: &mut Formatter<W>) -> fmt::Result {
        match self.time {
            Some(time) => write!(f, "{time} ")?,
            None => write!(f, "- ")?,
        }
        match self.client {
            Some(client) => write!(f, "{client}"),
            None => write!(f, "-"),
        }
    }
}

// The clock's moment, to the second.
fn now<R: Clock>(rt: &R) -> Option<Timestamp> {
    let now = Timestamp::now(rt).ok()?;
    Timestamp::from_second(now.as_second()).ok()
}

// The word for the kind of an update, as owners write it.
fn word_of(update: u8) -> &'static str {
    match update {
        1 => "user",
        2 => "create",
        3 => "grant",
        4 => "revoke",
        6 => "remove",
        7 => "replace",
        _ => "update",
    }
}

/// The log of one session.
#[derive(Drop)]
pub struct Log<R> {
    rt: R,
    client: Option<SocketAddr>,
    asked: Heads,
    answered: Heads,
    // The kinds of the updates that are asked for and not answered yet, 0 for other requests.
    waiting: VecDeque<u8>,
    // Whether memory was refused for one of them, after which no kind is told from another.
    is_blind: bool,
}

impl<R: Eprint + Clock + AllocGlobal> Log<R> {
    /// The log of a session with this client, of which nothing has passed yet.
    pub fn new(rt: R, client: Option<SocketAddr>) -> Log<R> {
        let waiting = VecDeque::new(rt.alloc());
        Log {
            rt,
            client,
            asked: Heads::new(),
            answered: Heads::new(),
            waiting,
            is_blind: false,
        }
    }

    fn stamp(&self) -> Stamp {
        Stamp {
            time: now(&self.rt),
            client: self.client,
        }
    }

    // Notes what is asked for.
    fn ask(&mut self, request: Head) {
        let [kind, _, _, _, _, update] = request;
        let wanted = if kind == kinds::UPDATE { update } else { 0 };
        if self.waiting.push_back(wanted).is_err() {
            self.is_blind = true;
        }
    }

    // Says so where an update was made.
    fn answer(&mut self, reply: Head) {
        let update = self.waiting.pop_front();
        let [kind, a, b, c, d, _] = reply;
        if kind == kinds::ACCEPTED {
            let stamp = self.stamp();
            let told = if self.is_blind { None } else { update };
            let word = word_of(told.unwrap_or(0));
            let epoch = u32::from_be_bytes([a, b, c, d]);
            let _ = eprintln!(self.rt; "overstored: log: {stamp} {word} {epoch}");
        }
    }

    /// These bytes came from the client.
    pub fn took(&mut self, bytes: &[u8]) {
        for byte in bytes {
            if let Some(request) = self.asked.pass(*byte) {
                self.ask(request);
            }
        }
    }

    /// These bytes go to the client next, if it is still there.
    pub fn puts(&mut self, bytes: &[u8]) {
        for byte in bytes {
            if let Some(reply) = self.answered.pass(*byte) {
                self.answer(reply);
            }
        }
    }

    /// The session of this number ended so.
    pub fn ended(&self, number: u32, end: SessionEnd) {
        let stamp = self.stamp();
        match on_end(end) {
            Some((why, _)) => {
                let _ = eprintln!(self.rt;
                    "overstored: log: {stamp} end of session {number}: {why}"
                );
            }
            None => {
                let _ = eprintln!(self.rt; "overstored: log: {stamp} end of session {number}");
            }
        }
    }
}
