//! A stream whose frames are logged, and that says how its session ended.
ghost use Rattle.std.specs.Prelude.{◌≡◌};

use crate::log::Log;
use crate::texts::on_end;
use ov_io::{Fault, Sink, Source, Stream};
use ov_session::{Dismiss, SessionEnd};
use std::fmt;
use std::fmt::{Display, Formatter, Write};
use std::net::SocketAddr;
use std::time::Clock;

/// The stream in it, the address of its client, where that is known, and the log of its session,
/// where one is kept. It tells what the stream tells. In the thread of its session it says, by one
/// print a line, what is logged and how the session ended, where it didn't end between two frames. An
/// update is logged before its reply is put, since it was made whether or not the reply arrives.
#[derive(Drop)]
pub struct LoggedStream<S, R> {
    pub stream: S,
    pub rt: R,
    pub client: Option<SocketAddr>,
    pub log: Option<Log<R>>,
}

impl<S: Source, R: Eprint + Clock + AllocGlobal> Source for LoggedStream<S, R> {
    ghost tells = { record {
      left = λ s. S.tells.left s.stream;
      faults = λ s. S.tells.faults s.stream;
      borrow = λ s. S.tells.borrow s.stream;
      takes = λ a b. S.tells.takes a.stream b.stream;
    } };

    fn take(&mut self, buf: &mut [u8]) -> Result<usize, Fault> {
        let taken = self.stream.take(buf);
        if let (Ok(count), Some(log)) = (taken, &mut self.log) {
            log.took(buf.split_at(count).0);
        }
        taken
    }
}

impl<S: Sink, R: Eprint + Clock + AllocGlobal> Sink for LoggedStream<S, R> {
    ghost tells = { record {
      written = λ s. S.tells.written s.stream;
      faults = λ s. S.tells.faults s.stream;
      borrow = λ s. S.tells.borrow s.stream;
      puts = λ a b. S.tells.puts a.stream b.stream;
    } };

    fn put(&mut self, bytes: &[u8]) -> Result<(), Fault> {
        if let Some(log) = &mut self.log {
            log.puts(bytes);
        }
        self.stream.put(bytes)
    }
}

impl<S: Stream, R: Eprint + Clock + AllocGlobal> Stream for LoggedStream<S, R> {
    ghost take_leaves = { λ old new took.
        let left = S.take_leaves old.stream new.stream took in
        record { bytes = left.bytes; faults = left.faults; borrow = left.borrow } };

    ghost put_leaves = { λ old new put.
        let left = S.put_leaves old.stream new.stream put in
        record { bytes = left.bytes; faults = left.faults; borrow = left.borrow } };
}

// A session, by its number, and the address of its client, where that is known.
#[derive(Drop)]
struct Session {
    number: u32,
    client: Option<SocketAddr>,
}

impl Display for Session {
    fn fmt<W: Write>(&self, f: &mut Formatter<W>) -> fmt::Result {
        let number = self.number;
        match self.client {
            Some(client) => write!(f, "session {number} with {client}"),
            None => write!(f, "session {number}"),
        }
    }
}

// Says how a session ended, where it didn't end between two frames.
fn say_end<R: Eprint>(rt: &R, session: Session, end: SessionEnd) {
    match on_end(end) {
        Some((why, Some(at))) => {
            let _ = eprintln!(rt; "overstored: warning: {session}: {why}, at byte {at}");
        }
        Some((why, None)) => {
            let _ = eprintln!(rt; "overstored: warning: {session}: {why}");
        }
        None => {}
    }
}

impl<S: Dismiss, R: Eprint + Clock + AllocGlobal> Dismiss for LoggedStream<S, R> {
    fn dismiss(&self, number: u32, end: SessionEnd) {
        match &self.log {
            Some(log) => log.ended(number, end),
            None => {}
        }
        let client = self.client;
        say_end(&self.rt, Session { number, client }, end);
        self.stream.dismiss(number, end);
    }
}
