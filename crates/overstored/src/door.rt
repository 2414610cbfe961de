//! A door that gives streams which say how their sessions end, and asks again where none can be had.
ghost use Rattle.std.specs.Prelude.{◌≡◌, ◌+◌, ◌-◌, ◌^◌, None, false, min};
ghost use Rattle.std.specs.Option.{option_map};
ghost use Rattle.std.specs.Net.Text.{socket_text};
ghost use Rattle.ov_base.specs.Causes.{Rose};

use crate::log::Log;
use crate::stream::LoggedStream;
use crate::told;
use ov_base::Mode;
use ov_io::Fault;
use ov_session::{Connection, Door, SessionEnd, TcpDoor};
use std::alloc::Global;
use std::net::Net;
use std::sync::Arc;
use std::sync::atomic::{AtomicBool, Ordering};
use std::thread;
use std::time::{Clock, Duration};

// How often in a row a connection is asked for where none can be had, as where no descriptor is free.
const MOST_TRIES: u32 = 60;

// The pause between two of these tries, in seconds.
const PAUSE_SECONDS: u64 = 1;

/// A door over another, which gives the streams of that one, and lets them go itself when they come
/// back. Each says how its session ended, and has a log where one is kept. Where that door fails to
/// give one it says so, and asks again after a pause. It counts for itself, tells where the door in it
/// listens, and nothing of the streams.
#[derive(Drop)]
pub struct SpokenDoor<N: Net + AllocGlobal + Drop, R> {
    pub door: TcpDoor<N>,
    listens: Arc<AtomicBool, Global>,
    logs: bool,
    news: Option<News>,
    given: u64,
    closed: bool,
    faults: u64,
    rt: R,
}

/// What is said of the store with a book before its door listens.
#[derive(Drop)]
pub enum News {
    /// It was begun, in this mode.
    Begun { book: String, mode: Mode },
    /// It is of the first format, and its next update carries it over.
    Older { book: String },
}

impl<N: Net + AllocGlobal + Drop, R> SpokenDoor<N, R> {
    /// This door, which gave nothing yet, with a runtime that prints; where it notes that it listens;
    /// whether a log is kept; and what it says of the store, if anything, once it is asked to listen.
    pub fn new(
        door: TcpDoor<N>,
        rt: R,
        listens: Arc<AtomicBool, Global>,
        logs: bool,
        news: Option<News>,
    ) -> SpokenDoor<N, R>
        ensures given { result.given ≡ 0 }
        ensures open_ { result.closed ≡ false }
    {
        SpokenDoor {
            door,
            listens,
            logs,
            news,
            given: 0,
            closed: false,
            faults: 0,
            rt,
        }
    }

    /// Whether it ever listened.
    pub fn has_listened(&self) -> bool {
        self.listens.load(Ordering::SeqCst)
    }

    // Counts a fault.
    fn fail(&mut self) -> Fault
        ensures door { self.new.door ≡ self.old.door }
        ensures given { self.new.given ≡ self.old.given }
        ensures closed { self.new.closed ≡ self.old.closed }
        ensures rose { Rose self.old.faults self.new.faults }
        ensures counts { self.new.faults ≡ min (self.old.faults + 1) (2 ^ 64 - 1) }
    {
        self.faults = self.faults.saturating_add(1);
        Fault
    }
}

// The next stream of a door. Where none can be had the door is asked again after a pause.
fn next_of<N: Net + AllocGlobal + Drop, R: Eprint + Clock>(
    rt: &R,
    door: &mut TcpDoor<N>,
) -> Result<Option<Connection<N::Stream>>, Fault>
    ensures { option_map (λ l. socket_text l.bound) door.new.listening
        ≡ option_map (λ l. socket_text l.bound) door.old.listening }
{
    for _ in 1..MOST_TRIES {
        if let Ok(next) = door.accept() {
            return Ok(next);
        }
        told::no_connection(rt, door.reason());
        thread::sleep(rt, Duration::from_secs(PAUSE_SECONDS));
    }
    door.accept()
}

impl<N: Net + AllocGlobal + Drop, R: Eprint + Clock + AllocGlobal + Copy + Drop> Door
    for SpokenDoor<N, R> {
    type Stream = LoggedStream<Connection<N::Stream>, R>;

    ghost shows = { λ d. record {
      listens_at = option_map (λ l. socket_text l.bound) d.door.listening;
      told = None;
      given = d.given;
      closed = d.closed;
      faults = d.faults;
    } };

    fn listen(&mut self, address: &mut Vec<u8>) -> Result<(), Fault> {
        match &self.news {
            Some(News::Begun { book, mode }) => told::new_store(&self.rt, book.as_str(), *mode),
            Some(News::Older { book }) => told::older_store(&self.rt, book.as_str()),
            None => {}
        }
        match self.door.listen(address) {
            Ok(()) => {
                self.listens.store(true, Ordering::SeqCst);
                Ok(())
            }
            Err(Fault) => Err(self.fail()),
        }
    }

    fn accept(&mut self) -> Result<Option<LoggedStream<Connection<N::Stream>, R>>, Fault> {
        // A number of streams past the last one of 64 bits can't be told.
        if self.given == u64::MAX {
            return Err(self.fail());
        }
        match next_of(&self.rt, &mut self.door) {
            Ok(Some(stream)) => {
                self.given += 1;
                let client = self.door.client();
                let log = self.logs.then(|| Log::new(self.rt, client));
                Ok(Some(LoggedStream {
                    stream,
                    rt: self.rt,
                    client,
                    log,
                }))
            }
            Ok(None) => {
                self.closed = true;
                Ok(None)
            }
            Err(Fault) => Err(self.fail()),
        }
    }

    fn ended(
        &mut self,
        number: u32,
        stream: LoggedStream<Connection<N::Stream>, R>,
        end: SessionEnd,
    ) {
        let _ = (number, stream, end);
    }
}
