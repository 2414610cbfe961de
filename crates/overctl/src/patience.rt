//! Waits for a server: what is said of a long one, and when one ends.
//!
//! A stream is read and written by calls that wait for a second at most, and are made again. So the
//! seconds of a wait are counted without a clock, and a signal that interrupts a call costs a second
//! of the count at most.

use ov_retry::{read_retrying, write_retrying};
use std::io;
use std::io::{ErrorKind, Read, Write};
use std::net::{Net, OpenListener, OpenStream, SocketAddr};
use std::os::fd::{AsRawFd, RawFd};
use std::time::Duration;

/// After how many seconds of waiting a line says what is waited for.
const SPEAKS_AFTER: u64 = 5;

// How many seconds one call waits.
const CALL_SECONDS: u64 = 1;

/// A net that says on standard error what is waited for, once a wait has lasted five seconds, and
/// ends a wait after so many seconds, where a number is given. Its streams wait in the same way.
#[derive(Clone, Copy)]
pub struct PatientNet<R> {
    rt: R,
    seconds: u64,
}

impl<R> PatientNet<R> {
    /// The net of this runtime, with this limit of a wait in seconds, or none.
    pub fn new(rt: R, limit: Option<u32>) -> PatientNet<R> {
        let seconds = match limit {
            Some(seconds) => u64::from(seconds),
            None => u64::MAX,
        };
        PatientNet { rt, seconds }
    }
}

impl<R: Alloc> Alloc for PatientNet<R> {
    type A = R::A;

    fn alloc(&self) -> R::A {
        self.rt.alloc()
    }
}

impl<R: Net + Eprint> PatientNet<R> {
    // Connects, and says so where that takes long. A connection that isn't made within five seconds
    // is asked for again, since the system tells nothing of one that it still makes. Nothing was
    // sent over it.
    fn connected(&self, addr: SocketAddr) -> io::Result<R::Stream> {
        let first = self.seconds.min(SPEAKS_AFTER);
        match self.rt.connect_timeout(addr, Duration::from_secs(first)) {
            Err(error) if error.kind() == ErrorKind::TimedOut && self.seconds > SPEAKS_AFTER => {
                let _ = eprintln!(self.rt;
                    "overctl: note: waiting for {addr} to take the connection"
                );
                self.connected_at_last(addr)
            }
            made => made,
        }
    }

    // Connects within the seconds that are left.
    fn connected_at_last(&self, addr: SocketAddr) -> io::Result<R::Stream> {
        if self.seconds == u64::MAX {
            return self.rt.connect(addr);
        }
        let left = self.seconds.saturating_sub(SPEAKS_AFTER);
        self.rt.connect_timeout(addr, Duration::from_secs(left))
    }
}

impl<R: Net + Eprint + Copy + Drop> Net for PatientNet<R> {
    type Stream = PatientStream<R::Stream, R>;

    type Listener = PatientListener<R::Listener, R>;

    fn bind(&self, addr: SocketAddr) -> io::Result<PatientListener<R::Listener, R>> {
        Ok(PatientListener {
            listener: self.rt.bind(addr)?,
            rt: self.rt,
            seconds: self.seconds,
        })
    }

    fn connect(&self, addr: SocketAddr) -> io::Result<PatientStream<R::Stream, R>> {
        let stream = self.connected(addr)?;
        PatientStream::new(stream, self.rt, addr, self.seconds)
    }

    fn lookup_host(&self, host: &str, port: u16, found: &mut [SocketAddr]) -> io::Result<usize> {
        self.rt.lookup_host(host, port, found)
    }
}

/// A listener whose streams are patient.
#[derive(Drop)]
pub struct PatientListener<L, R> {
    listener: L,
    rt: R,
    seconds: u64,
}

impl<L: OpenListener, R: Eprint + Copy + Drop> OpenListener for PatientListener<L, R>
where
    L::Stream: OpenStream + Drop,
{
    type Stream = PatientStream<L::Stream, R>;

    fn accept(&self) -> io::Result<(PatientStream<L::Stream, R>, SocketAddr)> {
        let (stream, client) = self.listener.accept()?;
        let stream = PatientStream::new(stream, self.rt, client, self.seconds)?;
        Ok((stream, client))
    }
}

impl<L: AsRawFd, R> AsRawFd for PatientListener<L, R> {
    fn as_raw_fd(&self) -> RawFd {
        self.listener.as_raw_fd()
    }
}

/// A stream to this address, whose reads and writes end where nothing comes, or nothing is taken,
/// for so many seconds: the kind of that error is `WouldBlock`. It says once what is waited for.
#[derive(Drop)]
pub struct PatientStream<S, R> {
    stream: S,
    rt: R,
    addr: SocketAddr,
    seconds: u64,
    has_spoken: bool,
}

impl<S: OpenStream + Drop, R: Drop> PatientStream<S, R> {
    // This stream, with the limit of a call.
    fn new(stream: S, rt: R, addr: SocketAddr, seconds: u64) -> io::Result<PatientStream<S, R>> {
        let one_call = Duration::from_secs(CALL_SECONDS);
        stream.set_read_timeout(Some(one_call))?;
        stream.set_write_timeout(Some(one_call))?;
        Ok(PatientStream {
            stream,
            rt,
            addr,
            seconds,
            has_spoken: false,
        })
    }
}

// Whether a call ended because nothing came, or nothing was taken, for as long as one call waits.
fn is_late(done: &io::Result<usize>) -> bool {
    match done {
        Ok(_) => false,
        Err(error) => error.kind() == ErrorKind::WouldBlock,
    }
}

impl<S, R: Eprint> PatientStream<S, R> {
    // Says what is waited for, where it is time for that: so many seconds of a wait have passed.
    fn speak(&mut self, passed: u64, waits_for: &str) {
        if passed >= SPEAKS_AFTER && passed < self.seconds && !self.has_spoken {
            self.has_spoken = true;
            let addr = self.addr;
            let _ = eprintln!(self.rt; "overctl: note: waiting for {addr} to {waits_for}");
        }
    }
}

impl<S: Read, R: Eprint> Read for PatientStream<S, R> {
    fn read(&mut self, buf: &mut [u8]) -> io::Result<usize> {
        for before in 0..self.seconds {
            let taken = read_retrying(&mut self.stream, buf);
            if !is_late(&taken) {
                return taken;
            }
            self.speak(before.saturating_add(1), "reply");
        }
        Err(io::Error::from(ErrorKind::WouldBlock))
    }
}

impl<S: Write, R: Eprint> Write for PatientStream<S, R> {
    fn write(&mut self, buf: &[u8]) -> io::Result<usize> {
        for before in 0..self.seconds {
            let written = write_retrying(&mut self.stream, buf);
            if !is_late(&written) {
                return written;
            }
            self.speak(before.saturating_add(1), "take the request");
        }
        Err(io::Error::from(ErrorKind::WouldBlock))
    }

    fn flush(&mut self) -> io::Result<()> {
        self.stream.flush()
    }
}

impl<S: OpenStream, R> OpenStream for PatientStream<S, R> {
    fn set_nodelay(&self, nodelay: bool) -> io::Result<()> {
        self.stream.set_nodelay(nodelay)
    }
}

impl<S: AsRawFd, R> AsRawFd for PatientStream<S, R> {
    fn as_raw_fd(&self) -> RawFd {
        self.stream.as_raw_fd()
    }
}
