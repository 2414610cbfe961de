//! A server of two sessions at once, of which the first waits for the second.
use crate::memory::{Given, HELLO, Left, octets, serve, stream};
use ov_base::{Mode, Octets};
use ov_disk::MemDisk;
use ov_session::{Gate, OpenGate, SessionEnd};
use std::alloc::Global;
use std::process::Abort;
use std::sync::Arc;
use std::sync::atomic::{AtomicBool, Ordering};
use std::test::Fail;
use std::thread;

/// Two Hellos with their length fields.
const TWO_HELLOS: &[u8] = &[0, 0, 0, 1, 1, 0, 0, 0, 1, 1];

/// What an empty store in Full mode answers to a Hello: its mode, its epoch and its check value.
const WELCOME: &[u8] = b"\x00\x00\x00\x26\x81\x00\x00\x00\x00\x00\
    \x11\x11\x11\x11\x11\x11\x11\x11\x11\x11\x11\x11\x11\x11\x11\x11\
    \x11\x11\x11\x11\x11\x11\x11\x11\x11\x11\x11\x11\x11\x11\x11\x11";

/// Holds the first request of the first session until the second session has come to its second.
/// Whoever made it has the flags too.
#[derive(Drop)]
struct SecondFirst {
    came: Arc<AtomicBool, Global>,
    held: Arc<AtomicBool, Global>,
}

/// Gives the processor to others for a while.
fn wait_a_little() {
    for _ in 0..1_000u32 {
        thread::yield_now();
    }
}

impl SecondFirst {
    /// Waits until the second session has come to its second request, and gives up in the end.
    fn wait(&self) {
        for _ in 0..10_000u32 {
            if self.came.load(Ordering::SeqCst) {
                self.held.store(true, Ordering::SeqCst);
                return;
            }
            wait_a_little();
        }
    }
}

impl Gate for SecondFirst {
    ghost was_told = { λ _ _ _ _ _. Unit {0} };

    fn pause<A>(&self, session: u32, request: u32, asker: &A) {
        let _ = asker;
        match (session, request) {
            (0, 0) => self.wait(),
            (1, 1) => self.came.store(true, Ordering::SeqCst),
            _ => {}
        }
    }
}

/// A flag that isn't set.
fn flag(alloc: Global) -> Result<Arc<AtomicBool, Global>, Fail> {
    Ok(Arc::new(alloc, AtomicBool::new(false))?)
}

/// What a server of two sessions is given: a Hello of the first, and two of the second.
fn given(rt: &impl Abort, alloc: Global) -> Result<Given, Fail> {
    let mut streams = Vec::new(alloc);
    streams.push(stream(rt, alloc, HELLO))?;
    streams.push(stream(rt, alloc, TWO_HELLOS))?;
    Ok(Given {
        mode: Mode::Full,
        sessions: 2,
        disk: MemDisk::new(alloc),
        streams,
        door_fails: Octets::new(alloc),
        out_fails: octets(rt, alloc, &[]),
    })
}

/// The stream of this number was answered whole, by so many Welcomes.
fn expect_welcomes(rt: &impl Abort, left: &Left, number: usize, count: usize) -> Result<(), Fail> {
    let Some(back) = left.door.back(number) else {
        return Err(Fail::from("not taken back"));
    };
    let mut rest = back.stream.sink.written();
    for _ in 0..count {
        rest = rest.strip_prefix(WELCOME).ok_or("a Welcome")?;
    }
    assert!(rt; rest.is_empty());
    assert_eq!(rt; back.ending, SessionEnd::End);
    Ok(())
}

/// The server served both streams, and said so.
fn expect_both(rt: &impl Abort, left: &Left) -> Result<(), Fail> {
    assert_eq!(rt; left.hosted.status, 0);
    assert_eq!(rt;
        left.out.written(),
        b"listening memory\nserved 2\n".as_slice()
    );
    expect_welcomes(rt, left, 0, 1)?;
    expect_welcomes(rt, left, 1, 2)
}

#[test]
fn the_first_session_waits_for_the_second(rt: HostRuntime) -> Result<(), Fail> {
    let alloc = rt.alloc();
    let (came, held) = (flag(alloc)?, flag(alloc)?);
    let gate = SecondFirst {
        came: came.clone()?,
        held: held.clone()?,
    };
    let left = serve(&rt, alloc, given(&rt, alloc)?, gate, true);
    assert!(rt; came.load(Ordering::SeqCst));
    assert!(rt; held.load(Ordering::SeqCst));
    assert_eq!(rt; left.threads, 2);
    expect_both(&rt, &left)
}

#[test]
fn a_server_without_threads_answers_both(rt: HostRuntime) -> Result<(), Fail> {
    let alloc = rt.alloc();
    let left = serve(&rt, alloc, given(&rt, alloc)?, OpenGate, false);
    assert_eq!(rt; left.threads, 0);
    expect_both(&rt, &left)
}
