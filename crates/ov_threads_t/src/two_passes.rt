//! Two passes on two threads, each of which enrols a hundred users.
ghost use Rattle.std.specs.Prelude.{◌≡◌};
ghost use Rattle.ov_turn.specs.Passes.{IsPassOf};

use crate::frames::{
    ACCEPTED, KNOWN, STALE, TAKEN, enrolment, epoch_in, name_of, question, server, tags,
};
use crate::pair::{Pair, ask, close, share};
use ov_peer::Answerer;
use ov_tokens::SurfaceMaster;
use ov_turn::{Pass, Shared};
use std::alloc::Global;
use std::process::Abort;
use std::sync::Wait;
use std::test::Fail;
use std::thread;
use std::thread::Threads;

/// How many users each pass enrols.
const USERS: u8 = 100;

/// How often an enrolment is sent at most: it is stale once for each enrolment of the other pass.
const TRIES: u8 = USERS + 1;

/// The epoch at which this user may be enrolled, where a server says so.
fn ask_epoch<R: Wait, V: Answerer>(
    rt: &R,
    shared: &Shared<V>,
    pass: &mut Pass<V>,
    name: [u8; 3],
    reply: &mut Vec<u8>,
) -> Option<u32>
    requires own { IsPassOf shared.now pass.old }
    ensures own { IsPassOf shared.now pass.new }
{
    if ask(rt, shared, pass, &question(name), reply) && reply.first() == Some(&KNOWN) {
        epoch_in(reply)
    } else {
        None
    }
}

/// Enrols this user, by an update that is made again as long as it is stale. Whether it was accepted.
fn enrol<R: Wait, V: Answerer>(
    rt: &R,
    shared: &Shared<V>,
    pass: &mut Pass<V>,
    tags: &SurfaceMaster,
    name: [u8; 3],
    reply: &mut Vec<u8>,
) -> bool
    requires own { IsPassOf shared.now pass.old }
    ensures own { IsPassOf shared.now pass.new }
{
    let mut next = ask_epoch(rt, shared, pass, name, reply);
    for _ in 0..TRIES {
        let Some(epoch) = next else {
            return false;
        };
        if !ask(rt, shared, pass, &enrolment(tags, epoch, name), reply) {
            return false;
        }
        next = match reply.first() {
            Some(&ACCEPTED) => return true,
            Some(&STALE) => epoch_in(reply),
            _ => None,
        };
    }
    false
}

/// Enrols the users whose names begin with this letter: the pass, and how many were accepted.
fn enrol_all<R: Wait, V: Answerer>(
    rt: &R,
    alloc: Global,
    shared: &Shared<V>,
    mut pass: Pass<V>,
    letter: u8,
) -> (Pass<V>, u32)
    requires own { IsPassOf shared.now pass }
    ensures own { IsPassOf shared.now result.0 }
{
    let tags = tags();
    let mut reply = Vec::new(alloc);
    let mut accepted = 0;
    for number in 0..USERS {
        let name = name_of(letter, number);
        if enrol(rt, shared, &mut pass, &tags, name, &mut reply) {
            accepted += 1;
        }
    }
    (pass, accepted)
}

/// Enrols the users of both letters, those of each in a thread of its own: how many were accepted.
fn enrol_both<R: Threads + Wait + Copy + Send, V: Answerer + Drop + Send>(
    rt: &R,
    alloc: Global,
    pair: Pair<V>,
) -> (Pair<V>, u32) {
    let Pair {
        shared,
        first,
        second,
    } = pair;
    let (there, lent) = (*rt, &shared);
    let ((first, firsts), (second, seconds)) = thread::join(
        rt,
        move || -> (Pass<V>, u32)
            requires { IsPassOf lent.now first }
            ensures { IsPassOf lent.entry.now result.0 }
        { enrol_all(&there, alloc, lent, first, b'a') },
        move || -> (Pass<V>, u32)
            requires { IsPassOf lent.now second }
            ensures { IsPassOf lent.entry.now result.0 }
        { enrol_all(rt, alloc, lent, second, b'b') },
    );
    let pair = Pair {
        shared,
        first,
        second,
    };
    (pair, firsts.saturating_add(seconds))
}

/// None of the users of this letter can be enrolled again.
fn expect_taken<V: Answerer>(rt: &impl Abort, alloc: Global, server: &mut V, letter: u8) {
    let tags = tags();
    let mut reply = Vec::new(alloc);
    for number in 0..USERS {
        let request = enrolment(&tags, server.epoch(), name_of(letter, number));
        assert!(rt; server.answer(&request, &mut reply).is_ok());
        assert_eq!(rt; reply.as_slice(), TAKEN);
    }
}

#[test]
fn two_threads_enrol_users_of_their_own(rt: HostRuntime) -> Result<(), Fail> {
    let alloc = rt.alloc();
    let pair = share(alloc, server(alloc)?)?;
    let (pair, accepted) = enrol_both(&rt, alloc, pair);
    assert_eq!(rt; accepted, 2 * u32::from(USERS));
    let mut server = close(alloc, pair)?;
    assert_eq!(rt; server.epoch(), accepted);
    expect_taken(&rt, alloc, &mut server, b'a');
    expect_taken(&rt, alloc, &mut server, b'b');
    assert_eq!(rt; server.epoch(), accepted);
    Ok(())
}
