//! One pass of two that asks, against the bytes of another program.
use crate::frames::{failing_server, server};
use crate::pair::{Pair, ask, close, share};
use ov_peer::Answerer;
use std::alloc::Global;
use std::process::Abort;
use std::sync::Wait;
use std::test::Fail;

/// The enrolment of a at epoch 0, with the owner's tag under a surface master of 32 bytes 7.
const ENROL_A: &[u8] = b"\x04\x00\x00\x00\x00\x01\x01a\
    \x1f\xf8\x31\xf8\xe8\x24\xa4\xa6\xef\x38\xf1\xc9\x8b\x98\x69\x9a\
    \x2d\xcb\xef\xc3\xdd\x3a\xfe\xd8\xf3\x79\x44\xdf\x15\x27\xf2\xb9";

/// What the server answers to it.
const ACCEPTED_1: &[u8] = b"\x84\x00\x00\x00\x01";

/// What the server then answers to a Hello: Full mode, epoch 1, and its check value.
const WELCOME_1: &[u8] = b"\x81\x00\x00\x00\x00\x01\
    \x11\x11\x11\x11\x11\x11\x11\x11\x11\x11\x11\x11\x11\x11\x11\x11\
    \x11\x11\x11\x11\x11\x11\x11\x11\x11\x11\x11\x11\x11\x11\x11\x11";

/// What it answers where its disk failed, in this update or in one before.
const DISK_FAILED: &[u8] = b"\x8d";

/// The first pass is answered so.
fn expect_reply<R: Abort + Wait, V: Answerer>(
    rt: &R,
    alloc: Global,
    pair: &mut Pair<V>,
    request: &[u8],
    reply: &[u8],
) {
    let mut found = Vec::new(alloc);
    assert!(rt; ask(rt, &pair.shared, &mut pair.first, request, &mut found));
    assert_eq!(rt; found.as_slice(), reply);
}

/// The second pass is answered so.
fn expect_second_reply<R: Abort + Wait, V: Answerer>(
    rt: &R,
    alloc: Global,
    pair: &mut Pair<V>,
    request: &[u8],
    reply: &[u8],
) {
    let mut found = Vec::new(alloc);
    assert!(rt; ask(rt, &pair.shared, &mut pair.second, request, &mut found));
    assert_eq!(rt; found.as_slice(), reply);
}

/// Both passes are told this epoch.
fn expect_epochs<V: Answerer>(rt: &impl Abort, pair: &mut Pair<V>, epoch: u32) {
    assert_eq!(rt; pair.shared.epoch(&mut pair.first), epoch);
    assert_eq!(rt; pair.shared.epoch(&mut pair.second), epoch);
}

#[test]
fn a_pass_is_told_what_another_did(rt: HostRuntime) -> Result<(), Fail> {
    let alloc = rt.alloc();
    let mut pair = share(alloc, server(alloc)?)?;
    expect_epochs(&rt, &mut pair, 0);
    expect_reply(&rt, alloc, &mut pair, ENROL_A, ACCEPTED_1);
    expect_reply(&rt, alloc, &mut pair, b"\x01", WELCOME_1);
    expect_epochs(&rt, &mut pair, 1);
    let server = close(alloc, pair)?;
    assert_eq!(rt; server.epoch(), 1);
    Ok(())
}

/// The disk fails in an update of the first pass: no pass has one accepted then, and questions are
/// answered.
#[test]
fn a_failed_disk_is_told_to_both_passes(rt: HostRuntime) -> Result<(), Fail> {
    let alloc = rt.alloc();
    let mut pair = share(alloc, failing_server(alloc)?)?;
    expect_reply(&rt, alloc, &mut pair, ENROL_A, DISK_FAILED);
    expect_second_reply(&rt, alloc, &mut pair, ENROL_A, DISK_FAILED);
    expect_reply(&rt, alloc, &mut pair, b"\x02\x05\x01a", b"\x88\x02");
    expect_epochs(&rt, &mut pair, 0);
    let server = close(alloc, pair)?;
    assert_eq!(rt; server.epoch(), 0);
    Ok(())
}
