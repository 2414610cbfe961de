//! Stores of the first format: the step record, which an append writes before its own record.
ghost use Rattle.std.specs.Prelude.{◌≡◌, ◌<◌, IfSome, length, false};
ghost use Rattle.ov_journal.specs.Log.{Stands};

use crate::journal::{NEW_STORE, bodies, expect_stops, put, standing};
use ov_base::Octets;
use ov_disk::{Disk, MemDisk, Tear};
use ov_journal::{Found, Journal};
use std::alloc::{AllocError, Global};
use std::process::Abort;
use std::test::Fail;

// Two records, and a gate that isn't open.
const TWO: [u8; 23] = *b"\x01\0\0\0\x07\x01\x05alice\x01\0\0\0\x05\x01\x03bob\0";

// A third record's body.
const CAROL: [u8; 7] = *b"\x01\x05carol";

// The step record and the third record, from the gate behind the second one on.
const STEP_AND_CAROL: [u8; 19] = *b"\x01\0\0\0\x01\x05\x01\0\0\0\x07\x01\x05carol\0";

// How many calls of a disk open the store with two records: a sync, a length, and what is read of
// the header and at three gates.
const OPENING: u64 = 6;

// A store of the first format with these bytes behind its header.
fn old_store(alloc: Global, records: &[u8]) -> Result<MemDisk, AllocError> {
    let mut book = NEW_STORE.to_vec(alloc)?;
    if let Some(digit) = book.get_mut(8) {
        *digit = b'1';
    }
    book.truncate(78);
    book.extend_from_slice(records)?;
    let blobs = Octets::from_vec(Vec::new(alloc));
    Ok(MemDisk::of(alloc, Octets::from_vec(book), blobs))
}

// The journal of a store that is there, whole and with fewer than nine records.
fn opened<D: Disk>(alloc: Global, disk: &mut D) -> Option<Journal>
    ensures whole { IfSome result (λ journal. journal.bad ≡ false) }
    ensures count { IfSome result (λ journal. length journal.offsets < 9) }
    ensures stands { IfSome result (λ journal. Stands D.tells journal disk.new) }
{
    let Ok(
        Found::Born {
            journal,
            bad: None,
            ..
        },
    ) = Journal::begin(alloc, disk)
    else {
        return None;
    };
    if journal.count() < 9 {
        Some(journal)
    } else {
        None
    }
}

// Makes sure of how many records an old store with these bytes has, of how many of them are in the
// first form, and of whether the step record is due.
fn expect_old(
    rt: &impl Abort,
    alloc: Global,
    records: &[u8],
    count: u64,
    old: u64,
    is_due: bool,
) -> Result<(), Fail> {
    let mut disk = old_store(alloc, records)?;
    let journal = opened(alloc, &mut disk).ok_or("a store")?;
    assert_eq!(rt; journal.count(), count);
    assert_eq!(rt; journal.step_is_due(), is_due);
    for i in 0..9 {
        assert_eq!(rt; journal.is_old(i), i < old, "record {i}");
    }
    Ok(())
}

#[test]
fn which_records_are_old(rt: HostRuntime) -> Result<(), Fail> {
    let alloc = rt.alloc();
    expect_old(&rt, alloc, b"\0", 0, 0, true)?;
    expect_old(&rt, alloc, &TWO, 2, 2, true)?;
    // The step record in front of all records, behind all, and between two.
    expect_old(
        &rt,
        alloc,
        b"\x01\0\0\0\x01\x05\x01\0\0\0\x01a\0",
        1,
        0,
        false,
    )?;
    expect_old(
        &rt,
        alloc,
        b"\x01\0\0\0\x01a\x01\0\0\0\x01\x05\0",
        1,
        1,
        false,
    )?;
    let between = b"\x01\0\0\0\x01a\x01\0\0\0\x01\x05\x01\0\0\0\x01b\0";
    expect_old(&rt, alloc, between, 2, 1, false)?;
    // A body of two bytes is none, whatever the first is.
    expect_old(&rt, alloc, b"\x01\0\0\0\x02\x05\x05\0", 1, 1, true)?;
    Ok(())
}

#[test]
fn a_second_step_record_is_a_body(rt: HostRuntime) -> Result<(), Fail> {
    let alloc = rt.alloc();
    let twice = b"\x01\0\0\0\x02ab\x01\0\0\0\x01\x05\x01\0\0\0\x01\x05\0";
    expect_old(&rt, alloc, twice, 2, 1, false)?;
    let mut disk = old_store(alloc, twice)?;
    let journal = opened(alloc, &mut disk).ok_or("a store")?;
    assert_eq!(rt;
        bodies(alloc, &mut disk, &journal)?.as_slice(),
        b"ab\x05".as_slice()
    );
    Ok(())
}

// An old store with two records and then a third, on a disk that fails at one call of the append,
// and whether all went well.
fn stepped(rt: &impl Abort, alloc: Global, fail: u64) -> Result<(MemDisk, Journal, bool), Fail> {
    let mut disk = old_store(alloc, &TWO)?;
    disk.fail_at(OPENING.saturating_add(fail))?;
    let mut journal = opened(alloc, &mut disk).ok_or("a store")?;
    assert_eq!(rt; disk.calls(), OPENING);
    let done = put(&mut journal, &mut disk, &CAROL).is_ok();
    Ok((disk, journal, done))
}

#[test]
fn the_step_record_comes_first(rt: HostRuntime) -> Result<(), Fail> {
    let alloc = rt.alloc();
    let (disk, journal, done) = stepped(&rt, alloc, 99)?;
    assert!(rt; done);
    assert_eq!(rt; disk.calls(), OPENING + 8);
    assert_eq!(rt; disk.book().len(), 119);
    assert_eq!(rt; disk.book().get(100..), Some(STEP_AND_CAROL.as_slice()));
    assert!(rt; journal.count() == 3);
    assert_eq!(rt; journal.offset(2), 106);
    assert!(rt; !journal.step_is_due() && journal.is_old(1) && !journal.is_old(2));
    Ok(())
}

#[test]
fn the_next_append_writes_no_other(rt: HostRuntime) -> Result<(), Fail> {
    let alloc = rt.alloc();
    let (mut disk, _, _) = stepped(&rt, alloc, 99)?;
    let mut journal = opened(alloc, &mut disk).ok_or("a store")?;
    put(&mut journal, &mut disk, b"d")?;
    assert_eq!(rt;
        disk.book().get(118..),
        Some(b"\x01\0\0\0\x01d\0".as_slice())
    );
    let journal = opened(alloc, &mut disk).ok_or("a store")?;
    let all = bodies(alloc, &mut disk, &journal)?;
    assert_eq!(rt;
        all.as_slice(),
        b"\x01\x05alice\x01\x03bob\x01\x05carold".as_slice()
    );
    Ok(())
}

#[test]
fn a_stop_between_the_two_appends(rt: HostRuntime) -> Result<(), Fail> {
    let alloc = rt.alloc();
    let (disk, _, _) = stepped(&rt, alloc, 99)?;
    let least = [Tear::Old, Tear::Fill(0), Tear::Fill(255)];
    expect_stops(&rt, alloc, &disk, &least, b"222222222222223")?;
    let most = [Tear::New, Tear::Fill(1)];
    expect_stops(&rt, alloc, &disk, &most, b"222222222222233")
}

// What is on that disk where one call of the append failed, if nothing since the last sync is kept,
// or all is. The journal is as it was.
fn left_by_fault(rt: &impl Abort, alloc: Global, call: u64, tear: Tear) -> Result<u8, Fail> {
    let (disk, journal, done) = stepped(rt, alloc, call)?;
    assert!(rt; !done);
    assert_eq!(rt; journal.count(), 2, "a fault at {call}");
    assert!(rt; journal.step_is_due());
    Ok(standing(alloc, &mut disk.image(disk.calls(), tear)?))
}

#[test]
fn a_fault_leaves_the_journal(rt: HostRuntime) -> Result<(), Fail> {
    let alloc = rt.alloc();
    let mut least = Vec::new(alloc);
    let mut most = Vec::new(alloc);
    for call in 0..8 {
        least.push(left_by_fault(&rt, alloc, call, Tear::Old)?)?;
        most.push(left_by_fault(&rt, alloc, call, Tear::New)?)?;
    }
    assert_eq!(rt; least.as_slice(), b"22222222".as_slice());
    assert_eq!(rt; most.as_slice(), b"22222223".as_slice());
    Ok(())
}
