//! Callers by contracts alone, a store whose disk failed, and a store on two files.
ghost use Rattle.ov_record.specs.Briefs.{brief};
ghost use Rattle.ov_record.specs.Updates.{sealed_update};
ghost use Rattle.ov_state.specs.Plans.{IsFitting};

mod callers;

use ov_base::{Key, Mode, Name, Octets, UserSet};
use ov_disk::{Disk, FileDisk, MemDisk};
use ov_record::Update;
use ov_state::WIDTH;
use ov_store::*;
use ov_tokens::{Token, Tokens};
use std::alloc::Global;
use std::fs;
use std::process::Abort;
use std::test::Fail;

const BASE_CHECK: [u8; 32] = [0x11; 32];

/// A store doesn't look into the tokens that it is given, but only at how many there are.
const TOKEN: Token = Token { bytes: [0; 32] };

/// A surface master, or a base master. No clause says its bytes, so that no proof computes with
/// them.
fn master(byte: u8) -> Key {
    Key { bytes: [byte; 32] }
}

// ---- a small store

fn name(rt: &impl Abort, text: &[u8]) -> Name {
    Name::read(text).expect(rt, "a name")
}

/// A file for the first two users.
fn create(rt: &impl Abort, alloc: Global) -> Update<WIDTH>
    ensures { IsFitting (brief (sealed_update result)) }
{
    let mut tokens = Tokens::new(alloc);
    tokens.push(TOKEN).expect(rt, "memory");
    tokens.push(TOKEN).expect(rt, "memory");
    Update::Create {
        name: name(rt, b"f"),
        list: UserSet::empty().with(0).with(1),
        tokens,
        tag: [0; 32],
        bytes: Octets::copy(alloc, b"hello").expect(rt, "memory"),
    }
}

/// The updates of a small store: two users, a file for both, a third user, a grant and a
/// revocation.
fn update_of(rt: &impl Abort, alloc: Global, number: u32) -> Update<WIDTH>
    ensures { IsFitting (brief (sealed_update result)) }
{
    match number {
        0 => Update::Enrol {
            name: name(rt, b"alice"),
        },
        1 => Update::Enrol {
            name: name(rt, b"bob"),
        },
        2 => create(rt, alloc),
        3 => Update::Enrol {
            name: name(rt, b"carol"),
        },
        4 => Update::Grant {
            user: 2,
            file: 0,
            token: Some(TOKEN),
        },
        _ => Update::Revoke { user: 2, file: 0 },
    }
}

/// A store that is begun on a disk.
fn begun<D: Disk + Drop>(alloc: Global, disk: D, mode: Mode) -> Result<Store<D>, BeginFault> {
    match Store::begin(alloc, disk, master(7), BASE_CHECK, mode) {
        Ok(store) => Ok(store),
        Err(refused) => Err(refused.fault),
    }
}

/// Makes the update of this number, and answers how.
fn make<D: Disk + Drop>(
    rt: &impl Abort,
    alloc: Global,
    store: &mut Store<D>,
    number: u32,
) -> Result<u32, StoreFault> {
    store.update(alloc, update_of(rt, alloc, number))
}

// ---- a disk that fails

/// How many disk calls of an update come before the one that writes its commit, which fails here: the
/// record is written and synced, and then the byte is.
const BEFORE_COMMIT: u64 = 2;

/// The calls of a disk on which a store begins and makes one update.
fn calls_of_one(rt: &impl Abort, alloc: Global) -> u64 {
    let mut store = begun(alloc, MemDisk::new(alloc), Mode::Delta).expect(rt, "a store");
    assert_eq!(rt; make(rt, alloc, &mut store, 0), Ok(1));
    store.close().calls()
}

/// The update in which the disk failed says so, and each later one that the store has failed.
#[test]
fn a_failed_store_says_so(rt: HostRuntime) {
    let alloc = rt.alloc();
    let mut disk = MemDisk::new(alloc);
    let call = calls_of_one(&rt, alloc).saturating_add(BEFORE_COMMIT);
    disk.fail_at(call).expect(&rt, "memory");
    let mut store = begun(alloc, disk, Mode::Delta).expect(&rt, "a store");
    assert_eq!(rt; make(&rt, alloc, &mut store, 0), Ok(1));
    assert_eq!(rt; make(&rt, alloc, &mut store, 1), Err(StoreFault::Disk));
    assert_eq!(rt; make(&rt, alloc, &mut store, 3), Err(StoreFault::Failed));
    assert_eq!(rt; make(&rt, alloc, &mut store, 5), Err(StoreFault::Failed));
    drop(store.close());
}

// ---- two files

/// Opens the store on a disk, makes one update, and closes it. Its epoch before is answered.
fn one_more<D: Disk + Drop>(rt: &impl Abort, alloc: Global, disk: D, update: u32) -> u32 {
    let mut store = begun(alloc, disk, Mode::Full).expect(rt, "a store");
    let epoch = store.state().epoch();
    let made = make(rt, alloc, &mut store, update);
    drop(store.close());
    assert_eq!(rt; made, Ok(epoch.saturating_add(1)));
    epoch
}

#[test]
fn on_files(rt: HostRuntime) -> Result<(), Fail> {
    let alloc = rt.alloc();
    let _ = fs::remove_dir_all(&rt, "ov_store_test");
    fs::create_dir(&rt, "ov_store_test")?;
    for epoch in 0..3 {
        let disk = FileDisk::new(rt, "ov_store_test/book", "ov_store_test/blobs")?;
        assert_eq!(rt; one_more(&rt, alloc, disk, epoch), epoch);
    }
    fs::remove_dir_all(&rt, "ov_store_test")?;
    Ok(())
}
