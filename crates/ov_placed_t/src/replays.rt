//! Records of a file that is created and rewritten, and bad ones.
ghost use Rattle.std.specs.Prelude.{◌≤◌};
ghost use Rattle.ov_blocks.specs.declared.extents.TheConstants.{MAX_BLOCKS};

use crate::bodies::{
    create, create_again, create_of_first_format, enrol, grant, remove, replace, revoke,
};
use crate::replaying::replay_all;
use ov_base::{Key, Mode, Octets};
use ov_blocks::Extent;
use ov_disk::Area;
use ov_placed::*;
use ov_record::Format;
use ov_tokens::Master;
use std::alloc::Global;
use std::process::Abort;

const MASTER: Key = Key { bytes: [7; 32] };

/// Blocks of Blobs: two files of the length of this one fit.
const BLOCKS: u32 = 6;

const GATE: u64 = 78;

fn in_book(place: u64) -> Result<(), ReplayFault> {
    Err(ReplayFault::Damaged {
        area: Area::Book,
        offset: place,
    })
}

fn at_block(first: u32) -> Result<(), ReplayFault> {
    Err(ReplayFault::Damaged {
        area: Area::Blobs,
        offset: 4_096 * u64::from(first),
    })
}

fn replayed(alloc: Global, it: &mut CataloguePlaces, body: &[u8]) -> Result<(), ReplayFault> {
    replayed_as(alloc, it, Format::Second, body)
}

fn replayed_as(
    alloc: Global,
    it: &mut CataloguePlaces,
    format: Format,
    body: &[u8],
) -> Result<(), ReplayFault> {
    it.replay(alloc, &Master::new(&MASTER), format, body, GATE, BLOCKS)
}

/// An empty store, in a box, so that a test lets go of it at once.
fn empty(rt: &impl Abort, alloc: Global) -> Box<CataloguePlaces> {
    let it: CataloguePlaces = PlacedCatalogue::new(alloc, Mode::Full, 0).expect(rt, "memory");
    Box::new(alloc, it).expect(rt, "memory")
}

/// A store of two users with the file.
fn with_file(rt: &impl Abort, alloc: Global) -> Box<CataloguePlaces> {
    let mut it = empty(rt, alloc);
    assert!(rt; replayed(alloc, &mut it, &enrol(rt, alloc, b"a")).is_ok());
    assert!(rt; replayed(alloc, &mut it, &enrol(rt, alloc, b"b")).is_ok());
    assert!(rt; it.first_block(0).is_none());
    assert!(rt; replayed(alloc, &mut it, &create(rt, alloc, &[0])).is_ok());
    it
}

/// Whether this extent alone is held, as that of file 0.
fn holds(it: &CataloguePlaces, first: u32) -> bool {
    let (front, back) = it.extents().held();
    let held = [Extent { first, length: 3 }];
    it.first_block(0) == Some(first) && front.iter().chain(back).eq(held.iter())
}

#[test]
fn a_file_goes_to_and_fro(rt: HostRuntime) {
    let alloc = rt.alloc();
    let mut it = with_file(&rt, alloc);
    assert!(rt; holds(&it, 0));
    assert!(rt; replayed(alloc, &mut it, &revoke(&rt, alloc, 1, &[3])).is_ok());
    assert!(rt; holds(&it, 3));
    assert!(rt; replayed(alloc, &mut it, &grant(&rt, alloc, 1, &[0])).is_ok());
    assert!(rt; holds(&it, 0));
    assert!(rt; it.first_block(1).is_none());
}

#[test]
fn a_creation_of_either_format_is_replayed_as_that(rt: HostRuntime) {
    let alloc = rt.alloc();
    let (old, new) = (create_of_first_format(&rt, alloc), create(&rt, alloc, &[0]));
    let mut it = empty(&rt, alloc);
    assert!(rt; replayed_as(alloc, &mut it, Format::First, &enrol(&rt, alloc, b"a")).is_ok());
    assert!(rt; replayed(alloc, &mut it, &enrol(&rt, alloc, b"b")).is_ok());
    // With a set of 128 bytes the old body ends in the tag. With one of 32 the new body has no token,
    // which isn't what the layers want.
    assert!(rt; replayed_as(alloc, &mut it, Format::Second, &old) == in_book(GATE + 5 + 141));
    assert!(rt; replayed_as(alloc, &mut it, Format::First, &new) == in_book(GATE));
    assert!(rt; replayed_as(alloc, &mut it, Format::First, &old).is_ok());
    assert!(rt; holds(&it, 0));
}

#[test]
fn bad_records_are_named(rt: HostRuntime) {
    let alloc = rt.alloc();
    let mut it = with_file(&rt, alloc);
    // No update begins with 9.
    assert!(rt; replayed(alloc, &mut it, &[9]) == in_book(GATE + 5));
    assert!(rt; replayed(alloc, &mut it, &enrol(&rt, alloc, b"a")) == in_book(GATE));
    // One first block too few, and one too many, behind the kind and two numbers.
    assert!(rt; replayed(alloc, &mut it, &revoke(&rt, alloc, 1, &[])) == in_book(GATE + 5 + 9));
    let two = revoke(&rt, alloc, 1, &[3, 3]);
    assert!(rt; replayed(alloc, &mut it, &two) == in_book(GATE + 5 + 13));
    // Block 2 is in use, and the third block from 4 on is past the end.
    assert!(rt; replayed(alloc, &mut it, &revoke(&rt, alloc, 1, &[2])) == at_block(2));
    assert!(rt; replayed(alloc, &mut it, &revoke(&rt, alloc, 1, &[4])) == at_block(4));
    assert!(rt; holds(&it, 0));
    assert!(rt; replayed(alloc, &mut it, &revoke(&rt, alloc, 1, &[3])).is_ok());
    assert!(rt; holds(&it, 3));
}

#[test]
fn a_removed_file_gives_its_blocks_back(rt: HostRuntime) {
    let alloc = rt.alloc();
    let mut it = with_file(&rt, alloc);
    assert!(rt; replayed(alloc, &mut it, &remove(&rt, alloc, 0, &[])).is_ok());
    let (front, back) = it.extents().held();
    assert!(rt; front.is_empty() && back.is_empty());
    assert!(rt; it.first_block(0).is_none());
    // The next file of this name has another number, and may have the same blocks.
    assert!(rt; replayed(alloc, &mut it, &create_again(&rt, alloc, &[0])).is_ok());
    assert!(rt; it.first_block(0).is_none());
    assert!(rt; it.first_block(1) == Some(0));
    assert!(rt; replayed(alloc, &mut it, &remove(&rt, alloc, 1, &[])).is_ok());
    assert!(rt; replayed(alloc, &mut it, &create_again(&rt, alloc, &[3])).is_ok());
    assert!(rt; it.first_block(2) == Some(3));
}

#[test]
fn bad_removals_are_named(rt: HostRuntime) {
    let alloc = rt.alloc();
    let mut it = with_file(&rt, alloc);
    // There is no such file, and no removal in a record of the first format.
    assert!(rt; replayed(alloc, &mut it, &remove(&rt, alloc, 1, &[])) == in_book(GATE));
    let body = remove(&rt, alloc, 0, &[]);
    assert!(rt; replayed_as(alloc, &mut it, Format::First, &body) == in_book(GATE + 5));
    // It has no first block, behind the kind and the file.
    let one = remove(&rt, alloc, 0, &[3]);
    assert!(rt; replayed(alloc, &mut it, &one) == in_book(GATE + 5 + 5));
    assert!(rt; holds(&it, 0));
    // A file that is removed is removed once, and rewritten no more.
    assert!(rt; replayed(alloc, &mut it, &body).is_ok());
    assert!(rt; replayed(alloc, &mut it, &body) == in_book(GATE));
    assert!(rt; replayed(alloc, &mut it, &revoke(&rt, alloc, 1, &[3])) == in_book(GATE));
}

#[test]
fn a_replaced_file_gives_its_blocks_back(rt: HostRuntime) {
    let alloc = rt.alloc();
    let mut it = with_file(&rt, alloc);
    // The blocks of the old file are in use until it is replaced.
    assert!(rt; replayed(alloc, &mut it, &replace(&rt, alloc, b"f", &[0])) == at_block(0));
    assert!(rt; holds(&it, 0));
    assert!(rt; replayed(alloc, &mut it, &replace(&rt, alloc, b"f", &[3])).is_ok());
    assert!(rt; it.first_block(0).is_none());
    assert!(rt; it.first_block(1) == Some(3));
    // The new file has the name, so it is replaced by the next record, at the blocks of the first.
    assert!(rt; replayed(alloc, &mut it, &replace(&rt, alloc, b"f", &[0])).is_ok());
    assert!(rt; it.first_block(1).is_none());
    assert!(rt; it.first_block(2) == Some(0));
    let (front, back) = it.extents().held();
    let held = [Extent {
        first: 0,
        length: 3,
    }];
    assert!(rt; front.iter().chain(back).eq(held.iter()));
}

#[test]
fn bad_replacements_are_named(rt: HostRuntime) {
    let alloc = rt.alloc();
    let mut it = with_file(&rt, alloc);
    // No file has this name, and there is no replacement in a record of the first format.
    assert!(rt; replayed(alloc, &mut it, &replace(&rt, alloc, b"g", &[3])) == in_book(GATE));
    let body = replace(&rt, alloc, b"f", &[3]);
    assert!(rt; replayed_as(alloc, &mut it, Format::First, &body) == in_book(GATE + 5));
    // It has one first block, behind the kind, the name, the number of tokens, the tag and the
    // length.
    let none = replace(&rt, alloc, b"f", &[]);
    assert!(rt; replayed(alloc, &mut it, &none) == in_book(GATE + 5 + 41));
    assert!(rt; holds(&it, 0));
    // The name is given up with a file that is removed.
    assert!(rt; replayed(alloc, &mut it, &remove(&rt, alloc, 0, &[])).is_ok());
    assert!(rt; replayed(alloc, &mut it, &body) == in_book(GATE));
}

#[test]
fn records_are_replayed_in_order(rt: HostRuntime) {
    let alloc = rt.alloc();
    let mut bodies = Vec::new(alloc);
    let all = [
        enrol(&rt, alloc, b"a"),
        enrol(&rt, alloc, b"b"),
        create(&rt, alloc, &[0]),
        revoke(&rt, alloc, 1, &[3]),
    ];
    for body in all {
        bodies.push(Octets::from_vec(body)).expect(&rt, "memory");
    }
    let surface = Master::new(&MASTER);
    let made = replay_all(alloc, &surface, Mode::Full, 0, &bodies, BLOCKS);
    assert!(rt; made.is_ok_and(|it| holds(&it, 3)));
    // Over three blocks the last record's extent is past the end.
    let made = replay_all(alloc, &surface, Mode::Full, 0, &bodies, 3);
    assert!(rt; made.err() == at_block(3).err());
}
