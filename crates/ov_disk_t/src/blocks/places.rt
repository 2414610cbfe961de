//! Which blocks are taken: rows by hand.
use super::asked::{are_held, count, place, place_from, release, release_all};
use ov_base::Memory;
use ov_blocks::{BLOCK_BYTES, Extents, MAX_BLOCKS};
use std::alloc::{AllocError, Global};
use std::process::Abort;
use std::test::Fail;

// These extents are held, each with its first block and its length.
fn holding(rt: &impl Abort, alloc: Global, held: &[(u32, u32)]) -> Result<Extents, Fail> {
    let mut extents = Extents::new(alloc);
    for (first, length) in held {
        assert!(rt; *length > 0 && *first < MAX_BLOCKS && *length <= MAX_BLOCKS - *first);
        assert_eq!(rt; extents.hold(*first, *length), Ok(true));
    }
    Ok(extents)
}

// What is held, the length that is wanted, and its place.
const PLACES: [(&[(u32, u32)], u32, u32); 15] = [
    (&[], 1, 0),
    (&[], 4_096, 0),
    (&[(0, 3)], 3, 3),
    (&[(3, 3)], 3, 0),
    (&[(3, 3)], 4, 6),
    // A gap that just fits, one that is too short by a block, and the first of two that fit.
    (&[(0, 2), (5, 1)], 3, 2),
    (&[(0, 2), (5, 1)], 4, 6),
    (&[(0, 2), (5, 1), (9, 1)], 3, 2),
    (&[(0, 2), (5, 1), (9, 1)], 4, 10),
    // Each gap is too short by a block, so that the run begins as far behind as it may.
    (&[(1, 1), (3, 1), (5, 1)], 2, 6),
    (&[(3, 1), (7, 5), (15, 2)], 4, 17),
    // No gap: the run begins where the last extent ends.
    (&[(0, 2), (2, 1), (3, 4)], 1, 7),
    // An extent in front of a long gap, whatever comes behind it.
    (&[(0, 1), (5_000, 4_096)], 4_096, 1),
    (&[(2_147_479_552, 4_096)], 4_096, 0),
    (
        &[(0, 4_096), (4_096, 1), (2_147_479_552, 4_096)],
        4_096,
        4_097,
    ),
];

#[test]
fn lowest_runs(rt: HostRuntime) -> Result<(), Fail> {
    for (held, length, first) in &PLACES {
        let extents = holding(&rt, rt.alloc(), *held)?;
        assert_eq!(rt;
            place(&rt, &extents, *length),
            *first,
            "{length} beside {held:?}"
        );
        // A search that takes up on the way there, or there, ends there, too.
        assert_eq!(rt; place_from(&rt, &extents, *length, *first / 2), *first);
        assert_eq!(rt; place_from(&rt, &extents, *length, *first), *first);
    }
    Ok(())
}

// As many extents of a block as a store has files, with one free block in front of each but the
// first: the place for two blocks is behind them all.
#[test]
fn many_extents(rt: HostRuntime) -> Result<(), Fail> {
    let mut extents = Extents::new(rt.alloc());
    for k in 0..16_384_u32 {
        assert_eq!(rt; extents.hold(2 * k, 1), Ok(true));
    }
    assert_eq!(rt; count(&extents), 16_384);
    assert_eq!(rt; place(&rt, &extents, 1), 1);
    assert_eq!(rt; place(&rt, &extents, 2), 32_767);
    Ok(())
}

// What is held, a range that is to be held besides, and whether it is free.
const HOLDS: [(&[(u32, u32)], u32, u32, bool); 12] = [
    (&[], 0, 1, true),
    (&[(3, 3)], 0, 3, true),
    (&[(3, 3)], 6, 1, true),
    (&[(3, 3)], 2, 2, false),
    (&[(3, 3)], 5, 1, false),
    (&[(3, 3)], 3, 3, false),
    (&[(3, 3)], 4, 1, false),
    (&[(3, 3)], 0, 9, false),
    (&[(0, 2), (5, 1)], 2, 3, true),
    (&[(0, 2), (5, 1)], 2, 4, false),
    // The last block, which is also an extent's.
    (&[(0, 2)], 2_147_483_647, 1, true),
    (&[(2_147_479_552, 4_096)], 2_147_483_647, 1, false),
];

#[test]
fn ranges_that_are_held_or_free(rt: HostRuntime) -> Result<(), Fail> {
    for (held, first, length, free) in &HOLDS {
        let mut extents = holding(&rt, rt.alloc(), *held)?;
        let before = count(&extents);
        assert!(rt; *length > 0 && *first < MAX_BLOCKS && *length <= MAX_BLOCKS - *first);
        assert_eq!(rt;
            extents.hold(*first, *length),
            Ok(*free),
            "{first} beside {held:?}"
        );
        assert_eq!(rt; count(&extents), before.saturating_add(usize::from(*free)));
    }
    Ok(())
}

// Ten extents that are held.
const TEN: [(u32, u32); 10] = [
    (0, 2),
    (2, 1),
    (5, 4),
    (9, 1),
    (12, 1),
    (14, 1),
    (16, 3),
    (20, 1),
    (21, 1),
    (23, 2),
];

// The blocks at which some of the ten are given up, and what is left: eight of them go one by one,
// and nine in one walk.
const GIVEN_UP: [(&[u32], &[(u32, u32)]); 4] = [
    (&[], &TEN),
    (&[0, 2, 5, 12, 14, 20, 21, 23], &[(9, 1), (16, 3)]),
    (&[0, 2, 5, 9, 12, 14, 20, 21, 23], &[(16, 3)]),
    (&[0, 2, 5, 9, 12, 14, 16, 20, 21, 23], &[]),
];

#[test]
fn extents_given_up_at_once(rt: HostRuntime) -> Result<(), Fail> {
    for (gone, left) in &GIVEN_UP {
        let mut extents = holding(&rt, rt.alloc(), &TEN)?;
        release_all(&rt, &mut extents, *gone);
        assert!(rt; are_held(&extents, *left), "{gone:?}");
    }
    Ok(())
}

// Blocks that a file of 8,193 bytes takes.
const THREE: u32 = (8_193 + BLOCK_BYTES - 1) / BLOCK_BYTES;

// A file is written, rewritten behind itself, and then in front again.
#[test]
fn blocks_are_used_again(rt: HostRuntime) -> Result<(), Fail> {
    let mut extents = Extents::new(rt.alloc());
    assert_eq!(rt; THREE, 3);
    assert_eq!(rt; place(&rt, &extents, THREE), 0);
    assert_eq!(rt; extents.hold(0, THREE), Ok(true));
    assert_eq!(rt; place(&rt, &extents, THREE), 3);
    assert_eq!(rt; extents.hold(3, THREE), Ok(true));
    release(&rt, &mut extents, 0, THREE);
    assert_eq!(rt; place(&rt, &extents, THREE), 0);
    assert_eq!(rt; place(&rt, &extents, THREE + 1), 6);
    assert_eq!(rt; extents.hold(0, THREE), Ok(true));
    release(&rt, &mut extents, 3, THREE);
    assert!(rt; are_held(&extents, &[(0, 3)]));
    Ok(())
}

// What is held, which of them is given up, a length that is wanted then, and its place: in the gap
// that was left, with what was free on both its sides, or elsewhere.
const BESIDE_ONE_GIVEN_UP: [(&[(u32, u32)], (u32, u32), u32, u32); 9] = [
    (&[(0, 2)], (0, 2), 4_096, 0),
    (&[(0, 2), (2, 3), (5, 1)], (2, 3), 3, 2),
    (&[(0, 2), (2, 3), (5, 1)], (2, 3), 4, 6),
    (&[(0, 2), (3, 2), (6, 1)], (3, 2), 4, 2),
    (&[(0, 2), (3, 2), (6, 1)], (3, 2), 5, 7),
    (&[(0, 2), (2, 3)], (2, 3), 9, 2),
    (&[(0, 2), (2, 3), (5, 1)], (0, 2), 2, 0),
    // A gap in front of it is long enough.
    (&[(3, 2), (5, 3)], (5, 3), 3, 0),
    (&[(1, 2), (5, 3), (9, 1)], (5, 3), 2, 3),
];

#[test]
fn places_beside_one_given_up(rt: HostRuntime) -> Result<(), Fail> {
    for (held, gone, length, first) in &BESIDE_ONE_GIVEN_UP {
        let mut extents = holding(&rt, rt.alloc(), *held)?;
        release(&rt, &mut extents, gone.0, gone.1);
        assert_eq!(rt;
            place(&rt, &extents, *length),
            *first,
            "{length} without {gone:?}"
        );
        assert_eq!(rt; place_from(&rt, &extents, *length, *first), *first);
        assert!(rt; *length > 0 && *first < MAX_BLOCKS && *length <= MAX_BLOCKS - *first);
        assert_eq!(rt; extents.hold(*first, *length), Ok(true));
        assert_eq!(rt; count(&extents), held.len());
    }
    Ok(())
}

// Whether a range is held, where the second of three extents was given up.
const HOLDS_BESIDE: [(u32, u32, bool, &[(u32, u32)]); 7] = [
    (2, 3, true, &[(0, 2), (2, 3), (6, 1)]),
    (3, 2, true, &[(0, 2), (3, 2), (6, 1)]),
    (2, 4, true, &[(0, 2), (2, 4), (6, 1)]),
    (2, 5, false, &[(0, 2), (6, 1)]),
    (1, 2, false, &[(0, 2), (6, 1)]),
    (7, 1, true, &[(0, 2), (6, 1), (7, 1)]),
    (6, 1, false, &[(0, 2), (6, 1)]),
];

#[test]
fn ranges_beside_one_given_up(rt: HostRuntime) -> Result<(), Fail> {
    for (first, length, free, left) in &HOLDS_BESIDE {
        let mut extents = holding(&rt, rt.alloc(), &[(0, 2), (2, 3), (6, 1)])?;
        release(&rt, &mut extents, 2, 3);
        assert!(rt; are_held(&extents, &[(0, 2), (6, 1)]));
        assert!(rt; *length > 0 && *first < MAX_BLOCKS && *length <= MAX_BLOCKS - *first);
        assert_eq!(rt; extents.hold(*first, *length), Ok(*free), "{first}");
        assert!(rt; are_held(&extents, *left), "{first}");
    }
    Ok(())
}
