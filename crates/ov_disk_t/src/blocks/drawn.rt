//! A run of calls that was drawn, beside what another program answers.
mod vectors;

use super::asked::{are_held, place, release};
use ov_blocks::{Extents, MAX_BLOCKS};
use std::process::Abort;
use std::test::Fail;
use vectors::{LEFT, STEPS};

/// A step, with the first block and the length of its extent.
#[derive(Clone, Copy)]
pub enum Step {
    /// A place is found for so many blocks, and they are held.
    Take(u32, u32),
    /// A range is held, or isn't free.
    Hold(u32, u32, bool),
    /// An extent is given up.
    GiveUp(u32, u32),
}

// Holds a range, or finds that it isn't free.
fn hold(rt: &impl Abort, extents: &mut Extents, first: u32, length: u32, free: bool) {
    assert!(rt; length > 0 && first < MAX_BLOCKS && length <= MAX_BLOCKS - first);
    assert_eq!(rt; extents.hold(first, length), Ok(free), "at {first}");
}

fn make(rt: &impl Abort, extents: &mut Extents, step: Step) {
    match step {
        Step::Take(first, length) => {
            assert_eq!(rt; place(rt, extents, length), first);
            hold(rt, extents, first, length, true);
        }
        Step::Hold(first, length, free) => hold(rt, extents, first, length, free),
        Step::GiveUp(first, length) => release(rt, extents, first, length),
    }
}

#[test]
fn a_drawn_run(rt: HostRuntime) -> Result<(), Fail> {
    let mut extents = Extents::new(rt.alloc());
    for step in &STEPS {
        make(&rt, &mut extents, *step);
    }
    assert!(rt; are_held(&extents, &LEFT));
    Ok(())
}
