//! Files that are replaced: in both modes after a history of three users, and in two short
//! histories.

use super::rows::{REPLACEMENTS, Rewritten, Step};
use super::{LENGTH, after_rows, make, make_rows, name, set_of};
use ov_base::{Mode, Refusal};
use ov_state::{Catalogue, ChainFault, State};
use std::alloc::Global;
use std::process::Abort;

/// Makes sure that the file of this number is the one of this name, at this base node.
fn expect_file(rt: &impl Abort, catalogue: &Catalogue, text: &[u8], number: u32, node: u32) {
    assert_eq!(rt; catalogue.file_number(&name(rt, text)), Some(number));
    assert_eq!(rt; catalogue.file_at(number).expect(rt, "a file").node, node);
}

/// The old files are gone, and their bytes with them. The numbers go on.
#[test]
fn replaced_files_in_both_modes(rt: HostRuntime) {
    for mode in [Mode::Delta, Mode::Full] {
        let mut catalogue = after_rows(&rt, rt.alloc(), mode);
        make_rows(&rt, rt.alloc(), &mut catalogue, &REPLACEMENTS);
        expect_file(&rt, &catalogue, b"f1", 5, 5);
        expect_file(&rt, &catalogue, b"f2", 6, 3);
        assert!(rt; catalogue.file_at(0).is_none());
        assert!(rt; catalogue.file_at(1).is_none());
        let (files, bytes) = (catalogue.sizes().files, catalogue.sizes().bytes);
        assert_eq!(rt; (files, bytes), (7, 25));
    }
}

/// The updates before a file of a and b is replaced, and those after it, in mode Delta.
const BEFORE: [(Step, &[Rewritten]); 4] = [
    (Step::Enrol(b"a"), &[]),
    (Step::Enrol(b"b"), &[]),
    (Step::Create(b"f", &[0], 0), &[(0, None, None)]),
    (Step::Grant(1, 0, true), &[]),
];

const AFTER: [(Step, &[Rewritten]); 2] = [
    (Step::Remove(1), &[]),
    (Step::Create(b"f", &[1], 0), &[(2, None, None)]),
];

/// Asks before the replacement of the file: it gets the next number and a base node of a and b,
/// with edges from their roots.
fn ask_before(rt: &impl Abort, alloc: Global, catalogue: &mut Catalogue) {
    let planned = catalogue
        .replan(alloc, &name(rt, b"f"), LENGTH)
        .expect(rt, "a plan");
    assert_eq!(rt; (planned.file, planned.cover.node), (1, 2));
    assert!(rt; planned.cover.fresh);
    assert!(rt; planned.cover.from.as_slice() == [0u32, 1].as_slice());
    assert!(rt; planned.list == set_of(rt, &[0, 1]));
    catalogue.remember(planned);
}

#[test]
fn a_file_is_granted_replaced_removed_and_created(rt: HostRuntime) {
    let alloc = rt.alloc();
    let mut catalogue: Box<Catalogue> = State::boxed(alloc, Mode::Delta, 0).expect(&rt, "memory");
    for (step, expected) in &BEFORE {
        make(&rt, alloc, &mut catalogue, *step, expected);
    }
    ask_before(&rt, alloc, &mut catalogue);
    let replace = Step::Replace(b"f", 2);
    make(&rt, alloc, &mut catalogue, replace, &[(1, None, None)]);
    expect_file(&rt, &catalogue, b"f", 1, 2);
    for (step, expected) in &AFTER {
        make(&rt, alloc, &mut catalogue, *step, expected);
    }
    expect_file(&rt, &catalogue, b"f", 2, 1);
    let none = catalogue.replan(alloc, &name(&rt, b"g"), LENGTH);
    assert_eq!(rt; none.err(), Some(ChainFault::Refused(Refusal::NoFile)));
}

/// What updates rewrite in mode Delta where a user is taken off the list of a file before it is
/// replaced.
const TAKEN_OFF: [(Step, &[Rewritten]); 5] = [
    (Step::Enrol(b"a"), &[]),
    (Step::Enrol(b"b"), &[]),
    (Step::Create(b"f", &[0, 1], 2), &[(0, None, None)]),
    (Step::Revoke(1, 0), &[(0, None, Some(0))]),
    (Step::Replace(b"f", 0), &[(1, None, None)]),
];

/// The new file is at the root of a, of which b is no holder: it needs no surface.
#[test]
fn a_replaced_file_leaves_the_node_of_old_holders(rt: HostRuntime) {
    let alloc = rt.alloc();
    let mut catalogue: Box<Catalogue> = State::boxed(alloc, Mode::Delta, 0).expect(&rt, "memory");
    for (step, expected) in &TAKEN_OFF {
        make(&rt, alloc, &mut catalogue, *step, expected);
    }
    expect_file(&rt, &catalogue, b"f", 1, 0);
    let none = catalogue.chain(alloc, &name(&rt, b"b"), &name(&rt, b"f"));
    assert_eq!(rt; none.err(), Some(ChainFault::Refused(Refusal::NoPath)));
}
