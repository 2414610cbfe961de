//! A history in both modes with the updates that it refuses, files that are removed and replaced,
//! chains over its tokens, a small team's day, and the last epoch.
ghost use Rattle.ov_state.specs.Plans.{plain_brief, IsFitting};

mod replaced;
mod rows;
mod team;

use ov_base::limits::{LAST_EPOCH, MAX_USERS};
use ov_base::{Key, Mode, Name, Octets, Refusal, UserSet};
use ov_chain::walk_to_access;
use ov_graph::Graph;
use ov_record::Update;
use ov_state::*;
use ov_tokens::{Master, Token, Tokens};
use rows::{FAULTS, FAULTS_BEHIND_IT, READINGS, REMOVAL, ROWS, Reading, Rewritten, Row, Step};
use std::alloc::Global;
use std::process::Abort;

const MASTER: Key = Key { bytes: [7; 32] };

/// A catalogue doesn't look into the tokens that it is given, but only at how many there are.
const TOKEN: Token = Token { bytes: [0; 32] };

/// The bytes of each file.
const LENGTH: u32 = 5;

fn name(rt: &impl Abort, text: &[u8]) -> Name {
    Name::read(text).expect(rt, "a name")
}

/// The set of these users.
fn set_of(rt: &impl Abort, users: &[u32]) -> UserSet<WIDTH> {
    let mut set = UserSet::empty();
    for user in users {
        assert!(rt; *user < MAX_USERS);
        set = set.with(*user);
    }
    set
}

/// A list of `count` tokens.
fn tokens(rt: &impl Abort, alloc: Global, count: usize) -> Tokens {
    let mut tokens = Tokens::new(alloc);
    for _ in 0..count {
        tokens.push(TOKEN).expect(rt, "memory");
    }
    tokens
}

/// The update of a table.
fn brief(rt: &impl Abort, alloc: Global, step: Step) -> Brief<WIDTH>
    ensures { IsFitting (plain_brief result) }
{
    match step {
        Step::Enrol(text) => Brief::Enrol {
            name: name(rt, text),
        },
        Step::Create(text, users, count) => Brief::Create {
            name: name(rt, text),
            list: set_of(rt, users),
            tokens: tokens(rt, alloc, count),
            tag: [0; 32],
            length: LENGTH,
        },
        Step::Grant(user, file, has_token) => Brief::Grant {
            user,
            file,
            token: if has_token { Some(TOKEN) } else { None },
        },
        Step::Revoke(user, file) => Brief::Revoke { user, file },
        Step::Remove(file) => Brief::Remove { file },
        Step::Replace(text, count) => Brief::Replace {
            name: name(rt, text),
            tokens: tokens(rt, alloc, count),
            tag: [0; 32],
            length: LENGTH,
        },
    }
}

/// Makes sure that these are the rewrites.
fn expect_rewrites(rt: &impl Abort, rewrites: &[Rewrite], expected: &[Rewritten]) {
    assert_eq!(rt; rewrites.len(), expected.len());
    for (rewrite, row) in rewrites.iter().zip(expected) {
        assert_eq!(rt; (rewrite.file, rewrite.old, rewrite.new), *row);
        assert_eq!(rt; rewrite.length, LENGTH);
    }
}

/// Makes an update, which makes a change with these rewrites.
fn make(
    rt: &impl Abort,
    alloc: Global,
    catalogue: &mut Catalogue,
    step: Step,
    expected: &[Rewritten],
) {
    let change = catalogue.prepare(alloc, &Master::new(&MASTER), brief(rt, alloc, step));
    let change = change.expect(rt, "a change");
    expect_rewrites(rt, change.rewrites(), expected);
    catalogue.commit(change);
}

/// Makes sure that an update makes no change, for this reason.
fn expect_fault(
    rt: &impl Abort,
    alloc: Global,
    catalogue: &mut Catalogue,
    step: Step,
    fault: PrepareFault,
) {
    let answer = catalogue.prepare(alloc, &Master::new(&MASTER), brief(rt, alloc, step));
    assert_eq!(rt; answer.err(), Some(fault));
}

/// Makes the updates of a table, each of which makes a change with its rewrites.
fn make_rows(rt: &impl Abort, alloc: Global, catalogue: &mut Catalogue, rows: &[Row]) {
    for row in rows {
        let expected = match catalogue.mode() {
            Mode::Delta => row.delta,
            Mode::Full => row.full,
        };
        make(rt, alloc, catalogue, row.step, expected);
    }
}

/// The catalogue after all of the rows.
fn after_rows(rt: &impl Abort, alloc: Global, mode: Mode) -> Box<Catalogue> {
    let mut catalogue: Box<Catalogue> = State::boxed(alloc, mode, 0).expect(rt, "memory");
    make_rows(rt, alloc, &mut catalogue, &ROWS);
    catalogue
}

fn expect_sizes(rt: &impl Abort, catalogue: &Catalogue, surface_nodes: u32) {
    let sizes = Sizes {
        users: 3,
        files: 5,
        base_nodes: 5,
        surface_nodes,
        grants: 1,
        bytes: 25,
    };
    assert_eq!(rt; catalogue.sizes(), sizes);
}

#[test]
fn a_history_in_both_modes(rt: HostRuntime) {
    for (mode, surface_nodes) in [(Mode::Delta, 4), (Mode::Full, 6)] {
        let mut catalogue = after_rows(&rt, rt.alloc(), mode);
        for (step, fault) in &FAULTS {
            expect_fault(&rt, rt.alloc(), &mut catalogue, *step, *fault);
        }
        assert_eq!(rt; (catalogue.mode(), catalogue.epoch()), (mode, 11));
        expect_sizes(&rt, &catalogue, surface_nodes);
    }
}

/// What is told of a file that is to be removed.
fn told(file: u32, node: u32) -> Asked {
    Asked {
        user: 0,
        base_root: 0,
        surface_root: 0,
        file,
        node,
        wants: false,
    }
}

/// Makes sure that the second file of the rows is gone: its number isn't given again, and its name
/// is another file's.
fn expect_gone(rt: &impl Abort, catalogue: &Catalogue) {
    let file = name(rt, b"f2");
    assert!(rt; catalogue.file_at(1).is_none());
    assert_eq!(rt; catalogue.file_number(&file), Some(5));
    assert_eq!(rt; catalogue.ask_remove(&file).ok(), Some(told(5, 3)));
    let none = catalogue.ask_remove(&name(rt, b"f6"));
    assert_eq!(rt; none.err(), Some(ChainFault::Refused(Refusal::NoFile)));
    let (files, bytes) = (catalogue.sizes().files, catalogue.sizes().bytes);
    assert_eq!(rt; (files, bytes), (6, 25));
}

#[test]
fn a_removed_file_in_both_modes(rt: HostRuntime) {
    for mode in [Mode::Delta, Mode::Full] {
        let mut catalogue = after_rows(&rt, rt.alloc(), mode);
        let asked = catalogue.ask_remove(&name(&rt, b"f2"));
        assert_eq!(rt; asked.ok(), Some(told(1, 3)));
        make_rows(&rt, rt.alloc(), &mut catalogue, &REMOVAL);
        for (step, fault) in &FAULTS_BEHIND_IT {
            expect_fault(&rt, rt.alloc(), &mut catalogue, *step, *fault);
        }
        expect_gone(&rt, &catalogue);
    }
}

/// A file that is gone has no bytes and no readers. Its number counts still.
#[test]
fn bytes_and_readers_of_a_removed_file(rt: HostRuntime) {
    let mut catalogue = after_rows(&rt, rt.alloc(), Mode::Delta);
    make(&rt, rt.alloc(), &mut catalogue, Step::Remove(1), &[]);
    assert_eq!(rt; (catalogue.sizes().files, catalogue.sizes().bytes), (5, 20));
    let (user, file) = (name(&rt, b"a"), name(&rt, b"f2"));
    let none = catalogue.chain(rt.alloc(), &user, &file);
    assert_eq!(rt; none.err(), Some(ChainFault::Refused(Refusal::NoFile)));
    assert_eq!(rt; catalogue.list(&file).err(), Some(Refusal::NoFile));
}

/// What a grant and the updates before it rewrite in mode Delta: the grant wants two sets that have
/// no surface node, and its nodes come in the order of the files that want them.
const TWO_NEW_NODES: [(Step, &[Rewritten]); 7] = [
    (Step::Enrol(b"a"), &[]),
    (Step::Enrol(b"b"), &[]),
    (Step::Enrol(b"c"), &[]),
    (Step::Create(b"f0", &[0, 1], 2), &[(0, None, None)]),
    (Step::Create(b"f1", &[0, 1], 0), &[(1, None, None)]),
    (Step::Revoke(1, 0), &[(0, None, Some(0))]),
    (
        Step::Grant(2, 0, true),
        &[(0, Some(0), Some(3)), (1, None, Some(4))],
    ),
];

/// Node 3 is that of a and c, which the first file wants, and node 4 that of a and b.
#[test]
fn new_surface_nodes_in_the_order_of_files(rt: HostRuntime) {
    let mut catalogue: Box<Catalogue> = State::boxed(rt.alloc(), Mode::Delta, 0).expect(
        &rt, "memory",
    );
    for (step, expected) in &TWO_NEW_NODES {
        make(&rt, rt.alloc(), &mut catalogue, *step, expected);
    }
    assert_eq!(rt; catalogue.surface().count(), 5);
}

/// The same, where the second file is removed before: the grant passes over it.
const ONE_NEW_NODE: [(Step, &[Rewritten]); 8] = [
    (Step::Enrol(b"a"), &[]),
    (Step::Enrol(b"b"), &[]),
    (Step::Enrol(b"c"), &[]),
    (Step::Create(b"f0", &[0, 1], 2), &[(0, None, None)]),
    (Step::Create(b"f1", &[0, 1], 0), &[(1, None, None)]),
    (Step::Remove(1), &[]),
    (Step::Revoke(1, 0), &[(0, None, Some(0))]),
    (Step::Grant(2, 0, true), &[(0, Some(0), Some(3))]),
];

#[test]
fn no_surface_node_for_a_removed_file(rt: HostRuntime) {
    let mut catalogue: Box<Catalogue> = State::boxed(rt.alloc(), Mode::Delta, 0).expect(
        &rt, "memory",
    );
    for (step, expected) in &ONE_NEW_NODE {
        make(&rt, rt.alloc(), &mut catalogue, *step, expected);
    }
    assert_eq!(rt; catalogue.surface().count(), 4);
}

/// Makes sure that a reader gets these chains.
fn expect_reading(rt: &impl Abort, alloc: Global, catalogue: &Catalogue, row: &Reading) {
    let (user, file) = (name(rt, row.user), name(rt, row.file));
    let chained = catalogue.chain(alloc, &user, &file).expect(rt, "chains");
    let stands = (chained.file, chained.generation, chained.length);
    assert_eq!(rt; stands, (row.number, row.generation, LENGTH));
    assert_eq!(rt; (chained.epoch, chained.base.root), (11, row.root));
    assert_eq!(rt; chained.surface.is_some(), row.has_surface);
    assert_eq!(rt;
        walk_to_access(&MASTER, &chained.base).bytes,
        row.access_key
    );
}

#[test]
fn chains_of_readers(rt: HostRuntime) {
    let catalogue = after_rows(&rt, rt.alloc(), Mode::Delta);
    for row in &READINGS {
        expect_reading(&rt, rt.alloc(), &catalogue, row);
    }
    let (user, file) = (name(&rt, b"c"), name(&rt, b"f2"));
    let none = catalogue.chain(rt.alloc(), &user, &file);
    assert_eq!(rt; none.err(), Some(ChainFault::Refused(Refusal::NoPath)));
    assert_eq!(rt; catalogue.user_number(&user), Some(2));
    assert!(rt; *catalogue.user_at(2).expect(&rt, "a user") == user);
    assert_eq!(rt; catalogue.surface().count(), 4);
}

/// The files are at base node 3, that of a and b, which c holds too, by an access token.
#[test]
fn holders_and_names_of_files(rt: HostRuntime) {
    let mut catalogue = after_rows(&rt, rt.alloc(), Mode::Delta);
    assert_eq!(rt; catalogue.sizes().base_nodes, 5);
    assert!(rt; catalogue.holders(3) == set_of(&rt, &[0, 1, 2]));
    let file = name(&rt, b"f2");
    assert!(rt; *catalogue.file_name(1).expect(&rt, "a name") == file);
    make(&rt, rt.alloc(), &mut catalogue, Step::Remove(1), &[]);
    assert!(rt; catalogue.file_name(1).is_none());
    assert!(rt; catalogue.file_name(5).is_none());
}

/// The update that creates a file for nobody, whose bytes are handed out again beside its brief.
#[test]
fn the_brief_of_an_update(rt: HostRuntime) {
    let update: Update<WIDTH> = Update::Create {
        name: name(&rt, b"f"),
        list: UserSet::empty(),
        tokens: Tokens::new(rt.alloc()),
        tag: [0; 32],
        bytes: Octets::copy(rt.alloc(), b"hello").expect(&rt, "memory"),
    };
    let (brief, bytes) = Brief::of(update);
    assert!(rt; bytes.expect(&rt, "bytes").as_slice() == b"hello".as_slice());
    assert!(rt; matches!(brief, Brief::Create { length: LENGTH, .. }));
}

#[test]
fn the_last_epoch(rt: HostRuntime) {
    let (alloc, first) = (rt.alloc(), LAST_EPOCH - 1);
    let mut catalogue: Box<Catalogue> = State::boxed(alloc, Mode::Full, first).expect(
        &rt, "memory",
    );
    make(&rt, alloc, &mut catalogue, Step::Enrol(b"a"), &[]);
    let rows = [
        (Step::Enrol(b"b"), Refusal::Spent),
        (Step::Enrol(b"a"), Refusal::Taken),
        (Step::Create(b"f", &[], 1), Refusal::Spent),
        (Step::Remove(0), Refusal::NoFile),
        (Step::Replace(b"f", 0), Refusal::NoFile),
    ];
    for (step, why) in rows {
        expect_fault(&rt, alloc, &mut catalogue, step, PrepareFault::Refused(why));
    }
}
