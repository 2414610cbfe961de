//! Audits of three users and three files.
ghost use Rattle.ov_state.specs.Plans.{plain_brief, IsFitting};

use ov_audit::{Audit, Cause, Finding};
use ov_base::limits::MAX_USERS;
use ov_base::{Key, Mode, Name, Users};
use ov_state::{Brief, Catalogue, State, WIDTH};
use ov_tokens::{Master, Token, Tokens};
use std::alloc::Global;
use std::process::Abort;

const MASTER: Key = Key { bytes: [7; 32] };

/// A catalogue doesn't look into the tokens that it is given, but only at how many there are.
const TOKEN: Token = Token { bytes: [0; 32] };

/// An update, of which a table has no tokens but how many there are.
#[derive(Clone, Copy)]
enum Step {
    Enrol(&'static [u8]),
    Create(&'static [u8], &'static [u32], usize),
    Grant(u32, u32, bool),
    Revoke(u32, u32),
    Remove(u32),
    Replace(&'static [u8], usize),
}

/// a, b and c join; f1 and f2 are made for a and b; c is granted f1; and f3 is made for a and b. The
/// three files have one base node.
const SHARED: [Step; 7] = [
    Step::Enrol(b"a"),
    Step::Enrol(b"b"),
    Step::Enrol(b"c"),
    Step::Create(b"f1", &[0, 1], 2),
    Step::Create(b"f2", &[0, 1], 0),
    Step::Grant(2, 0, true),
    Step::Create(b"f3", &[0, 1], 0),
];

/// Before c holds anything, f1 is made and removed; then c is granted f2, which has the same node.
const GONE: [Step; 7] = [
    Step::Enrol(b"a"),
    Step::Enrol(b"b"),
    Step::Enrol(b"c"),
    Step::Create(b"f1", &[0, 1], 2),
    Step::Create(b"f2", &[0, 1], 0),
    Step::Remove(0),
    Step::Grant(2, 1, true),
];

/// c is taken off f1 again.
const REVOKED: [Step; 7] = [
    Step::Enrol(b"a"),
    Step::Enrol(b"b"),
    Step::Enrol(b"c"),
    Step::Create(b"f1", &[0, 1], 2),
    Step::Grant(2, 0, true),
    Step::Revoke(2, 0),
    Step::Remove(0),
];

/// f2 is replaced before c holds anything, and then c is granted f1: all three files have one node.
const REPLACED: [Step; 7] = [
    Step::Enrol(b"a"),
    Step::Enrol(b"b"),
    Step::Enrol(b"c"),
    Step::Create(b"f1", &[0, 1], 2),
    Step::Create(b"f2", &[0, 1], 0),
    Step::Replace(b"f2", 0),
    Step::Grant(2, 0, true),
];

/// The number of a file, its name, the cause and the epoch.
type Row = (u32, &'static [u8], Cause, u32);

/// An audit, and what it finds.
struct Case {
    steps: &'static [Step],
    mode: Mode,
    first: u32,
    users: &'static [u32],
    server: bool,
    found: &'static [Row],
}

static CASES: [Case; 10] = [
    Case {
        steps: &SHARED,
        mode: Mode::Delta,
        first: 0,
        users: &[2],
        server: false,
        found: &[(0, b"f1", Cause::Listed, 6), (1, b"f2", Cause::Bare, 5)],
    },
    Case {
        steps: &SHARED,
        mode: Mode::Delta,
        first: 0,
        users: &[2],
        server: true,
        found: &[
            (0, b"f1", Cause::Listed, 6),
            (1, b"f2", Cause::Bare, 5),
            (2, b"f3", Cause::Server, 7),
        ],
    },
    Case {
        steps: &SHARED,
        mode: Mode::Delta,
        first: 0,
        users: &[2, 0],
        server: false,
        found: &[
            (0, b"f1", Cause::Listed, 4),
            (1, b"f2", Cause::Listed, 5),
            (2, b"f3", Cause::Listed, 7),
        ],
    },
    Case {
        steps: &SHARED,
        mode: Mode::Full,
        first: 0,
        users: &[2],
        server: false,
        found: &[(0, b"f1", Cause::Listed, 6)],
    },
    Case {
        steps: &SHARED,
        mode: Mode::Delta,
        first: 5,
        users: &[2],
        server: false,
        found: &[(0, b"f1", Cause::Listed, 11), (1, b"f2", Cause::Bare, 10)],
    },
    Case {
        steps: &GONE,
        mode: Mode::Delta,
        first: 0,
        users: &[2],
        server: false,
        found: &[(0, b"f1", Cause::Bare, 4), (1, b"f2", Cause::Listed, 7)],
    },
    Case {
        steps: &GONE,
        mode: Mode::Full,
        first: 0,
        users: &[2],
        server: true,
        found: &[(0, b"f1", Cause::Server, 4), (1, b"f2", Cause::Listed, 7)],
    },
    Case {
        steps: &REVOKED,
        mode: Mode::Delta,
        first: 0,
        users: &[2],
        server: false,
        found: &[(0, b"f1", Cause::Listed, 5)],
    },
    Case {
        steps: &REPLACED,
        mode: Mode::Delta,
        first: 0,
        users: &[2],
        server: false,
        found: &[
            (0, b"f1", Cause::Listed, 7),
            (1, b"f2", Cause::Bare, 5),
            (2, b"f2", Cause::Bare, 6),
        ],
    },
    Case {
        steps: &REPLACED,
        mode: Mode::Full,
        first: 0,
        users: &[2],
        server: true,
        found: &[
            (0, b"f1", Cause::Listed, 7),
            (1, b"f2", Cause::Server, 5),
            (2, b"f2", Cause::Server, 6),
        ],
    },
];

fn name(rt: &impl Abort, text: &[u8]) -> Name {
    Name::read(text).expect(rt, "a name")
}

/// The set of these users.
fn set_of(rt: &impl Abort, users: &[u32]) -> Users {
    let mut set = Users::empty();
    for user in users {
        assert!(rt; *user < MAX_USERS);
        set = set.with(*user);
    }
    set
}

/// A list of `count` tokens.
fn tokens(rt: &impl Abort, alloc: Global, count: usize) -> Tokens {
    let mut tokens = Tokens::new(alloc);
    for _ in 0..count {
        tokens.push(TOKEN).expect(rt, "memory");
    }
    tokens
}

/// The update of a table.
fn brief(rt: &impl Abort, alloc: Global, step: Step) -> Brief<WIDTH>
    ensures { IsFitting (plain_brief result) }
{
    match step {
        Step::Enrol(text) => Brief::Enrol {
            name: name(rt, text),
        },
        Step::Create(text, users, count) => Brief::Create {
            name: name(rt, text),
            list: set_of(rt, users),
            tokens: tokens(rt, alloc, count),
            tag: [0; 32],
            length: 5,
        },
        Step::Grant(user, file, has_token) => Brief::Grant {
            user,
            file,
            token: if has_token { Some(TOKEN) } else { None },
        },
        Step::Revoke(user, file) => Brief::Revoke { user, file },
        Step::Remove(file) => Brief::Remove { file },
        Step::Replace(text, count) => Brief::Replace {
            name: name(rt, text),
            tokens: tokens(rt, alloc, count),
            tag: [0; 32],
            length: 5,
        },
    }
}

/// Makes an update, and looks at the state after it.
fn go_on(rt: &impl Abort, alloc: Global, catalogue: &mut Catalogue, audit: &mut Audit, step: Step) {
    let change = catalogue.prepare(alloc, &Master::new(&MASTER), brief(rt, alloc, step));
    catalogue.commit(change.expect(rt, "a change"));
    assert!(rt; audit.is_next(catalogue));
    audit.see(alloc, catalogue).expect(rt, "memory");
}

/// Makes sure that this is the finding.
fn expect_finding(rt: &impl Abort, finding: &Finding, row: &Row) {
    assert_eq!(rt; (finding.file, finding.epoch), (row.0, row.3));
    assert!(rt; finding.name.as_bytes() == row.1);
    assert_eq!(rt; finding.cause, row.2);
}

/// Makes sure of what an audit finds.
fn expect_case(rt: &impl Abort, alloc: Global, case: &Case) {
    let mut catalogue: Catalogue = State::new(alloc, case.mode, case.first).expect(rt, "memory");
    let users = set_of(rt, case.users);
    let mut audit = Audit::new(alloc, users, case.first, case.server);
    for step in case.steps {
        go_on(rt, alloc, &mut catalogue, &mut audit, *step);
    }
    assert!(rt; !audit.is_next(&catalogue));
    let findings = audit.findings(alloc).expect(rt, "memory");
    assert_eq!(rt; findings.as_slice().len(), case.found.len());
    for (finding, row) in findings.as_slice().iter().zip(case.found) {
        expect_finding(rt, finding, row);
    }
}

#[test]
fn worked_audits(rt: HostRuntime) {
    for case in &CASES {
        expect_case(&rt, rt.alloc(), case);
    }
}

#[test]
fn nothing_is_found_before_the_first_look(rt: HostRuntime) {
    let audit = Audit::new(rt.alloc(), set_of(&rt, &[0]), 3, true);
    let findings = audit.findings(rt.alloc()).expect(&rt, "memory");
    assert!(rt; findings.as_slice().is_empty());
}
