//! A small team's day: 12 users, 40 files for three of them each, 25 grants and 9 revocations.
ghost use Rattle.ov_state.specs.Plans.{plain_brief, IsFitting};

use super::{LENGTH, MASTER, TOKEN, name, set_of, tokens};
use ov_base::{Mode, Name};
use ov_graph::Graph;
use ov_state::{Brief, Catalogue, Sizes, State, WIDTH};
use ov_tokens::Master;
use std::alloc::Global;
use std::process::Abort;

/// A letter and two digits.
fn numbered(rt: &impl Abort, letter: u8, number: u32) -> Name {
    assert!(rt; number < 100);
    let digits = [
        letter,
        b'0' + (number / 10) as u8,
        b'0' + (number % 10) as u8,
    ];
    name(rt, &digits)
}

/// Asks before a creation for the users of a file of the day.
fn ask(rt: &impl Abort, alloc: Global, catalogue: &mut Catalogue, file: u32) {
    assert!(rt; file < 40);
    let names = [
        numbered(rt, b'u', file % 12),
        numbered(rt, b'u', (file + 1) % 12),
        numbered(rt, b'u', (file + 5) % 12),
    ];
    let planned = catalogue
        .cover(alloc, &numbered(rt, b'q', file), LENGTH, &names)
        .expect(rt, "a plan");
    catalogue.remember(planned);
}

/// The creation of a file for the users of its number, the next one, and the fourth behind that.
fn creation(rt: &impl Abort, alloc: Global, catalogue: &Catalogue, file: u32) -> Brief<WIDTH>
    ensures { IsFitting (plain_brief result) }
{
    assert!(rt; file < 40);
    let list = set_of(rt, &[file % 12, (file + 1) % 12, (file + 5) % 12]);
    let cover = catalogue
        .base()
        .plan_create(alloc, &list)
        .expect(rt, "a plan");
    Brief::Create {
        name: numbered(rt, b'f', file),
        list,
        tokens: tokens(rt, alloc, cover.from.as_slice().len()),
        tag: [0; 32],
        length: LENGTH,
    }
}

/// The grant of a file to the user of its number and three more.
fn grant(rt: &impl Abort, catalogue: &Catalogue, file: u32) -> Brief<WIDTH>
    ensures { IsFitting (plain_brief result) }
{
    assert!(rt; file < 40);
    let user = (file + 3) % 12;
    let node = catalogue.file_at(file).expect(rt, "a file").node;
    let base = catalogue.base();
    assert!(rt; node < base.graph().count());
    let token = if base.plan_grant(user, node) {
        Some(TOKEN)
    } else {
        None
    };
    Brief::Grant { user, file, token }
}

/// The update of this number.
fn update(rt: &impl Abort, alloc: Global, catalogue: &Catalogue, number: u32) -> Brief<WIDTH>
    ensures { IsFitting (plain_brief result) }
{
    if number < 12 {
        Brief::Enrol {
            name: numbered(rt, b'u', number),
        }
    } else if number < 52 {
        creation(rt, alloc, catalogue, number - 12)
    } else if number < 77 {
        grant(rt, catalogue, number - 52)
    } else {
        let file = number - 77;
        Brief::Revoke {
            user: (file % 12 + 1) % 12,
            file,
        }
    }
}

/// The catalogue after the day. Before each creation the cover of a list is asked for: for every
/// other one, that of its own list, and else that of the list before.
fn after_day(rt: &impl Abort, alloc: Global, mode: Mode) -> Box<Catalogue> {
    let mut catalogue: Box<Catalogue> = State::boxed(alloc, mode, 0).expect(rt, "memory");
    for number in 0..86 {
        if (12..52).contains(&number) {
            ask(rt, alloc, &mut catalogue, (number - 12) / 2 * 2);
        }
        let brief = update(rt, alloc, &catalogue, number);
        let change = catalogue
            .prepare(alloc, &Master::new(&MASTER), brief)
            .expect(rt, "a change");
        catalogue.commit(change);
    }
    catalogue
}

/// How many users the lists of all files have together.
fn listed(rt: &impl Abort, catalogue: &Catalogue) -> u32 {
    let mut count = 0u32;
    for file in 0..40 {
        let list = catalogue
            .list(&numbered(rt, b'f', file))
            .expect(rt, "a list");
        count = count.saturating_add(list.count());
    }
    count
}

#[test]
fn a_day_in_both_modes(rt: HostRuntime) {
    for (mode, surface_nodes) in [(Mode::Full, 45), (Mode::Delta, 33)] {
        let catalogue = after_day(&rt, rt.alloc(), mode);
        let sizes = Sizes {
            users: 12,
            files: 40,
            base_nodes: 24,
            surface_nodes,
            grants: 12,
            bytes: 200,
        };
        assert_eq!(rt; catalogue.sizes(), sizes);
        assert_eq!(rt; (catalogue.epoch(), listed(&rt, &catalogue)), (86, 136));
    }
}
