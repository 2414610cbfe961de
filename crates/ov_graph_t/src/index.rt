//! Lists and indexes, which answer alike.
ghost use Rattle.std.specs.Prelude.{◌<◌, ◌≤◌};
ghost use Rattle.ov_base.specs.declared.limits.TheConstants.{MAX_SET_WORDS};

use crate::asking::{Answers, NodeAnswers, ask_all};
use crate::calls::{Call, call_both};
use crate::few::four_users;
use crate::sets::{expect_edges, expect_full, fill, put, set_of_bits};
use ov_base::UserSet;
use ov_base::limits::MAX_SET_WORDS;
use ov_graph::{Graph, ListGraph};
use ov_index::IndexGraph;
use ov_tokens::{Base, Layer, Surface, Token, Tokens};
use std::alloc::Global;
use std::process::Abort;
use std::test::Fail;

#[test]
fn four_users_in_both_graphs(rt: HostRuntime) -> Result<(), Fail> {
    four_users::<Base, ListGraph<Base, 1>, 1>(&rt, rt.alloc())?;
    four_users::<Base, IndexGraph<Base, 1>, 1>(&rt, rt.alloc())?;
    four_users::<Surface, IndexGraph<Surface, 4>, 4>(&rt, rt.alloc())?;
    four_users::<Base, IndexGraph<Base, 16>, 16>(&rt, rt.alloc())?;
    Ok(())
}

/// All sets of twelve users, and the edges into the last of them.
fn twelve_users<L: Layer, G: Graph<L, W>, const W: usize>(
    rt: &impl Abort,
    alloc: Global,
) -> Result<(), Fail>
    requires { (1 ≤ W) × (W ≤ MAX_SET_WORDS) }
{
    let mut graph = G::new(alloc)?;
    fill::<L, G, W>(rt, alloc, &mut graph)?;
    expect_edges::<L, G, W>(rt, &graph, 4095, &[2048, 3071]);
    assert!(rt; graph.find(&UserSet::empty().with(12)).is_none());
    expect_full::<L, G, W>(rt, alloc, &graph)
}

#[test]
fn all_sets_of_twelve_users_in_both_graphs(rt: HostRuntime) -> Result<(), Fail> {
    twelve_users::<Base, ListGraph<Base, 1>, 1>(&rt, rt.alloc())?;
    twelve_users::<Base, IndexGraph<Base, 1>, 1>(&rt, rt.alloc())?;
    Ok(())
}

/// The users of a file of a small team: that of its number, the next one, and the fourth behind
/// that.
fn team<const W: usize>(file: u32) -> UserSet<W>
    requires width { (1 ≤ W) × (W ≤ MAX_SET_WORDS) }
    requires file { file < 4096 }
{
    UserSet::empty()
        .with(file % 12)
        .with((file + 1) % 12)
        .with((file + 5) % 12)
}

/// A small team's day in the surface layer: 12 users, 40 files, 25 grants and 9 revocations, and
/// the edges into the nodes of a first list and of what became of it.
fn small_team<L: Layer, G: Graph<L, W>, const W: usize>(
    rt: &impl Abort,
    alloc: Global,
) -> Result<(), Fail>
    requires { (1 ≤ W) × (W ≤ MAX_SET_WORDS) }
{
    let mut graph = G::new(alloc)?;
    for user in 0..12 {
        put::<L, G, W>(rt, alloc, &mut graph, &UserSet::empty().with(user))?;
    }
    for file in 0..40 {
        put::<L, G, W>(rt, alloc, &mut graph, &team(file))?;
    }
    assert_eq!(rt; graph.count(), 24);
    for file in 0..25 {
        let list = team(file).with((file + 3) % 12);
        put::<L, G, W>(rt, alloc, &mut graph, &list)?;
    }
    for file in 0..9 {
        let list = team(file).with((file + 3) % 12).without((file + 1) % 12);
        put::<L, G, W>(rt, alloc, &mut graph, &list)?;
    }
    assert_eq!(rt; graph.count(), 45);
    expect_edges::<L, G, W>(rt, &graph, 24, &[12, 3]);
    expect_edges::<L, G, W>(rt, &graph, 36, &[0, 3, 5]);
    Ok(())
}

#[test]
fn a_small_teams_day_in_both_graphs(rt: HostRuntime) -> Result<(), Fail> {
    small_team::<Surface, ListGraph<Surface, 4>, 4>(&rt, rt.alloc())?;
    small_team::<Surface, IndexGraph<Surface, 4>, 4>(&rt, rt.alloc())?;
    Ok(())
}

/// Whether both graphs say the same of a node.
fn same_node<const W: usize>(rt: &impl Abort, one: &NodeAnswers<W>, other: &NodeAnswers<W>) {
    assert_eq!(rt; one.node, other.node);
    assert!(rt; one.set == other.set);
    assert_eq!(rt; one.edges.as_slice(), other.edges.as_slice());
    match (&one.chain, &other.chain) {
        (None, None) => {}
        (Some(chain), Some(again)) => {
            assert_eq!(rt; chain.root, again.root);
            assert_eq!(rt; chain.steps.as_slice(), again.steps.as_slice());
        }
        _ => assert!(rt; false),
    }
}

/// Whether both graphs say the same where they are asked for a set.
fn same_answers<const W: usize>(rt: &impl Abort, one: &Answers<W>, other: &Answers<W>) {
    assert_eq!(rt; one.count, other.count);
    assert_eq!(rt;
        (one.cover.node, one.cover.fresh),
        (other.cover.node, other.cover.fresh)
    );
    assert_eq!(rt; one.cover.from.as_slice(), other.cover.from.as_slice());
    match (&one.found, &other.found) {
        (None, None) => {}
        (Some(node), Some(again)) => same_node(rt, node, again),
        _ => assert!(rt; false),
    }
}

/// Sets of several sizes, in an order that is neither that of their bytes nor that of their sizes,
/// each with a number of tokens. The one that comes a second time, the one whose users have no
/// roots yet, and the one with a token too many are passed over.
const ADDED: [(u32, usize); 17] = [
    (0x100, 0),
    (0x001, 0),
    (0x800, 0),
    (0x004, 0),
    (0x002, 0),
    (0x042, 2),
    (0x010, 0),
    (0x903, 4),
    (0x006, 2),
    (0x101, 2),
    (0x101, 2),
    (0x000, 0),
    (0x007, 2),
    (0x814, 4),
    (0x814, 3),
    (0x105, 2),
    (0x917, 3),
];

const AFTER: [u32; 4] = [0x003, 0x806, 0x804, 0x113];

/// A call that adds a set with this many tokens, all of the same bytes: no graph looks into them.
fn addition<const W: usize>(alloc: Global, bits: u32, many: usize) -> Result<Call<W>, Fail>
    requires { (1 ≤ W) × (W ≤ MAX_SET_WORDS) }
{
    let mut tokens = Tokens::new(alloc);
    for _ in 0..many {
        tokens.push(Token { bytes: [9; 32] })?;
    }
    Ok(Call::Add {
        set: set_of_bits(bits),
        tokens,
    })
}

#[test]
fn a_list_and_an_index_agree(rt: HostRuntime) -> Result<(), Fail> {
    let mut list: ListGraph<Base, 4> = ListGraph::new(rt.alloc())?;
    let mut index: IndexGraph<Base, 4> = IndexGraph::new(rt.alloc())?;
    let mut calls = Vec::new(rt.alloc());
    for (bits, many) in ADDED {
        calls.push(addition(rt.alloc(), bits, many)?)?;
    }
    calls.push(Call::Reserve { sets: 3, edges: 9 })?;
    call_both(rt.alloc(), &mut list, &mut index, &calls)?;
    let after = AFTER.map(|bits| set_of_bits(bits));
    assert_eq!(rt; list.count(), 14);
    assert_eq!(rt; index.count(), 14);
    for (bits, _) in ADDED {
        let set = set_of_bits(bits);
        let one = ask_all(rt.alloc(), &list, &after, &set, 0)?;
        let other = ask_all(rt.alloc(), &index, &after, &set, 0)?;
        same_answers(&rt, &one, &other);
    }
    for set in &after {
        let one = ask_all(rt.alloc(), &list, &after[..2], set, 0)?;
        let other = ask_all(rt.alloc(), &index, &after[..2], set, 0)?;
        same_answers(&rt, &one, &other);
    }
    Ok(())
}
