//! Users a to d, each alone, then {a, b}, {b, c} and all four.
ghost use Rattle.std.specs.Prelude.{◌≤◌};
ghost use Rattle.ov_base.specs.declared.limits.TheConstants.{MAX_SET_WORDS};

use crate::sets::{expect_edges, put, set_of_bits};
use ov_graph::Graph;
use ov_tokens::Layer;
use std::alloc::Global;
use std::process::Abort;
use std::test::Fail;

const ALL: u32 = 0b1111;

/// What the set of all four gets behind the two pairs, while a graph has each user alone.
fn expect_plan<L: Layer, G: Graph<L, W>, const W: usize>(
    rt: &impl Abort,
    alloc: Global,
    graph: &G,
) -> Result<(), Fail>
    requires { (1 ≤ W) × (W ≤ MAX_SET_WORDS) }
{
    assert_eq!(rt; graph.count(), 4);
    let pairs = [set_of_bits(0b11), set_of_bits(0b110)];
    let cover = graph.plan(alloc, &pairs, &set_of_bits(ALL))?;
    assert_eq!(rt; (cover.node, cover.fresh), (6, true));
    assert_eq!(rt; cover.from.as_slice(), [4, 5, 3].as_slice());
    Ok(())
}

/// What a set gets that has the node 5 already.
fn expect_old<L: Layer, G: Graph<L, W>, const W: usize>(
    rt: &impl Abort,
    alloc: Global,
    graph: &mut G,
) -> Result<(), Fail>
    requires { (1 ≤ W) × (W ≤ MAX_SET_WORDS) }
{
    let set = set_of_bits(0b110);
    let node = put::<L, G, W>(rt, alloc, graph, &set)?;
    assert_eq!(rt; (node, graph.count()), (5, 7));
    let again = graph.plan(alloc, &[], &set)?;
    assert_eq!(rt; (again.node, again.fresh), (5, false));
    assert!(rt; again.from.as_slice().is_empty());
    Ok(())
}

/// Which sets have nodes.
fn expect_found<L: Layer, G: Graph<L, W>, const W: usize>(rt: &impl Abort, graph: &G)
    requires { (1 ≤ W) × (W ≤ MAX_SET_WORDS) }
{
    assert_eq!(rt; graph.count(), 7);
    for node in 0..7 {
        assert_eq!(rt; graph.find(&graph.set_of(node)), Some(node));
    }
    assert!(rt; graph.set_of(5) == set_of_bits(0b110));
    assert_eq!(rt; graph.find(&set_of_bits(ALL)), Some(6));
    assert!(rt; graph.find(&set_of_bits(0b1011)).is_none());
}

/// The cover of all four as it is planned and as it is kept, and what becomes of a set that comes
/// again.
pub fn four_users<L: Layer, G: Graph<L, W>, const W: usize>(
    rt: &impl Abort,
    alloc: Global,
) -> Result<(), Fail>
    requires { (1 ≤ W) × (W ≤ MAX_SET_WORDS) }
{
    let mut graph = G::new(alloc)?;
    for bits in [1, 2, 4, 8] {
        put::<L, G, W>(rt, alloc, &mut graph, &set_of_bits(bits))?;
    }
    expect_plan::<L, G, W>(rt, alloc, &graph)?;
    for bits in [0b11, 0b110, ALL] {
        put::<L, G, W>(rt, alloc, &mut graph, &set_of_bits(bits))?;
    }
    expect_edges::<L, G, W>(rt, &graph, 6, &[4, 5, 3]);
    expect_edges::<L, G, W>(rt, &graph, 3, &[]);
    expect_found::<L, G, W>(rt, &graph);
    expect_old::<L, G, W>(rt, alloc, &mut graph)
}
