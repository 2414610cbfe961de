//! Graphs that are made of sets, of any kind and width.
ghost use Rattle.std.specs.Prelude.{◌≤◌};
ghost use Rattle.ov_base.specs.declared.limits.TheConstants.{MAX_SET_WORDS};

use ov_base::limits::MAX_LAYER_NODES;
use ov_base::{Key, UserSet};
use ov_graph::{Graph, GraphRefusal, has_roots, plan_and_add};
use ov_tokens::{Edge, Layer, Master};
use std::alloc::Global;
use std::process::Abort;
use std::test::Fail;

/// The master whose tokens lead into the nodes.
pub const MASTER: Key = Key { bytes: [7; 32] };

/// Adds a set, where it is new.
pub fn put<L: Layer, G: Graph<L, W>, const W: usize>(
    rt: &impl Abort,
    alloc: Global,
    graph: &mut G,
    set: &UserSet<W>,
) -> Result<u32, Fail> {
    assert!(rt; has_roots::<L, G, W>(graph, set));
    Ok(plan_and_add::<L, G, W>(alloc, graph, &Master::new(&MASTER), set)?)
}

/// The set of those of the first twelve users whose bits are set.
pub fn set_of_bits<const W: usize>(bits: u32) -> UserSet<W>
    requires { (1 ≤ W) × (W ≤ MAX_SET_WORDS) }
{
    let mut set = UserSet::empty();
    for user in 0..12 {
        if bits >> user & 1 == 1 {
            set = set.with(user);
        }
    }
    set
}

/// Makes sure that the edges into a node come from these nodes, in this order.
pub fn expect_edges<L: Layer, G: Graph<L, W>, const W: usize>(
    rt: &impl Abort,
    graph: &G,
    node: u32,
    from: &[u32],
) {
    assert!(rt; node < graph.count());
    expect_starts(rt, graph.in_tokens(node), from);
}

fn expect_starts(rt: &impl Abort, edges: &[Edge], from: &[u32]) {
    assert_eq!(rt; edges.len(), from.len());
    for (edge, start) in edges.iter().zip(from) {
        assert_eq!(rt; edge.from, *start);
    }
}

/// Every set of twelve users, those of one user first, and then by their bits.
pub fn fill<L: Layer, G: Graph<L, W>, const W: usize>(
    rt: &impl Abort,
    alloc: Global,
    graph: &mut G,
) -> Result<(), Fail>
    requires { (1 ≤ W) × (W ≤ MAX_SET_WORDS) }
{
    for user in 0..12 {
        put::<L, G, W>(rt, alloc, graph, &UserSet::empty().with(user))?;
    }
    for bits in 0..MAX_LAYER_NODES {
        put::<L, G, W>(rt, alloc, graph, &set_of_bits(bits))?;
    }
    Ok(())
}

/// Makes sure that a graph of every set of twelve users has room for no other.
pub fn expect_full<L: Layer, G: Graph<L, W>, const W: usize>(
    rt: &impl Abort,
    alloc: Global,
    graph: &G,
) -> Result<(), Fail>
    requires { (1 ≤ W) × (W ≤ MAX_SET_WORDS) }
{
    let count = graph.count();
    assert_eq!(rt; count, MAX_LAYER_NODES);
    let old = graph.plan(alloc, &[], &set_of_bits(0xfff))?;
    assert_eq!(rt; (old.node, old.fresh), (4095, false));
    match graph.plan(alloc, &[], &UserSet::empty().with(12)) {
        Err(refusal) => assert_eq!(rt; refusal, GraphRefusal::NodesFull),
        Ok(_) => assert!(rt; false),
    }
    Ok(())
}
