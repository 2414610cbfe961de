//! Chains in small graphs whose tokens are those of their keys.
ghost use Rattle.std.specs.Prelude.{◌≤◌};
ghost use Rattle.ov_base.specs.declared.limits.TheConstants.{MAX_SET_WORDS};

mod vectors;

use crate::sets::{MASTER, put, set_of_bits};
use ov_chain::*;
use ov_graph::{Graph, ListGraph};
use ov_tokens::{Base, Chain, Layer, Master, Step, Surface};
use std::alloc::Global;
use std::process::Abort;
use std::test::Fail;
use vectors::{BEFORE, NOWHERE, SETS};

fn chain_between<L: Layer, G: Graph<L, W>, const W: usize>(
    rt: &impl Abort,
    alloc: Global,
    graph: &G,
    root: u32,
    node: u32,
) -> Result<Option<Chain>, Fail> {
    assert!(rt; root < graph.count());
    assert!(rt; node < graph.count());
    Ok(shortest::<L, G, W>(alloc, graph, root, node)?)
}

/// Makes sure that each step leads to the node behind it, from the last step on: the row has for
/// each node the one before it, and the first step begins at the root.
fn expect_steps<L: Layer>(rt: &impl Abort, steps: &[Step], root: u32, node: u32, row: &[u32]) {
    let mut here = node;
    for step in steps.iter().rev() {
        assert_eq!(rt; step.to, L::label(here));
        here = row.get(here as usize).copied().unwrap_or(NOWHERE);
    }
    assert_eq!(rt; here, root);
}

/// Makes sure that the chain from the root to the node is the row's, and leads to the node's key.
fn expect_chain<L: Layer, G: Graph<L, W>, const W: usize>(
    rt: &impl Abort,
    alloc: Global,
    graph: &G,
    root: u32,
    node: u32,
    row: &[u32],
) -> Result<(), Fail> {
    let chain = chain_between::<L, G, W>(rt, alloc, graph, root, node)?.ok_or("a chain")?;
    assert_eq!(rt; chain.root, root);
    expect_steps::<L>(rt, chain.steps.as_slice(), root, node, row);
    let key = walk(&L::key_of(&Master::new(&MASTER), root), &chain);
    assert_eq!(rt; key.bytes, L::key_of(&Master::new(&MASTER), node).bytes);
    Ok(())
}

/// Users a to d, nodes 0 to 3; then {a, b}, {b, c} and all four.
const FEW: [u32; 7] = [1, 2, 4, 8, 0b11, 0b110, 0b1111];

/// A root, and the node before each: of b over {a, b}, of c over {b, c}, and of d.
const FEW_BEFORE: [(u32, [u32; 7]); 3] = [
    (1, [NOWHERE, NOWHERE, NOWHERE, NOWHERE, 1, NOWHERE, 4]),
    (2, [NOWHERE, NOWHERE, NOWHERE, NOWHERE, NOWHERE, 2, 5]),
    (3, [NOWHERE, NOWHERE, NOWHERE, NOWHERE, NOWHERE, NOWHERE, 3]),
];

fn four_users<L: Layer, G: Graph<L, W>, const W: usize>(
    rt: &impl Abort,
    alloc: Global,
) -> Result<(), Fail>
    requires { (1 ≤ W) × (W ≤ MAX_SET_WORDS) }
{
    let mut graph = G::new(alloc)?;
    for bits in FEW {
        put::<L, G, W>(rt, alloc, &mut graph, &set_of_bits(bits))?;
    }
    for (root, row) in &FEW_BEFORE {
        expect_chain::<L, G, W>(rt, alloc, &graph, *root, 6, row)?;
    }
    expect_chain::<L, G, W>(rt, alloc, &graph, 3, 3, &[])?;
    let apart = chain_between::<L, G, W>(rt, alloc, &graph, 0, 5)?;
    assert!(rt; apart.is_none());
    Ok(())
}

#[test]
fn four_users_in_each_layer(rt: HostRuntime) -> Result<(), Fail> {
    four_users::<Base, ListGraph<Base, 1>, 1>(&rt, rt.alloc())?;
    four_users::<Surface, ListGraph<Surface, 4>, 4>(&rt, rt.alloc())?;
    Ok(())
}

/// Makes sure that the chains from a root are those of the table's row.
fn expect_row(
    rt: &impl Abort,
    alloc: Global,
    graph: &ListGraph<Base, 1>,
    root: u32,
    row: &[u32],
) -> Result<(), Fail> {
    let mut node = 0u32;
    for before in row {
        if *before != NOWHERE || node == root {
            expect_chain(rt, alloc, graph, root, node, row)?;
        } else {
            let none = chain_between(rt, alloc, graph, root, node)?;
            assert!(rt; none.is_none());
        }
        node = node.saturating_add(1);
    }
    Ok(())
}

#[test]
fn chains_of_every_node(rt: HostRuntime) -> Result<(), Fail> {
    let mut graph: ListGraph<Base, 1> = ListGraph::new(rt.alloc())?;
    for bits in &SETS {
        put(&rt, rt.alloc(), &mut graph, &set_of_bits(*bits))?;
    }
    let mut root = 0u32;
    for row in &BEFORE {
        expect_row(&rt, rt.alloc(), &graph, root, row)?;
        root = root.saturating_add(1);
    }
    Ok(())
}
