//! The shortest chain from one node of a graph to another.

ghost use Rattle.std.specs.Prelude.{◌≡◌, ◌↔◌, ◌+◌, ℕ, length, slice_index, IfOk, IfSome, IsSome};
ghost use Rattle.ov_base.specs.Sets.{Has, single};
ghost use Rattle.ov_graph.specs.Chain.{IsDistance, IsChosen, IsChain};
ghost use Rattle.ov_graph.specs.Contents.{FollowsCovers, HasNode};
ghost use Rattle.ov_graph.specs.Reach.{Leads};
ghost use Rattle.ov_chain.specs.Distances.{AreFound};
ghost use Rattle.ov_chain.specs.Path.{IsShortestPath};

use crate::distances::{first_at, measure};
use crate::marks::mark_ancestors;
use ov_base::Memory;
use ov_graph::Graph;
use ov_tokens::{Chain, Layer, Step, Steps};
use std::alloc::Global;

/// The distances from the root of the nodes that lead to `node`, by number. It takes its memory
/// before it begins.
fn distances_to<L: Layer, G: Graph<L, W>, const W: usize>(
    alloc: Global,
    graph: &G,
    root: u32,
    node: u32,
) -> Result<Vec<Option<u32>>, Memory>
    requires { HasNode (G.contents graph.now) node }
    ensures found { IfOk result (λ distances.
        AreFound (G.contents graph.now).sets root node distances.items) }
    ensures length { IfOk result (λ distances. length distances.items ≡ node + 1) }
{
    graph.known();
    let count = node as usize + 1;
    let mut marks = vec![in alloc; false; count]?;
    let mut distances = vec![in alloc; None; count]?;
    mark_ancestors::<L, G, W>(graph, node, &mut marks);
    measure::<L, G, W>(graph, root, &marks, &mut distances);
    Ok(distances)
}

/// The steps to a node that lies so far from the root, found from their end, with memory for just
/// these.
fn steps_back<L: Layer, G: Graph<L, W>, const W: usize>(
    alloc: Global,
    graph: &G,
    distances: &[Option<u32>],
    root: u32,
    node: u32,
    far: u32,
) -> Result<Steps, Memory>
    requires there { HasNode (G.contents graph.now) node }
    requires room { length distances.now ≡ node + 1 }
    requires found { AreFound (G.contents graph.now).sets root node distances.now }
    requires far { IsDistance (G.contents graph.now).sets root node far }
    ensures { IfOk result (λ steps.
        IsChosen L.label_kind (G.contents graph.now) root node far steps) }
{
    graph.known();
    let mut steps = Vec::with_capacity(alloc, far as usize)?;
    let mut here = node;
    for left in (0..far).rev() {
        let Some(edge) = first_at(graph.in_tokens(here), distances, left) else {
            unreachable!()
        };
        steps.push(Step {
            to: L::label(here),
            token: edge.token,
        })?;
        here = edge.from;
    }
    steps.reverse();
    Ok(Steps::from_vec(steps))
}

/// The chain from `root` to `node`: a shortest path over the edges, and among the shortest the one
/// that goes, back from `node`, each time over the first edge into a node whose start lies one edge
/// nearer to `root`. None exactly where the edges don't lead from `root` to `node`.
///
/// Memory for the search is taken before the search begins, and that for the steps once it is known
/// how many they are: the chain keeps no more.
pub fn shortest<L: Layer, G: Graph<L, W>, const W: usize>(
    alloc: Global,
    graph: &G,
    root: u32,
    node: u32,
) -> Result<Option<Chain>, Memory>
    requires root { HasNode (G.contents graph.now) root }
    requires node { HasNode (G.contents graph.now) node }

    // Which chain it is, and which edges it is over: those of the graph itself.
    ensures root { IfOk result (λ answer. IfSome answer (λ chain. chain.root ≡ root)) }
    ensures chain { IfOk result (λ answer. IfSome answer (λ chain.
        IsChain L.label_kind (G.contents graph.now) root node chain.steps)) }

    ensures edges { FollowsCovers (G.contents graph.now) }

    // What follows for any chain that is chosen so.
    ensures shortest { IfOk result (λ answer. IfSome answer (λ chain.
        IsShortestPath L.label_kind (G.contents graph.now) root node chain.steps)) }

    // When there is one.
    ensures some { IfOk result (λ answer.
        IsSome answer ↔ Leads (G.contents graph.now).sets root node) }
    ensures held { IfOk result (λ answer.
        (user : ℕ) → slice_index (G.contents graph.now).sets root ≡ single user
        → IsSome answer ↔ Has (slice_index (G.contents graph.now).sets node) user) }
{
    graph.known();
    let distances = distances_to::<L, G, W>(alloc, graph, root, node)?;
    match distances[node as usize] {
        None => Ok(None),
        Some(far) => {
            let steps = steps_back::<L, G, W>(alloc, graph, &distances, root, node, far)?;
            Ok(Some(Chain { root, steps }))
        }
    }
}
