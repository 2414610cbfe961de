//! How far nodes lie from a root.

ghost use Rattle.std.specs.Prelude.{◌≡◌, ◌<◌, ◌≤◌, ◌+◌, ℕ, None, length, All, IfSome, Contains};
ghost use Rattle.ov_base.specs.declared.limits.TheConstants.{MAX_LAYER_NODES};
ghost use Rattle.ov_graph.specs.Contents.{HasNode};
ghost use Rattle.ov_graph.specs.Reach.{starts};
ghost use Rattle.ov_chain.specs.Marks.{IsClosed};
ghost use Rattle.ov_chain.specs.Distances.{distance_at, smaller, one_more, least_start, first_near};
ghost use Rattle.ov_chain.specs.Distances.{IsFound, MarkedAreFound};

use ov_graph::Graph;
use ov_tokens::{Edge, Layer};

fn least_of(a: Option<u32>, b: Option<u32>) -> Option<u32>
    ensures { result ≡ smaller a b }
{
    match (a, b) {
        (None, _) => b,
        (_, None) => a,
        (Some(x), Some(y)) => Some(x.min(y)),
    }
}

/// One edge more than the least distance of the edges' starts.
fn beyond(edges: &[Edge], distances: &[Option<u32>]) -> Option<u32>
    requires inside { All (λ edge. edge.from < length distances.now) edges.now }
    requires small { All (λ edge. IfSome (distance_at distances.now edge.from)
        (λ distance. distance < MAX_LAYER_NODES)) edges.now }
    ensures { result ≡ one_more (least_start distances.now None edges.now) }
{
    let mut least = None;
    for edge in edges {
        least = least_of(least, distances[edge.from as usize]);
    }
    least.map(|distance| distance + 1)
}

/// The first of the edges whose start lies at this distance.
pub fn first_at(edges: &[Edge], distances: &[Option<u32>], distance: u32) -> Option<Edge>
    requires { All (λ edge. edge.from < length distances.now) edges.now }
    ensures { result ≡ first_near distances.now distance edges.now }
{
    for edge in edges {
        if distances[edge.from as usize] == Some(distance) {
            return Some(*edge);
        }
    }
    None
}

/// The distance of a node from the root, by those of the starts of the edges into it.
fn distance_of<L: Layer, G: Graph<L, W>, const W: usize>(
    graph: &G,
    distances: &[Option<u32>],
    root: u32,
    node: u32,
) -> Option<u32>
    requires there { HasNode (G.contents graph.now) node }
    requires inside { node < length distances.now }
    requires starts { let sets = (G.contents graph.now).sets in
        (from : ℕ) → Contains (starts sets node) from
        → IsFound sets root from (distance_at distances.now from) }
    ensures { IsFound (G.contents graph.now).sets root node result }
{
    graph.known();
    if node == root {
        return Some(0);
    }
    beyond(graph.in_tokens(node), distances)
}

/// Finds the distances of the marked nodes from the root.
pub fn measure<L: Layer, G: Graph<L, W>, const W: usize>(
    graph: &G,
    root: u32,
    marks: &[bool],
    distances: &mut [Option<u32>],
)
    requires nodes { length marks.now ≤ length (G.contents graph.now).sets }
    requires room { length distances.old ≡ length marks.now }
    requires closed { IsClosed (G.contents graph.now).sets marks.now }
    ensures { MarkedAreFound (G.contents graph.now).sets root marks.now distances.new }
{
    graph.known();
    for n in 0..marks.len() {
        if marks[n] {
            distances[n] = distance_of::<L, G, W>(graph, distances, root, n as u32);
        }
    }
}
