//! Marks on the nodes that lead to a node.

ghost use Rattle.std.specs.Prelude.{◌≡◌, ◌<◌, ◌≤◌, ◌+◌, length, All};
ghost use Rattle.ov_graph.specs.Contents.{HasNode};
ghost use Rattle.ov_chain.specs.Marks.{IsMarked, IsClosed, starts_marked};

use ov_graph::Graph;
use ov_tokens::{Edge, Layer};

/// Marks the starts of the edges.
fn mark_starts(edges: &[Edge], marks: &mut [bool])
    requires { All (λ edge. edge.from < length marks.old) edges.now }
    ensures { marks.new ≡ starts_marked edges.now marks.old }
{
    for edge in edges {
        marks[edge.from as usize] = true;
    }
}

/// Marks the node, and the start of each edge into a marked node. The marks are of the nodes up to
/// this one.
pub fn mark_ancestors<L: Layer, G: Graph<L, W>, const W: usize>(
    graph: &G,
    node: u32,
    marks: &mut [bool],
)
    requires there { HasNode (G.contents graph.now) node }
    requires marks { length marks.old ≡ node + 1 }
    ensures node { IsMarked marks.new node }
    ensures closed { IsClosed (G.contents graph.now).sets marks.new }
{
    graph.known();
    marks[node as usize] = true;
    for n in (0..node + 1).rev() {
        if marks[n as usize] {
            mark_starts(graph.in_tokens(n), marks);
        }
    }
}
