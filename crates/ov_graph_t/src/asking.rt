//! All that a graph answers where it is asked for a set, so that two graphs can be compared.
ghost use Rattle.std.specs.Prelude.{◌≤◌, ◌+◌, length};
ghost use Rattle.ov_base.specs.declared.limits.TheConstants.{MAX_LAYER_NODES};
ghost use Rattle.ov_graph.specs.Contents.{HasNode};

use ov_base::{Memory, UserSet};
use ov_chain::shortest;
use ov_graph::{Cover, Graph, GraphRefusal};
use ov_tokens::{Chain, Edge, Layer};
use std::alloc::Global;

/// What a graph answers of a node.
#[derive(Drop)]
pub struct NodeAnswers<const W: usize> {
    pub node: u32,
    pub set: UserSet<W>,
    /// The edges into the node, in order.
    pub edges: Vec<Edge>,
    /// The chain to the node from a root, or None where the root doesn't lead to it.
    pub chain: Option<Chain>,
}

/// What a graph answers where it is asked for a set.
#[derive(Drop)]
pub struct Answers<const W: usize> {
    /// How many nodes the graph has.
    pub count: u32,
    /// What the set gets that comes after the graph's sets and some others.
    pub cover: Cover,
    /// What is said of the node that has the set, where one has it.
    pub found: Option<NodeAnswers<W>>,
}

fn of_node<L: Layer, G: Graph<L, W>, const W: usize>(
    alloc: Global,
    graph: &G,
    root: u32,
    node: u32,
) -> Result<NodeAnswers<W>, Memory>
    requires root { HasNode (G.contents graph.now) root }
    requires node { HasNode (G.contents graph.now) node }
{
    let edges = graph.in_tokens(node).to_vec(alloc)?;
    let chain = shortest::<L, G, W>(alloc, graph, root, node)?;
    Ok(NodeAnswers {
        node,
        set: graph.set_of(node),
        edges,
        chain,
    })
}

/// Asks a graph each question that its trait has: how many nodes there are, what is planned for a
/// set after the graph's sets and those of `before`, the node of the set, and for that node its
/// set, its edges and its chain from a root. Graphs with the same sets and edges have the same
/// answers.
pub fn ask_all<L: Layer, G: Graph<L, W>, const W: usize>(
    alloc: Global,
    graph: &G,
    before: &[UserSet<W>],
    set: &UserSet<W>,
    root: u32,
) -> Result<Answers<W>, GraphRefusal>
    requires nodes { length (G.contents graph.now).sets + length before.now ≤ MAX_LAYER_NODES }
    requires root { HasNode (G.contents graph.now) root }
{
    let cover = graph.plan(alloc, before, set)?;
    let found = match graph.find(set) {
        Some(node) => Some(of_node::<L, G, W>(alloc, graph, root, node)?),
        None => None,
    };
    Ok(Answers {
        count: graph.count(),
        cover,
        found,
    })
}
