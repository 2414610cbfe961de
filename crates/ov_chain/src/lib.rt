//! Shortest chains of tokens in a graph of keys, and the keys that they lead to.
//!
//! [`shortest`] finds the chain from one node of a graph to another, over any [`ov_graph::Graph`]:
//! it has the fewest edges, and among the chains with as few, going back from its end, each step is
//! the first of the edges into its node whose start lies one edge nearer to the root. There is none
//! exactly where the edges don't lead from the one node to the other. Graphs with the same sets and
//! edges have the same chain, however each is kept: [`chains_are_unique`]. The search marks the
//! nodes that lead to the node, measures how far they lie from the root, and goes back; it looks
//! once at each edge into a marked node for the marks, once for the distances, and at most once
//! more on the way back.
//!
//! [`walk`] derives the keys along a chain. Over a chain whose tokens are those of its labels' keys
//! it gives the key of the last label, and over the chain that `shortest` finds in a graph of such
//! tokens the key of the node. [`walk_to_access`] goes on to the access key of a base chain's node.
//!
//! `ov_graph`'s `specs/Chain` says which chain is chosen, `specs/Path` what a path over edges is
//! and `specs/Walk` where a chain leads. `specs/Marks` and `specs/Distances` are of the search
//! alone.
//!
//! Nothing is claimed of secrecy: not that a key can't be found without a chain.
#![tactic(auto)]

mod distances;
mod keys;
mod laws;
mod marks;
mod search;

pub use keys::{walk, walk_to_access};
pub use laws::{chains_are_unique, graphs_are_sealed};
pub use search::shortest;
