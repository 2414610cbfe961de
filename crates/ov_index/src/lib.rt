//! A graph of keys that finds its sets by halves.
//!
//! [`IndexGraph`] keeps its sets, edges and spans as `ov_graph`'s list does, and two orders of its
//! nodes as well: by the bytes of their sets, in which a set is searched by halves, and by the size
//! of their sets, the larger first, in which the candidates of a cover are gone through. So a plan
//! sorts nothing, passes over the sets that are too large, and ends where its cover is whole.
//!
//! Nothing that [`Graph`](ov_graph::Graph) tells can tell the two graphs apart:
//! [`graphs_answer_alike`] says so of any two.
#![tactic(auto)]

mod agreement;
mod by_set;
mod by_size;
mod index;
mod insertion;

pub use agreement::graphs_answer_alike;
pub use index::IndexGraph;
