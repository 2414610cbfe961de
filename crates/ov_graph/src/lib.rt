//! A graph of keys: sets of users at numbered nodes, and edges with tokens that lead from smaller
//! sets to larger ones.
//!
//! Each node has a set of users of its own and, in its layer, a key. The token of an edge turns the
//! key of the node where the edge starts into the key of the node where it ends. A user holds the
//! key of the node of that user alone, and over the edges reaches exactly the nodes whose sets have
//! the user. That is the theorem of this crate, [`leads_by_membership`]; it is proved over the
//! trait [`Graph`] alone, so it holds of every graph, in either layer and at every width.
//!
//! A set that is added gets edges from its cover. The earlier nodes whose sets are nonempty strict
//! subsets of it are gone through from the largest set to the smallest, and by rising number where
//! two are equally large; a node is kept where its set has a user who is in no kept set. To add a
//! set, [`Graph::plan`] gives its [`Cover`], [`seal_edges`] makes a token for each edge,
//! [`Graph::reserve`] makes room, and [`Graph::add`], which takes no memory, can't fail.
//! [`plan_and_add`] does all of it. [`root`] is the node of a user alone.
//!
//! [`ListGraph`] looks at every node to find a set. Another graph may keep its edges by [`rows`],
//! and take from [`covering`] which of its candidates make a cover.
//!
//! The definitions speak of lists of sets and know neither a width nor how a graph is kept:
//! `specs/Cover` of covers, `specs/Reach` of edges, where they lead and which sets a graph may
//! have, `specs/Chain` of the chosen shortest chain from one node to another, `specs/Contents` of
//! what contracts see of a graph, and `specs/Seals` of the tokens of edges.
#![tactic(auto)]

mod adding;
mod cover;
pub mod covering;
mod graph;
mod list;
mod roots;
pub mod rows;
mod sealing;

pub use adding::plan_and_add;
pub use cover::{Cover, GraphRefusal};
pub use graph::{Graph, leads_by_membership};
pub use list::ListGraph;
pub use roots::{has_roots, root};
pub use sealing::seal_edges;
