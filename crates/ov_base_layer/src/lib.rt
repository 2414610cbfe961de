//! The base layer: a graph of keys over the sets of users that files were created for, and the
//! access tokens that were published since.
//!
//! A file that is created for a list of users is encrypted under the access key of the node whose
//! set is the list. Each user of the set reaches the node over the edges. A user who is granted the
//! file later, and doesn't hold the node, gets an access token: it leads from the derivation key of
//! the user's own root to the access key of the node, and to nothing else. The *holders* of a node
//! are its set's users and all to whom an access token to the node was published; a user who became
//! a holder stays one.
//!
//! A [`BaseLayer`] keeps both over any [`ov_graph::Graph`]. A set is added as to a graph: planned
//! by [`BaseLayer::plan_create`], sealed by [`seal_cover`], with room from [`BaseLayer::reserve`].
//! An access token ([`Grant`]) is wanted where [`BaseLayer::plan_grant`] says so, made by
//! [`seal_access`], and added with room from [`BaseLayer::reserve_access`]. Both additions take no
//! memory.
//!
//! A contract sees a layer as `specs/BaseContents` says; `specs/Holders` are the holders, by cases
//! and in one sentence, and what holds of access tokens; `specs/Seals` are the tokens.
//!
//! Nothing is claimed of secrecy.
#![tactic(auto)]

mod access;
mod grant;
mod laws;
mod layer;
mod seal;

pub use grant::Grant;
pub use laws::{holders_grow, seals_lead};
pub use layer::BaseLayer;
pub use ov_graph::seal_edges;
pub use seal::{seal_access, seal_cover};
