//! Edges of a graph of keys.

use crate::Token;

/// An edge that comes into a node: the node of the same layer that it starts at, and its token.
#[derive(Clone, Copy, Debug, PartialEq, Eq)]
pub struct Edge {
    pub from: u32,
    pub token: Token,
}
