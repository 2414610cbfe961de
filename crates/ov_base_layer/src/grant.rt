//! Access tokens.

use ov_tokens::Token;

/// An access token that was published: it leads from the root of a user to the access key of a base
/// node.
#[derive(Clone, Copy, Debug, PartialEq, Eq)]
pub struct Grant {
    pub user: u32,
    pub node: u32,
    pub token: Token,
}
