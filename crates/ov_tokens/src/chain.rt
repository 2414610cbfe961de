//! Chains of tokens.

use crate::{Label, Steps, Token};

/// One step of a chain: the label that it leads to, by this token.
#[derive(Clone, Copy, Debug, PartialEq, Eq)]
pub struct Step {
    pub to: Label,
    pub token: Token,
}

/// The steps from a root, a node whose key the reader holds, to the label of the last step.
#[derive(Drop)]
pub struct Chain {
    pub root: u32,
    pub steps: Steps,
}
