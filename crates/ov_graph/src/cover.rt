//! What a set gets that is added to a graph.
ghost use Rattle.std.specs.Prelude.{◌≡◌};
ghost use Rattle.ov_graph.specs.declared.cover.GraphRefusal.TheVariants.{Memory};

use ov_base::Memory;
use ov_tokens::Numbers;

/// What a set gets that comes after the sets of a graph.
///
/// A fresh set gets the next node, and an edge from each node of `from`, in this order. A set that
/// is there already has its node, and `from` is empty.
#[derive(Drop)]
pub struct Cover {
    pub node: u32,
    pub fresh: bool,
    pub from: Numbers,
}

/// Why a cover isn't planned.
#[derive(Clone, Copy, Debug, PartialEq, Eq)]
pub enum GraphRefusal {
    /// The set is new, and there are 4,096 nodes.
    NodesFull,
    /// Memory was refused.
    Memory,
}

impl From<Memory> for GraphRefusal {
    ghost from_gives = { λ _ refusal. refusal ≡ Memory };

    fn from(_: Memory) -> Self {
        GraphRefusal::Memory
    }
}
