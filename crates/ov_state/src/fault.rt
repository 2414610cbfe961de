//! Why a state answers no change, or no chain.
ghost use Rattle.std.specs.Prelude.{◌≡◌};
ghost use Rattle.ov_state.specs.Faults.{chain_fault_of, fault_of, prepare_fault_of};
ghost use Rattle.ov_state.specs.declared.fault.PrepareFault.TheVariants.{Memory as NoMemory};
ghost use Rattle.ov_state.specs.declared.fault.PrepareFault.TheVariants.{Refused};
ghost use Rattle.ov_state.specs.declared.fault.ChainFault.TheVariants.{Memory as NoChainMemory};
ghost use Rattle.ov_state.specs.declared.fault.ChainFault.TheVariants.{Refused as NoChain};

use ov_base::{Memory, Refusal};
use ov_graph::GraphRefusal;

/// Why no change is prepared.
#[derive(Clone, Copy, Debug, PartialEq, Eq)]
pub enum PrepareFault {
    /// The access-matrix machine refuses the update.
    Refused(Refusal),
    /// The update isn't refused, but the number of its tokens, or whether it has an access token,
    /// isn't what the layers want; this is the place of that number or flag in the update's
    /// spelling.
    BadPlan { at: u32 },
    /// Memory was refused.
    Memory,
}

impl From<Memory> for PrepareFault {
    ghost from_gives = { λ _ fault. fault ≡ NoMemory };

    fn from(_: Memory) -> Self {
        PrepareFault::Memory
    }
}

impl From<Refusal> for PrepareFault {
    ghost from_gives = { λ why fault. fault ≡ Refused why };

    fn from(why: Refusal) -> Self {
        PrepareFault::Refused(why)
    }
}

impl From<GraphRefusal> for PrepareFault {
    ghost from_gives = { λ why fault. fault ≡ fault_of why };

    fn from(why: GraphRefusal) -> Self {
        match why {
            GraphRefusal::NodesFull => PrepareFault::Refused(Refusal::NodesFull),
            GraphRefusal::Memory => PrepareFault::Memory,
        }
    }
}

impl From<ChainFault> for PrepareFault {
    ghost from_gives = { λ why fault. fault ≡ prepare_fault_of why };

    fn from(why: ChainFault) -> Self {
        match why {
            ChainFault::Refused(why) => PrepareFault::Refused(why),
            ChainFault::Memory => PrepareFault::Memory,
        }
    }
}

/// Why no chain is given, or a question isn't answered.
#[derive(Clone, Copy, Debug, PartialEq, Eq)]
pub enum ChainFault {
    /// The access-matrix machine refuses the read, or the update that is asked about.
    Refused(Refusal),
    /// Memory was refused.
    Memory,
}

impl From<Memory> for ChainFault {
    ghost from_gives = { λ _ fault. fault ≡ NoChainMemory };

    fn from(_: Memory) -> Self {
        ChainFault::Memory
    }
}

impl From<Refusal> for ChainFault {
    ghost from_gives = { λ why fault. fault ≡ NoChain why };

    fn from(why: Refusal) -> Self {
        ChainFault::Refused(why)
    }
}

impl From<GraphRefusal> for ChainFault {
    ghost from_gives = { λ why fault. fault ≡ chain_fault_of why };

    fn from(why: GraphRefusal) -> Self {
        match why {
            GraphRefusal::NodesFull => ChainFault::Refused(Refusal::NodesFull),
            GraphRefusal::Memory => ChainFault::Memory,
        }
    }
}
