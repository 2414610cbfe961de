//! Why a command isn't answered.
ghost use Rattle.std.specs.Prelude.{◌≡◌};

use ov_base::{Memory, Name};

/// A file whose stored tag isn't that of its bytes: the stored one, and the one that its reader
/// computed.
#[derive(Drop)]
pub struct BadTag {
    pub file: Name,
    pub stored: [u8; 32],
    pub computed: [u8; 32],
}

/// Why a command isn't answered.
#[derive(Drop)]
pub enum StepFault {
    /// A call of the disk failed.
    Disk,
    /// A frame wasn't put to the sink of frames.
    Trace,
    /// Memory was refused.
    Memory,
    /// A file's bytes aren't those that its owner sent.
    Tag(BadTag),
}

impl From<Memory> for StepFault {
    ghost use Rattle.ov_machine.specs.declared.fault.StepFault.TheVariants.{Memory};

    ghost from_gives = { λ _ fault. fault ≡ Memory };

    fn from(_: Memory) -> Self {
        StepFault::Memory
    }
}
