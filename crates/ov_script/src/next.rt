//! What a script gives, item by item.
ghost use Rattle.std.specs.Prelude.{◌≡◌};
ghost use Rattle.ov_script.specs.declared.next.ScriptFault.TheVariants.{Memory as OfMemory, Read};

use crate::command::Command;
use ov_base::Memory;
use ov_io::Fault;

/// The next item of a script, or how its reading ended.
#[derive(Drop)]
pub enum Next {
    /// An item: its command.
    Command(Command),
    /// The end of the input.
    End,
    /// A bad item.
    BadLine {
        /// The line of its first byte: one more than there are LFs before that byte.
        line: u64,
    },
    /// The script is too long: of its first 268,435,456 bytes no item is bad, and the input goes
    /// on.
    Long,
}

/// Why there is no next item.
#[derive(Clone, Copy, Debug, PartialEq, Eq)]
pub enum ScriptFault {
    /// The source failed.
    Read,
    /// Memory was refused.
    Memory,
}

impl From<Memory> for ScriptFault {
    ghost from_gives = { λ _ fault. fault ≡ OfMemory };

    fn from(_: Memory) -> ScriptFault {
        ScriptFault::Memory
    }
}

impl From<Fault> for ScriptFault {
    ghost from_gives = { λ _ fault. fault ≡ Read };

    fn from(_: Fault) -> ScriptFault {
        ScriptFault::Read
    }
}
