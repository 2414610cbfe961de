//! How the reading of a script ends.
ghost use Rattle.std.specs.Prelude.{◌≡◌};
ghost use Rattle.ov_script.specs.Place.{answer_of};
ghost use Rattle.ov_script.specs.declared.ended.Ended.TheVariants.{Fault as OfFault};
ghost use Rattle.ov_script.specs.declared.next.ScriptFault.TheVariants.{Memory as OfMemory, Read};

use crate::next::{Next, ScriptFault};
use ov_base::Memory;
use ov_io::Fault;

/// Why no item is read, and therefore how the reading ends.
#[derive(Clone, Copy, Debug, PartialEq, Eq)]
pub enum Ended {
    /// The text ends.
    End,
    /// A bad item is there.
    Bad,
    /// The text goes on past what may be read, which is no bad item.
    Long,
    /// The source failed, or memory was refused.
    Fault(ScriptFault),
}

impl Ended {
    /// What is answered from then on, where the next item would be on this line.
    pub fn answer(self, line: u64) -> Result<Next, ScriptFault>
        ensures { result ≡ answer_of line self }
    {
        match self {
            Ended::End => Ok(Next::End),
            Ended::Bad => Ok(Next::BadLine { line }),
            Ended::Long => Ok(Next::Long),
            Ended::Fault(fault) => Err(fault),
        }
    }
}

impl From<ScriptFault> for Ended {
    ghost from_gives = { λ fault ended. ended ≡ OfFault fault };

    fn from(fault: ScriptFault) -> Ended {
        Ended::Fault(fault)
    }
}

impl From<Memory> for Ended {
    ghost from_gives = { λ _ ended. ended ≡ OfFault OfMemory };

    fn from(_: Memory) -> Ended {
        Ended::Fault(ScriptFault::Memory)
    }
}

impl From<Fault> for Ended {
    ghost from_gives = { λ _ ended. ended ≡ OfFault Read };

    fn from(_: Fault) -> Ended {
        Ended::Fault(ScriptFault::Read)
    }
}
