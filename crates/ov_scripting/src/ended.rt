//! How a script ended.
ghost use Rattle.std.specs.Prelude.{◌≡◌};
ghost use Rattle.ov_scripting.specs.Endings.{ended_code};

use ov_acts::Stop;

/// How the answering of a script ended.
#[derive(Clone, Copy, Debug, PartialEq, Eq)]
pub enum Ended {
    /// All its commands were replied to, and the store is at this epoch.
    Done(u32),
    /// A bad item is at this line.
    BadLine(u64),
    /// The script is too long.
    Long,
    /// A line wasn't put.
    Unwritten,
    /// A command, the keys or the end wasn't answered, or the script wasn't read, for this reason.
    Stopped(Stop),
}

impl Ended {
    /// The exit status.
    pub fn code(self) -> u8
        ensures { result ≡ ended_code self }
    {
        match self {
            Ended::Done(_) => 0,
            Ended::BadLine(_) => 20,
            Ended::Long => 14,
            Ended::Unwritten => 6,
            Ended::Stopped(stop) => stop.status().code(),
        }
    }
}
