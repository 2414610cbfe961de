//! Why there are no settings.
ghost use Rattle.std.specs.Prelude.{◌≡◌};
ghost use Rattle.ov_settings.specs.Settings.{fault_code};

use ov_base::Memory;
use ov_io::Fault;

/// Why there are no settings. The variants with the name of a key say that it is missing, or not as
/// it should be; that of `workers`, which may be missing, that it is there and not as it should be.
#[derive(Clone, Copy, Debug, PartialEq, Eq)]
pub enum SettingsFault {
    /// A read failed.
    Read,
    /// Memory was refused.
    Memory,
    /// The file has more than 65,536 bytes.
    TooLong,
    /// The file isn't UTF-8, or no TOML document.
    NotToml,
    Address,
    Mode,
    Surface,
    BaseCheck,
    Book,
    Blobs,
    Sessions,
    Workers,
}

impl SettingsFault {
    /// The exit status for a fault: 5 where a read failed, 7 where memory was refused, and else 2.
    pub fn code(self) -> u8
        ensures { result ≡ fault_code self }
    {
        match self {
            SettingsFault::Read => 5,
            SettingsFault::Memory => 7,
            _ => 2,
        }
    }
}

impl From<Memory> for SettingsFault {
    ghost use Rattle.ov_settings.specs.declared.fault.SettingsFault.TheVariants.{Memory};

    ghost from_gives = { λ _ fault. fault ≡ Memory };

    fn from(_: Memory) -> Self {
        SettingsFault::Memory
    }
}

impl From<Fault> for SettingsFault {
    ghost use Rattle.ov_settings.specs.declared.fault.SettingsFault.TheVariants.{Read};

    ghost from_gives = { λ _ fault. fault ≡ Read };

    fn from(_: Fault) -> Self {
        SettingsFault::Read
    }
}
