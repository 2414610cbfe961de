//! Why `own` ends without having settled.
ghost use Rattle.std.specs.Prelude.{◌≡◌, Err};
ghost use Rattle.ov_owning.specs.Endings.{IsUnsent, own_code, unanswered, unbegun, unread, unsettled, unspelled, unwritten};
ghost use Rattle.ov_owning.specs.Running.{HasCheckForm};

use ov_acts::Stop;
use ov_base::Refusal;
use ov_book::{BookBegin, IntendFault, SettleFault, SpellFault};
use ov_fields::known_tag;
use ov_peer::ExchangeFault;

/// Why `own` has no new epoch.
#[derive(Clone, Copy, Debug, PartialEq, Eq)]
pub enum OwnStop {
    /// The book refuses the command.
    Refused(Refusal),
    /// The server's disk failed.
    Device,
    /// A file couldn't be read.
    Read,
    /// Memory was refused, here or at the server.
    Memory,
    /// The link to the server failed.
    Link,
    /// The store or the book is one of other masters, or of the other mode.
    OtherKeys,
    /// What should be the key file isn't one.
    BadKeys,
    /// A reply is no answer to its request.
    BadReply,
    /// The bytes are more than a file may have.
    TooLong,
    /// An intent is pending, at the book's epoch.
    Pending { kept: u32 },
    /// The server's epoch isn't one that the book expects.
    Differs { told: u32, kept: u32 },
    /// A call of the book's disk failed.
    Disk,
    /// What should be the book is none.
    NoBook,
    /// The server refuses the update.
    ServerRefused(Refusal),
}

impl OwnStop {
    /// The exit status.
    pub fn code(self) -> u8
        ensures { result ≡ own_code self }
    {
        match self {
            OwnStop::Refused(_) => 3,
            OwnStop::Device => 4,
            OwnStop::Read => 5,
            OwnStop::Memory => 7,
            OwnStop::Link => 8,
            OwnStop::OtherKeys => 9,
            OwnStop::BadKeys => 10,
            OwnStop::BadReply => 11,
            OwnStop::TooLong => 14,
            OwnStop::Pending { kept: _ } => 15,
            OwnStop::Differs { told: _, kept: _ } => 16,
            OwnStop::Disk => 17,
            OwnStop::NoBook => 18,
            OwnStop::ServerRefused(_) => 19,
        }
    }
}

/// Why `own` ends whose files aren't read so.
pub fn stop_of_files(stop: Stop) -> OwnStop
    ensures { result ≡ unread stop }
{
    match stop {
        Stop::BadKeys => OwnStop::BadKeys,
        Stop::Memory => OwnStop::Memory,
        Stop::TooLong => OwnStop::TooLong,
        _ => OwnStop::Read,
    }
}

/// Does nothing. Its contract is that a check value has 32 bytes.
pub fn known_check(fault: &BookBegin)
    ensures { HasCheckForm fault.now }
{
    match fault {
        BookBegin::BaseDiffers { stored, given } => {
            known_tag(stored);
            known_tag(given);
        }
        _ => {}
    }
}

/// Why `own` ends whose book isn't begun.
pub fn stop_of_begin(fault: BookBegin) -> OwnStop
    ensures { result ≡ unbegun fault }
{
    match fault {
        BookBegin::Disk => OwnStop::Disk,
        BookBegin::NotAStore | BookBegin::Damaged { offset: _ } => OwnStop::NoBook,
        BookBegin::BaseDiffers {
            stored: _,
            given: _,
        }
        | BookBegin::SurfaceDiffers {
            stored: _,
            given: _,
        }
        | BookBegin::ModeDiffers {
            stored: _,
            given: _,
        } => OwnStop::OtherKeys,
        BookBegin::Memory => OwnStop::Memory,
    }
}

/// Why `own` ends whose intent isn't written down.
pub fn stop_of_intend(fault: IntendFault, kept: u32) -> OwnStop
    ensures { result ≡ unwritten kept fault }
{
    match fault {
        IntendFault::Pending => OwnStop::Pending { kept },
        IntendFault::Refused(why) => OwnStop::Refused(why),
        IntendFault::Disk | IntendFault::Failed => OwnStop::Disk,
        IntendFault::Memory => OwnStop::Memory,
    }
}

/// Why `own` ends whose update isn't spelled.
pub fn stop_of_spelling(fault: SpellFault) -> OwnStop
    ensures stop { result ≡ unspelled fault }
    ensures unsent { IsUnsent (Err result) }
{
    match fault {
        SpellFault::Disk => OwnStop::Disk,
        SpellFault::Memory => OwnStop::Memory,
    }
}

/// Why `own` ends whose intent isn't settled.
pub fn stop_of_settle(fault: SettleFault) -> OwnStop
    ensures { result ≡ unsettled fault }
{
    match fault {
        SettleFault::Differs { told, kept } => OwnStop::Differs { told, kept },
        SettleFault::Disk | SettleFault::Failed => OwnStop::Disk,
        SettleFault::Memory => OwnStop::Memory,
    }
}

/// Why `own` ends whose ask has no answer.
pub fn stop_of_exchange(fault: ExchangeFault) -> OwnStop
    ensures { result ≡ unanswered fault }
{
    match fault {
        ExchangeFault::Link => OwnStop::Link,
        ExchangeFault::BadReply { at: _ } => OwnStop::BadReply,
        ExchangeFault::Memory => OwnStop::Memory,
    }
}
