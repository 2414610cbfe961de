//! Why a question to the book has no answer.
ghost use Rattle.std.specs.Prelude.{◌≡◌};
ghost use Rattle.ov_consulting.specs.Endings.{stop_code, unopened, unread};

use ov_acts::Stop;
use ov_base::Refusal;
use ov_book::BookBegin;

/// Why a question to the book has no answer.
#[derive(Clone, Copy, Debug, PartialEq, Eq)]
pub enum BookStop {
    /// The book has no such user or file.
    Refused(Refusal),
    /// The key file couldn't be read.
    Read,
    /// Memory was refused.
    Memory,
    /// The book is one of other masters, or of the other mode.
    OtherKeys,
    /// What should be the key file isn't one.
    BadKeys,
    /// A call of the book's disk failed.
    Disk,
    /// There is no book, or what should be it is none.
    NoBook,
}

impl BookStop {
    /// The exit status.
    pub fn code(self) -> u8
        ensures { result ≡ stop_code self }
    {
        match self {
            BookStop::Refused(_) => 3,
            BookStop::Read => 5,
            BookStop::Memory => 7,
            BookStop::OtherKeys => 9,
            BookStop::BadKeys => 10,
            BookStop::Disk => 17,
            BookStop::NoBook => 18,
        }
    }
}

/// Why a question has no answer whose key file isn't read so.
pub fn stop_of_keys(stop: Stop) -> BookStop
    ensures { result ≡ unread stop }
{
    match stop {
        Stop::BadKeys => BookStop::BadKeys,
        _ => BookStop::Read,
    }
}

/// Why a question has no answer whose book isn't opened.
pub fn stop_of_begin(fault: BookBegin) -> BookStop
    ensures { result ≡ unopened fault }
{
    match fault {
        BookBegin::Disk => BookStop::Disk,
        BookBegin::NotAStore | BookBegin::Damaged { offset: _ } => BookStop::NoBook,
        BookBegin::BaseDiffers {
            stored: _,
            given: _,
        }
        | BookBegin::SurfaceDiffers {
            stored: _,
            given: _,
        }
        | BookBegin::ModeDiffers {
            stored: _,
            given: _,
        } => BookStop::OtherKeys,
        BookBegin::Memory => BookStop::Memory,
    }
}
