//! The exit statuses.
ghost use Rattle.std.specs.Prelude.{◌≡◌, IfSome, Some};
ghost use Rattle.ov_answering.specs.Status.{status_code};
ghost use Rattle.ov_answering.specs.declared.status.Status.{Status};

/// How a run ended.
#[derive(Clone, Copy, Debug, PartialEq, Eq)]
pub enum Status {
    /// The whole script was answered.
    Done,
    /// The words of the command line aren't known.
    Usage,
    /// The script has a bad item.
    BadLine,
    /// A call of the disk failed.
    DiskFault,
    /// A read failed.
    ReadFault,
    /// A write failed.
    WriteFault,
    /// Memory was refused.
    OutOfMemory,
    /// The disk has no store, or a damaged one.
    NotAStore,
    /// The store is one of other keys or of the other mode.
    OtherStore,
    /// What should be the key file isn't one.
    BadKeys,
    /// The script is too long.
    Long,
    /// The tag of a file that was read is wrong.
    WrongTag,
    /// The disk that is to take a new store isn't empty.
    NotEmpty,
}

impl Status {
    /// The number with which the program ends.
    pub fn code(self) -> u8
        ensures { result ≡ status_code self }
    {
        match self {
            Status::Done => 0,
            Status::Usage => 2,
            Status::BadLine => 3,
            Status::DiskFault => 4,
            Status::ReadFault => 5,
            Status::WriteFault => 6,
            Status::OutOfMemory => 7,
            Status::NotAStore => 8,
            Status::OtherStore => 9,
            Status::BadKeys => 10,
            Status::Long => 11,
            Status::WrongTag => 12,
            Status::NotEmpty => 14,
        }
    }

    /// The status of this number.
    pub fn from_code(code: u8) -> Option<Status>
        ensures found { (status : Status) → code ≡ status_code status → result ≡ Some status }
        ensures only { IfSome result (λ status. status_code status ≡ code) }
    {
        match code {
            0 => Some(Status::Done),
            2 => Some(Status::Usage),
            3 => Some(Status::BadLine),
            4 => Some(Status::DiskFault),
            5 => Some(Status::ReadFault),
            6 => Some(Status::WriteFault),
            7 => Some(Status::OutOfMemory),
            8 => Some(Status::NotAStore),
            9 => Some(Status::OtherStore),
            10 => Some(Status::BadKeys),
            11 => Some(Status::Long),
            12 => Some(Status::WrongTag),
            14 => Some(Status::NotEmpty),
            _ => None,
        }
    }
}
