//! How the program ends.
ghost use Rattle.std.specs.Prelude.{◌≡◌, IfSome, Some};
ghost use Rattle.ov_acts.specs.Status.{status_code};

/// How the program ends.
#[derive(Clone, Copy, Debug, PartialEq, Eq)]
pub enum Status {
    /// What was asked for was done.
    Done,
    /// The words are no line of a command.
    Usage,
    /// The server refuses the command.
    Refused,
    /// The server's disk failed.
    Device,
    /// A file couldn't be read.
    ReadFault,
    /// Standard output couldn't be written.
    WriteFault,
    /// Memory was refused, here or at the server.
    OutOfMemory,
    /// The link to the server failed.
    LinkFault,
    /// The store is one of other masters.
    OtherKeys,
    /// What should be the key file isn't one.
    BadKeys,
    /// A reply is no answer to its request.
    BadReply,
    /// The file's bytes aren't those that its owner made.
    Damaged,
    /// Others were faster, nine times.
    Unsettled,
    /// The bytes are more than a file may have.
    TooLong,
}

impl Status {
    /// The number with which the program ends.
    pub fn code(self) -> u8
        ensures { result ≡ status_code self }
    {
        match self {
            Status::Done => 0,
            Status::Usage => 2,
            Status::Refused => 3,
            Status::Device => 4,
            Status::ReadFault => 5,
            Status::WriteFault => 6,
            Status::OutOfMemory => 7,
            Status::LinkFault => 8,
            Status::OtherKeys => 9,
            Status::BadKeys => 10,
            Status::BadReply => 11,
            Status::Damaged => 12,
            Status::Unsettled => 13,
            Status::TooLong => 14,
        }
    }

    /// The status of this number.
    pub fn from_code(code: u8) -> Option<Status>
        ensures found { (status : Status) → code ≡ status_code status → result ≡ Some status }
        ensures only { IfSome result (λ status. status_code status ≡ code) }
    {
        match code {
            0 => Some(Status::Done),
            2 => Some(Status::Usage),
            3 => Some(Status::Refused),
            4 => Some(Status::Device),
            5 => Some(Status::ReadFault),
            6 => Some(Status::WriteFault),
            7 => Some(Status::OutOfMemory),
            8 => Some(Status::LinkFault),
            9 => Some(Status::OtherKeys),
            10 => Some(Status::BadKeys),
            11 => Some(Status::BadReply),
            12 => Some(Status::Damaged),
            13 => Some(Status::Unsettled),
            14 => Some(Status::TooLong),
            _ => None,
        }
    }
}
