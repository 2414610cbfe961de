//! Why an act has no result.
ghost use Rattle.std.specs.Prelude.{◌≡◌};
ghost use Rattle.ov_acts.specs.Status.{status_code};
ghost use Rattle.ov_acts.specs.Stops.{stop_code, stop_of_client, stop_of_owner};

use crate::status::Status;
use ov_base::Refusal;
use ov_client::ClientFault;
use ov_owner::OwnerFault;

/// Why an act has no result.
#[derive(Clone, Copy, Debug, PartialEq, Eq)]
pub enum Stop {
    /// The server refuses it.
    Refused(Refusal),
    /// The server's disk failed.
    Device,
    /// A file couldn't be read.
    Read,
    /// Memory was refused, here or at the server.
    Memory,
    /// The link to the server failed.
    Link,
    /// The store is one of other masters, by its check value or by the owner's tag.
    OtherKeys,
    /// What should be the key file isn't one.
    BadKeys,
    /// A reply is no answer to its request.
    BadReply,
    /// The file's tag isn't that of its bytes.
    Damaged,
    /// Others were faster at each try.
    Unsettled,
    /// The bytes are more than a file may have.
    TooLong,
}

impl Stop {
    /// The exit status of a reason to stop.
    pub fn status(self) -> Status
        ensures { status_code result ≡ stop_code self }
    {
        match self {
            Stop::Refused(_) => Status::Refused,
            Stop::Device => Status::Device,
            Stop::Read => Status::ReadFault,
            Stop::Memory => Status::OutOfMemory,
            Stop::Link => Status::LinkFault,
            Stop::OtherKeys => Status::OtherKeys,
            Stop::BadKeys => Status::BadKeys,
            Stop::BadReply => Status::BadReply,
            Stop::Damaged => Status::Damaged,
            Stop::Unsettled => Status::Unsettled,
            Stop::TooLong => Status::TooLong,
        }
    }
}

/// Why an act stops of whose owner's call this is the fault.
pub fn stop_of_owner(fault: OwnerFault) -> Stop
    ensures { result ≡ stop_of_owner fault }
{
    match fault {
        OwnerFault::Refused(why) => Stop::Refused(why),
        OwnerFault::Link => Stop::Link,
        OwnerFault::BadReply { at: _ } => Stop::BadReply,
        OwnerFault::BadTag => Stop::OtherKeys,
        OwnerFault::Device => Stop::Device,
        OwnerFault::Unsettled { epochs: _ } => Stop::Unsettled,
        OwnerFault::Memory => Stop::Memory,
    }
}

/// Why a read stops whose fault this is.
pub fn stop_of_client(fault: ClientFault) -> Stop
    ensures { result ≡ stop_of_client fault }
{
    match fault {
        ClientFault::Refused(why) => Stop::Refused(why),
        ClientFault::Link => Stop::Link,
        ClientFault::BadReply { at: _ } => Stop::BadReply,
        ClientFault::Damaged {
            stored: _,
            computed: _,
        } => Stop::Damaged,
        ClientFault::Device => Stop::Device,
        ClientFault::Unsettled { generations: _ } => Stop::Unsettled,
        ClientFault::Memory => Stop::Memory,
    }
}
