//! Replies to commands, by what the owner or a reader got of the machine's server.
ghost use Rattle.std.specs.Prelude.{◌≡◌};
ghost use Rattle.ov_machine.specs.Replying.{HasFoundFault, HasOwnFault, HasReadFault, MayCome};
ghost use Rattle.ov_machine.specs.Replying.{MayEnd, found_reply, change_reply, epoch_reply};
ghost use Rattle.ov_machine.specs.Replying.{fault_reply, names_reply, read_fault_reply, read_reply};

use crate::fault::{BadTag, StepFault};
use ov_base::{Name, Names, Octets};
use ov_client::ClientFault;
use ov_owner::{OwnerFault, Welcome};
use ov_script::Reply;

/// The reply where the owner got no answer but this, or why there is none.
fn fault_reply(fault: OwnerFault) -> Result<Reply, StepFault>
    requires { MayCome fault }
    ensures { result ≡ fault_reply fault }
{
    match fault {
        OwnerFault::Refused(why) => Ok(Reply::Refused(why)),
        OwnerFault::Link => Err(StepFault::Trace),
        OwnerFault::Device => Err(StepFault::Disk),
        OwnerFault::Memory => Err(StepFault::Memory),
        OwnerFault::BadReply { at: _ } => unreachable!(),
        OwnerFault::BadTag => unreachable!(),
        OwnerFault::Unsettled { epochs: _ } => unreachable!(),
    }
}

/// The reply to a change.
pub fn change_reply(made: Result<u32, OwnerFault>) -> Result<Reply, StepFault>
    requires { HasOwnFault made }
    ensures { result ≡ change_reply made }
{
    match made {
        Ok(epoch) => Ok(Reply::Accepted(epoch)),
        Err(fault) => fault_reply(fault),
    }
}

/// The reply to a question for the epoch.
pub fn epoch_reply(told: Result<Welcome, OwnerFault>) -> Result<Reply, StepFault>
    requires { HasOwnFault told }
    ensures { result ≡ epoch_reply told }
{
    match told {
        Ok(welcome) => Ok(Reply::Epoch(welcome.epoch)),
        Err(fault) => fault_reply(fault),
    }
}

/// The reply to a question for the names in a file's list.
pub fn names_reply(file: Name, told: Result<Names, OwnerFault>) -> Result<Reply, StepFault>
    requires { HasOwnFault told }
    ensures { result ≡ names_reply file told }
{
    match told {
        Ok(names) => Ok(Reply::List { file, names }),
        Err(fault) => fault_reply(fault),
    }
}

/// The reply to a read that ends with this fault, or why there is none.
fn read_fault_reply(file: Name, fault: ClientFault) -> Result<Reply, StepFault>
    requires { MayEnd fault }
    ensures { result ≡ read_fault_reply file fault }
{
    match fault {
        ClientFault::Refused(why) => Ok(Reply::Refused(why)),
        ClientFault::Damaged { stored, computed } => Err(StepFault::Tag(BadTag {
            file,
            stored,
            computed,
        })),
        ClientFault::Link => Err(StepFault::Trace),
        ClientFault::Device => Err(StepFault::Disk),
        ClientFault::Memory => Err(StepFault::Memory),
        ClientFault::BadReply { at: _ } => unreachable!(),
        ClientFault::Unsettled { generations: _ } => unreachable!(),
    }
}

/// What came of a read.
#[derive(Drop)]
pub enum Found {
    /// There is no reader: the user isn't there, or the call ended so.
    Unread(OwnerFault),
    /// The reader got the file's bytes, or a fault.
    Read(Result<Octets, ClientFault>),
}

/// The reply to a read with a reader's keys.
fn read_reply(
    user: Name,
    file: Name,
    found: Result<Octets, ClientFault>,
) -> Result<Reply, StepFault>
    requires { HasReadFault found }
    ensures { result ≡ read_reply user file found }
{
    match found {
        Ok(bytes) => Ok(Reply::Bytes { user, file, bytes }),
        Err(fault) => read_fault_reply(file, fault),
    }
}

/// The reply to a read.
pub fn found_reply(user: Name, file: Name, found: Found) -> Result<Reply, StepFault>
    requires { HasFoundFault found }
    ensures { result ≡ found_reply user file found }
{
    match found {
        Found::Read(found) => read_reply(user, file, found),
        Found::Unread(fault) => fault_reply(fault),
    }
}
