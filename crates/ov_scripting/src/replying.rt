//! Replies to commands, by what an owner or a reader got.
ghost use Rattle.std.specs.Prelude.{◌≡◌};
ghost use Rattle.ov_acts.specs.Stops.{stop_of_client, stop_of_owner};
ghost use Rattle.ov_scripting.specs.Performing.{change_reply, epoch_reply, fault_reply};
ghost use Rattle.ov_scripting.specs.Performing.{names_reply, read_reply, with_epoch};

use ov_acts::Stop;
use ov_base::{Name, Names, Octets};
use ov_client::ClientFault;
use ov_owner::{OwnerFault, Welcome};
use ov_script::Reply;

/// Why an owner's call stops whose fault this is.
pub fn stop_of_owner(fault: OwnerFault) -> Stop
    ensures { result ≡ stop_of_owner fault }
{
    match fault {
        OwnerFault::Refused(why) => Stop::Refused(why),
        OwnerFault::Link => Stop::Link,
        OwnerFault::BadReply { at: _ } => Stop::BadReply,
        OwnerFault::BadTag => Stop::OtherKeys,
        OwnerFault::Device => Stop::Device,
        OwnerFault::Unsettled { epochs: _ } => Stop::Unsettled,
        OwnerFault::Memory => Stop::Memory,
    }
}

/// The reply where an owner's call ends with this fault, or why there is none.
pub fn fault_reply(fault: OwnerFault) -> Result<Reply, Stop>
    ensures { result ≡ fault_reply fault }
{
    match fault {
        OwnerFault::Refused(why) => Ok(Reply::Refused(why)),
        fault => Err(stop_of_owner(fault)),
    }
}

/// The reply to a change, or why there is none.
pub fn change_reply(made: Result<u32, OwnerFault>) -> Result<Reply, Stop>
    ensures { result ≡ change_reply made }
{
    match made {
        Ok(epoch) => Ok(Reply::Accepted(epoch)),
        Err(fault) => fault_reply(fault),
    }
}

/// The epoch that is told, or why none is.
pub fn epoch_in(told: Result<Welcome, OwnerFault>) -> Result<u32, Stop>
    ensures { with_epoch result ≡ epoch_reply told }
{
    match told {
        Ok(welcome) => Ok(welcome.epoch),
        Err(fault) => Err(stop_of_owner(fault)),
    }
}

/// The reply to a question for the names in a file's list, or why there is none.
pub fn names_reply(file: Name, told: Result<Names, OwnerFault>) -> Result<Reply, Stop>
    ensures { result ≡ names_reply file told }
{
    match told {
        Ok(names) => Ok(Reply::List { file, names }),
        Err(fault) => fault_reply(fault),
    }
}

/// Why a read stops whose fault this is.
fn stop_of_client(fault: ClientFault) -> Stop
    ensures { result ≡ stop_of_client fault }
{
    match fault {
        ClientFault::Refused(why) => Stop::Refused(why),
        ClientFault::Link => Stop::Link,
        ClientFault::BadReply { at: _ } => Stop::BadReply,
        ClientFault::Damaged {
            stored: _,
            computed: _,
        } => Stop::Damaged,
        ClientFault::Device => Stop::Device,
        ClientFault::Unsettled { generations: _ } => Stop::Unsettled,
        ClientFault::Memory => Stop::Memory,
    }
}

/// The reply to a read with a reader's keys, or why there is none.
pub fn read_reply(user: Name, file: Name, found: Result<Octets, ClientFault>) -> Result<Reply, Stop>
    ensures { result ≡ read_reply user file found }
{
    match found {
        Ok(bytes) => Ok(Reply::Bytes { user, file, bytes }),
        Err(ClientFault::Refused(why)) => Ok(Reply::Refused(why)),
        Err(fault) => Err(stop_of_client(fault)),
    }
}
