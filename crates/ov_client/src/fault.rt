//! Why a file isn't read.
ghost use Rattle.std.specs.Prelude.{◌≡◌};
ghost use Rattle.ov_client.specs.Causes.{client_fault};

use ov_base::Refusal;
use ov_peer::ExchangeFault;
use thiserror::Error;

/// Why a file isn't read.
#[derive(Clone, Copy, Debug, PartialEq, Eq, Error)]
pub enum ClientFault {
    /// The server refuses the chains to the file, and so the read.
    #[error("the read is refused")]
    Refused(Refusal),
    /// The link failed.
    #[error("the link failed")]
    Link,
    /// A reply can't be: its request allows no such answer, or what was told before speaks against
    /// it; `at` is the place of its first wrong byte.
    #[error("a reply is no answer (byte {at})")]
    BadReply {
        at: u32,
    },
    /// The bytes under both coats have another tag than the file.
    #[error("the file's tag is not that of its bytes")]
    Damaged {
        stored: [u8; 32],
        computed: [u8; 32],
    },
    /// The server's disk failed.
    #[error("the server's disk failed")]
    Device,
    /// In each of nine tries, which were made at these generations, the file's surface changed, or
    /// the file was removed or replaced.
    #[error("the file changed while it was read, in each of nine tries")]
    Unsettled {
        generations: [u32; 9],
    },
    /// Memory was refused, here or at the server.
    #[error("out of memory")]
    Memory,
}

/// The fault of a read of which an ask has no answer.
pub fn fault_of(fault: ExchangeFault) -> ClientFault
    ensures { result ≡ client_fault fault }
{
    match fault {
        ExchangeFault::Link => ClientFault::Link,
        ExchangeFault::BadReply { at } => ClientFault::BadReply { at },
        ExchangeFault::Memory => ClientFault::Memory,
    }
}
