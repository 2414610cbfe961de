//! Why a store isn't listed.
ghost use Rattle.std.specs.Prelude.{◌≡◌};
ghost use Rattle.ov_listing.specs.Causes.{listing_fault};

use ov_peer::ExchangeFault;
use thiserror::Error;

/// Why a store isn't listed.
#[derive(Clone, Copy, Debug, PartialEq, Eq, Error)]
pub enum ListingFault {
    /// The link failed.
    #[error("the link failed")]
    Link,
    /// A reply can't be: its request allows no such answer, or there are more names than a store
    /// can have; `at` is the place of its first wrong byte. That a file isn't there any more is an
    /// answer to the request for its list.
    #[error("a reply is no answer (byte {at})")]
    BadReply { at: u32 },
    /// The store was changed in each of nine tries: its epoch moved, or a file was removed before its
    /// list was asked for.
    #[error("the store changed while it was listed, in each of nine tries")]
    Unsettled,
    /// Memory was refused, here or at the server.
    #[error("out of memory")]
    Memory,
}

/// The fault of a question that has no answer.
pub fn fault_of(fault: ExchangeFault) -> ListingFault
    ensures { result ≡ listing_fault fault }
{
    match fault {
        ExchangeFault::Link => ListingFault::Link,
        ExchangeFault::BadReply { at } => ListingFault::BadReply { at },
        ExchangeFault::Memory => ListingFault::Memory,
    }
}
