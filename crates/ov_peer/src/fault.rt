//! Why an ask has no answer, by whom it was asked.

use thiserror::Error;

/// Why an ask has no answer.
#[derive(Clone, Copy, Debug, PartialEq, Eq, Error)]
pub enum PeerFault {
    /// The link failed. Whether the request came isn't known.
    #[error("the link failed")]
    Link,
    /// Memory was refused.
    #[error("out of memory")]
    Memory,
}

/// Why an ask has no answer that can be read.
#[derive(Clone, Copy, Debug, PartialEq, Eq, Error)]
pub enum ExchangeFault {
    /// The link failed. Whether the request came isn't known.
    #[error("the link failed")]
    Link,
    /// The grammar has no such answer to the request; `at` is the place of the reply's first wrong
    /// byte.
    #[error("the reply is no answer (byte {at})")]
    BadReply { at: u32 },
    /// Memory was refused.
    #[error("out of memory")]
    Memory,
}

/// Why there is no reply to what a session asks.
#[derive(Clone, Copy, Debug, PartialEq, Eq, Error)]
pub enum AskFault {
    /// The asker has asked as often as it may, and didn't ask.
    #[error("asked as often as may be")]
    Spent,
    /// Memory was refused.
    #[error("out of memory")]
    Memory,
}
