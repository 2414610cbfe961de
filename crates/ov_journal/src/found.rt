//! What opening a journal finds.
use crate::{Header, Journal};

#[derive(Drop)]
pub enum Found {
    /// No store was begun here.
    Unborn,
    /// A store, with its records until a length field can't be; `bad` is the place of such a field,
    /// if there is one.
    Born {
        journal: Journal,
        header: Header,
        bad: Option<u64>,
    },
}
