//! How a server ended.

/// How a server ended: its exit status, whether its store was begun, and its disk.
#[derive(Drop)]
pub struct Hosted<D> {
    pub status: u8,
    pub begun: bool,
    pub disk: D,
}
