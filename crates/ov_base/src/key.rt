//! Keys.

/// A key of 32 bytes: a master, or the key of a label. It has no `Debug`, so that no text shows it.
#[derive(Clone, Copy)]
pub struct Key {
    pub bytes: [u8; 32],
}
