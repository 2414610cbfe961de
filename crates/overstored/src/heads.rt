//! The first bytes of each frame that passes over a connection in one direction.

/// How many bytes a length field has.
const LENGTH_SIZE: u64 = 4;

/// How many bytes of a frame are kept: its kind, an epoch of four bytes, and the kind of an update.
pub const HEAD_SIZE: u64 = 6;

/// The first bytes of a frame, and zeros where it has fewer.
pub type Head = [u8; HEAD_SIZE as usize];

/// How far the frame that passes has come.
#[derive(Drop)]
pub struct Heads {
    head: Head,
    length: u64,
    at: u64,
}

impl Heads {
    /// Nothing has passed yet.
    pub fn new() -> Heads {
        Heads {
            head: [0; HEAD_SIZE as usize],
            length: 0,
            at: 0,
        }
    }

    // Keeps this byte of the frame's head, or of its length field.
    fn keep(&mut self, byte: u8) {
        if self.at < LENGTH_SIZE {
            self.length = self.length << 8 | u64::from(byte);
        } else {
            let place = (self.at - LENGTH_SIZE) as usize;
            if let Some(kept) = self.head.get_mut(place) {
                *kept = byte;
            }
        }
    }

    /// One more byte passes: the head of its frame, where that is whole by this byte.
    pub fn pass(&mut self, byte: u8) -> Option<Head> {
        self.keep(byte);
        self.at = self.at.saturating_add(1);
        let head = self.head;
        let end = LENGTH_SIZE.saturating_add(self.length);
        let is_whole = self.at == end.min(LENGTH_SIZE + HEAD_SIZE) && self.at >= LENGTH_SIZE;
        if self.at >= end && self.at >= LENGTH_SIZE {
            *self = Heads::new();
        }
        is_whole.then_some(head)
    }
}
