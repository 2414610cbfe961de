//! What is kept of a frame that isn't whole.

/// What a decoder waits for.
#[derive(Drop)]
pub enum State {
    /// The rest of a length field, of which this many bytes came.
    Length { head: [u8; 4], filled: usize },
    /// The rest of a frame of this many bytes.
    Frame { wanted: usize, body: Vec<u8> },
    /// Nothing: a length field was outside its limits.
    Bad,
}
