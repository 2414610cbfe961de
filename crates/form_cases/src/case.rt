//! What a case has said so far.
use ov_base::{Memory, Octets};
use ov_wire::Decoder;
use std::alloc::Global;

/// The last frame and the request that it answers, answers that were kept, a decoder and a script.
#[derive(Drop)]
pub struct Case {
    pub asked: Vec<u8>,
    pub frame: Vec<u8>,
    pub is_answer: bool,
    pub samples: Vec<Octets>,
    pub decoder: Decoder,
    pub script: Vec<u8>,
}

impl Case {
    /// No frame and no script.
    pub fn new(alloc: Global) -> Result<Case, Memory> {
        Ok(Case {
            asked: Vec::new(alloc),
            frame: Vec::new(alloc),
            is_answer: false,
            samples: Vec::new(alloc),
            decoder: Decoder::new(alloc)?,
            script: Vec::new(alloc),
        })
    }
}
