//! Updates without the bytes of their files.

pub use ov_record::Brief;
