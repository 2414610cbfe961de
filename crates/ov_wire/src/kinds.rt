//! The byte with which a frame begins, behind its length field.

/// A Hello.
pub const HELLO: u8 = 0x01;

/// An Ask.
pub const ASK: u8 = 0x02;

/// A Cover.
pub const COVER: u8 = 0x03;

/// An Update.
pub const UPDATE: u8 = 0x04;

/// A Chain.
pub const CHAIN: u8 = 0x05;

/// A Chunk.
pub const CHUNK: u8 = 0x06;

/// A Page.
pub const PAGE: u8 = 0x07;

/// A List.
pub const LIST: u8 = 0x08;

/// A Replan.
pub const REPLAN: u8 = 0x09;

/// A Welcome, the answer to a Hello.
pub const WELCOME: u8 = 0x81;

/// A Known, the answer to an Ask.
pub const KNOWN: u8 = 0x82;

/// A Plan, the answer to a Cover or a Replan.
pub const PLAN: u8 = 0x83;

/// An Accepted, the answer to an Update.
pub const ACCEPTED: u8 = 0x84;

/// A Chained, the answer to a Chain.
pub const CHAINED: u8 = 0x85;

/// Bytes, the answer to a Chunk.
pub const BYTES: u8 = 0x86;

/// A PageOf, the answer to a Page.
pub const PAGE_OF: u8 = 0x87;

/// A Refused.
pub const REFUSED: u8 = 0x88;

/// A Stale, to an Update of another epoch.
pub const STALE: u8 = 0x89;

/// A BadTag, to an Update.
pub const BAD_TAG: u8 = 0x8a;

/// A BadRequest, to a frame that is none.
pub const BAD_REQUEST: u8 = 0x8b;

/// A Moved, to a Chunk of another generation.
pub const MOVED: u8 = 0x8c;

/// A DeviceFault.
pub const DEVICE_FAULT: u8 = 0x8d;

/// A NoMemory.
pub const NO_MEMORY: u8 = 0x8e;

/// A Listed, the answer to a List.
pub const LISTED: u8 = 0x8f;
