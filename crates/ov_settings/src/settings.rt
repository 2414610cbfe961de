//! What a server is told.

use ov_base::{Key, Mode, Octets};

/// The most sessions that one server serves before it ends.
pub const MAX_SESSIONS: u32 = 1_000_000;

/// The most sessions that run at the same time.
pub const MAX_WORKERS: u32 = 64;

/// How many sessions run at the same time where the file doesn't say it.
pub const DEFAULT_WORKERS: u32 = 4;

/// What a server is told by its settings file.
#[derive(Drop)]
pub struct Settings {
    /// Where the server listens, as `HOST:PORT`.
    pub address: Octets,
    pub mode: Mode,
    /// The surface master.
    pub surface: Key,
    /// The check value of the base master, which the server doesn't have.
    pub base_check: [u8; 32],
    /// The paths of the store's two files.
    pub book: Octets,
    pub blobs: Octets,
    /// How many sessions are served, from 1 to [`MAX_SESSIONS`].
    pub sessions: u32,
    /// How many sessions run at the same time, from 1 to [`MAX_WORKERS`], and [`DEFAULT_WORKERS`]
    /// where the key isn't there.
    pub workers: u32,
}
