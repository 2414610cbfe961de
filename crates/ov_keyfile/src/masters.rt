//! The two masters.

use ov_base::Key;

/// The two keys from which all others of a store come. The owner holds both, the server the surface
/// master alone.
#[derive(Clone, Copy)]
pub struct Masters {
    pub base: Key,
    pub surface: Key,
}
