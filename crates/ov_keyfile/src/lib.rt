//! The key file, which holds the two masters of a store.
//!
//! A key file has the base master on its first line and the surface master on its second, each as
//! 64 hexadecimal digits, small or capital. The second line may lack its LF, and the two masters
//! differ. [`read_masters`] reads one from any source, and takes at most one byte more than the
//! longest has.
//!
//! The line of one key is read by [`key_of`], for others that write keys so.
//!
//! `specs/KeyFile` says which bytes are a key file of which masters; that they have one pair of
//! masters at most is the law [`one_pair_of_masters`].
#![tactic(auto)]

mod laws;
mod masters;
mod reading;

pub use laws::one_pair_of_masters;
pub use masters::Masters;
pub use reading::{is_end, key_of, read_masters};
