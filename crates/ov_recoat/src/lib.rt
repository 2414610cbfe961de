//! Files under other surfaces: their stored bytes, one piece after the other.
//!
//! An update that gives files other surfaces makes their stored bytes new: the coat of the old surface
//! comes off, and that of the new one is laid. [`Recoat`] is what an update's rewrites make of a byte,
//! by its file and its place there, as `ov_moves` asks for while it moves files through a buffer. A
//! new file, also one in place of another, has no old surface, and its bytes come from its text. A
//! file that is gone has no rewrite.
//!
//! **What a contract sees** is a function of a byte. `recoat_byte` is what one rewrite makes of a
//! byte of its file; `recoated` is what all of them make of a byte of any file, by the first of them
//! that is of that file. A [`Recoat`] is seen as a `Recoating`: its rewrites and the surface master.
//!
//! | law | function |
//! |---|---|
//! | a whole file's new bytes (`restored` of ov_history) are that, byte by byte | [`files_are_recoated_by_bytes`] |
//! | of rewrites of files in order each says what becomes of its own file | [`each_file_has_its_rewrite`] |
//!
//! A law is a public function with an empty body, whose contract is the law.
//!
//! The files of a [`Recoat`]'s rewrites ascend, which its maker owes ([`Recoat::new`]). A piece asks
//! for the rewrite of its file, which is found by halves: of 16,384 files that move at once, by some
//! 15 comparisons for each piece. It takes no memory and derives both keys of the file for each piece.
//!
//! Nothing is claimed of secrecy.
#![tactic(auto)]

mod laws;
mod recoat;

pub use laws::{each_file_has_its_rewrite, files_are_recoated_by_bytes};
pub use recoat::Recoat;
