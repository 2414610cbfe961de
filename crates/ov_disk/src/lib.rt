//! Two areas of bytes that a crash may tear: what a disk is, one in memory, and one over files.
//!
//! A [`Disk`] tells, where it can, what a read gives in each [`Area`] (`reads`), what a crash now
//! may leave (`may_leave`), and, on a clock of both areas, what a crash at some moment since an
//! earlier one might have left (`moment`, `left_since`). So a contract can speak of each moment
//! inside a call: `LeavesOnly` of `specs/Moments` says that a crash at any moment from one disk to
//! a later one leaves an image that has some property. `specs/Disk` says what a write, a torn write
//! and a sync do to an image, and [`torn_writes_are_the_model`] that these clauses are the model in
//! words: between two syncs any bytes in the ranges that were written and past the old end, and any
//! length from the least to the greatest. No call answers [`DiskFault`] unless the count of faults
//! rose.
//!
//! * [`MemDisk`] keeps its calls and replays them. It fails at the calls that it is told to, a
//!   write after as many of its bytes as it is told, or after none, where memory is refused, and gives the image that a stop after any of
//!   its calls may leave, torn by a [`Tear`]. A contract sees which calls fail and what each did. A
//!   write for which memory is refused fails too, and puts nothing.
//! * [`FileDisk`] is over two files. It tells nothing: that files keep what was synced is trusted.
//! * `&mut D` is a disk where `D` is, with the same meanings.
//!
//! Callers prove their calls one step for each: `proofs/Runs` has the steps and how runs of calls
//! follow one another, and `proofs/Writing` the bytes of a write by their places.
#![tactic(auto)]

mod area;
mod areas;
mod bytes;
mod change;
mod disk;
mod failure;
mod file;
mod held;
mod memory;
mod model;
mod stop;

pub use area::{Area, DiskFault};
pub use change::Tear;
pub use disk::Disk;
pub use file::FileDisk;
pub use memory::MemDisk;
pub use model::torn_writes_are_the_model;
