//! The headline: the store behaves as the access-matrix machine does, whatever crashes come.
//!
//! Two statements, both proved. Neither speaks of a format, and only one law of the second, on what
//! an image publishes, speaks of tokens:
//!
//! 1. **The life of a store** ([`a_store_lives_as_the_machine`]). Begin with a disk on which no store
//!    was begun, and run scripts one after another. Stop any of them at any moment, and go on from
//!    whatever crash image the disk has then. Every run prints what one machine prints, whose history
//!    goes on through all of them.
//! 2. **The refinement** ([`Refinement`]). There is an abstraction relation between images of a disk
//!    and histories, and [`Overstore`] has it. Each run and each load takes a disk that represents a
//!    history to one that represents the history after its commands; what an image publishes is the
//!    access matrix; and what is sent for grants, revocations and removals depends on no byte of a
//!    file.
//!
//! Both take a call of `run` or `load` as a value with its contract as one record (`RunPromises`,
//! `LoadPromises`). [`run_as_promised`] and [`load_as_promised`] show that each call keeps it. The
//! premises are those of the page `docs/HEADLINE.md`: sources, output and disk tell their bytes, and
//! a run begins on a disk with nothing pending.
//!
//! | module | what it has |
//! |---|---|
//! | `lives` | the life of a store, which follows from the refinement |
//! | `refinement` | the refinement, and the store's relation |
//! | `promises` | that `run` and `load` keep what is asked of a call |
//!
//! | definitions | what they say |
//! |---|---|
//! | `Lives` | a life of a store: runs, and what crashes left of each |
//! | `Headline` | the laws of the refinement |
//! | `Calls` | one call of `run` or `load`, and its contract as one record |
//! | `Witness` | the store's own relation; no statement needs it open |
#![tactic(auto)]

mod lives;
mod promises;
mod refinement;

pub use lives::a_store_lives_as_the_machine;
pub use promises::{load_as_promised, run_as_promised};
pub use refinement::{Overstore, Refinement};
