//! Files whose bytes are written into other extents of Blobs, and the record in Book that says so.
//!
//! A file's bytes stand in an *extent*, a number of blocks that follow one another. They are never
//! written over: an update that changes them writes the new ones into another extent, puts a record
//! behind the others, and gives up the old extent only then. So a crash at any moment leaves either
//! the records from before, with every file's bytes where they were, or these with the new record and
//! every file in its new extent. `ov_updating` says this of the histories that images keep.
//!
//! * [`rewrite`] is the whole of it. It lists the old extents, finds and holds the new ones, takes all
//!   other memory that it wants, moves the files, appends the record, and gives up the old extents:
//!   a few one by one, and more of them in one walk over what is held. Unless it answers `Ok`, it
//!   gives back what it held.
//! * [`place_all`] finds and holds a new extent for each file, each in the lowest free run that is
//!   long enough. Where memory ends, what is held is the very same as before. The search for a file
//!   goes on where the last one for as many blocks ended. So one walk over the held extents places all
//!   files that take the same number of blocks, and there are at most 4,096 such numbers.
//! * [`move_all`] moves files, one after the other, through one buffer: a piece of at most
//!   [`PIECE_BYTES`] is read from the old extent, turned, and put into the new one, with zeros to the
//!   end of its last block, so that no byte of another file stays behind it. A file that has no old
//!   extent gets the bytes of a text, turned in the same way. The buffer has room for a piece of the
//!   longest file and no more.
//! * [`update`] moves files, and then appends the record. No sync comes between: the first one of the
//!   append makes Blobs last, and only then is the record's gate opened. It takes no memory.
//! * [`release_new`] gives up the new extents of moves.
//! * [`Turn`] is what becomes of a byte, by its file and its place, as by a pad. [`Spell`] spells the
//!   record, which has the new extents in it and so is spelled once these are known.
//!
//! **What a contract sees.** What is held is a list of extents; a file is a [`Placed`], and a
//! [`Move`] says where it goes. `StandsFor` says what an image stands for: the records of its Book,
//! and bytes in extents.
//!
//! * `move_all` says of each image that a crash leaves meanwhile that it comes from one that it might
//!   have left at the start by a step that keeps Book, makes Blobs no shorter, and changes no byte
//!   outside of the new extents (`GoesBy`, `IsKeptOutside`). How many calls there are doesn't enter.
//! * At `Ok` the disk reads each file in its new extent, and behind the old end of Blobs nothing but
//!   bytes of new extents (`GrowsIntoMoves`). These are whole blocks: where Blobs ended at the end of
//!   a block, it does so again, by the law [`blobs_ends_with_an_extent`]. `update` and `rewrite` say
//!   the same of each image with the new record (`AreMoved`). Of an image without it, which a crash
//!   may leave, nothing is said behind the old end.
//! * `rewrite` says of each such image that it stands for whatever the one at the start stood for; or
//!   for that with the record, and then each new extent took blocks that were free (`GoToFree`) and
//!   has the old one's bytes, turned (`StandsForEither`). At `Ok` there is one image that a crash may
//!   leave, the second of these (`LastsWith`), and what is held is just what was held and wasn't given
//!   up, and the new extents (`MayGoOn`).
//! * Why blocks that are used again do no harm is one law, [`standing_is_kept`]: an image stands for
//!   what another one stands for that has the same records and the same bytes in the files' extents.
//!   A new extent is free of all that was held when it was found, so no file has a byte in it.
//!
//! | file in `specs/` | says |
//! |---|---|
//! | `Bytes` | what is to stand in a new extent |
//! | `Moves` | what may be moved, and what that leaves of both areas |
//! | `Placing`, `Releasing` | new extents, and those that are given up |
//! | `Updating` | files and the record behind them, and where Blobs ends |
//! | `Standing`, `Rewriting` | what images stand for, and the whole of an update |
//! | `Runs` | calls that write by steps of one kind |
//!
//! **What it asks for.** Before an update a crash leaves just what the disk reads, Book is the
//! journal's, and all that is held lies in Blobs, where the disk tells its bytes; then the same holds
//! at `Ok`. A file has from 1 to 16,777,216 bytes, no two begin at the same block, and no more than
//! 65,536 extents are held with the new ones.
//!
//! **Errors.** Memory is refused before the first call of the disk, and nothing has changed then. A
//! fault of the disk comes only where its count rose. After it the journal has the same records and
//! what is held is as before, but Book may have the new record: the store has to be opened again, as
//! after a failed append.
//!
//! Nothing is promised of blocks that were given up: their old bytes stay until they are used again.
#![tactic(auto)]

mod laws;
mod moves;
mod piece;
mod placing;
mod releasing;
mod rewriting;
mod spelling;
mod turning;
mod updating;

pub use laws::{blobs_ends_with_an_extent, standing_is_kept};
pub use moves::{Move, move_all};
pub use piece::PIECE_BYTES;
pub use placing::{Placed, place_all};
pub use releasing::release_new;
pub use rewriting::rewrite;
pub use spelling::Spell;
pub use turning::Turn;
pub use updating::update;
