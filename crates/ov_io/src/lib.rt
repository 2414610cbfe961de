//! Where bytes come from and where they go: [`Source`], [`Sink`], and [`Stream`], which is both.
//!
//! What a source tells, and what a sink tells, is one record (`SourceTells` and `SinkTells` in
//! `specs/Tells`), and each definition over a source or a sink takes that record. Both tell, where
//! they can, what a source has left and what a sink was given, and both count their faults. The
//! count never falls, and a call answers [`Fault`] only where it rose. So a caller's contract can
//! say "this answer comes only where a read failed" of any source at all, and what was read or
//! written of each source or sink that tells it. The words for it, `Rose` and `HasCause`, are those
//! of `ov_base`.
//!
//! Each record has one relation between the value before a call and after it, `takes` and `puts`.
//! Code over any source can show the relation of one call alone, so contracts count takes by it
//! (`TakesPieces` and `TakesWhile` in `specs/Calls`: each take was needed, and none follows one
//! that gave nothing); and by it a stream says that a take changes nothing written, and a put
//! nothing that is still to be read.
//!
//! * [`MemSource`], [`MemSink`] and [`MemStream`] are in memory, tell everything, and fail at the
//!   calls that they are told to.
//! * [`FileSource`] and [`FileSink`] are over a path, [`StdSource`], [`StdSink`] and [`StdStream`]
//!   are over what std reads and writes. Over files, sockets and terminals these tell nothing of
//!   their contents: they are the edge where the system is trusted.
//! * [`fill`] takes pieces until a buffer is full or the input ends.
//! * All three traits hold of `&mut S` where they hold of `S`, with the same meanings.
#![tactic(auto)]

mod file;
mod filling;
mod memory;
mod outside;
mod stream;
mod traits;

pub use file::{FileSink, FileSource};
pub use filling::fill;
pub use memory::{MemSink, MemSource};
pub use outside::{StdSink, StdSource};
pub use stream::{MemStream, StdStream};
pub use traits::{Fault, Sink, Source, Stream};
