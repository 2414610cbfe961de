//! The laws of the pad, for the proofs of callers. The functions do nothing: a caller's proof reads
//! the clause of the one that it calls, as in `tests/callers.rt`, or cites a lemma of
//! `proofs/Pad.antt`.

ghost use Rattle.ov_ctr.specs.Laws.{KeepsLength, TakesParts, UndoesItself};

/// The pad keeps the number of bytes.
pub fn keeps_length()
    ensures { KeepsLength }
{}

/// The pad taken twice gives the bytes back.
pub fn undoes_itself()
    ensures { UndoesItself }
{}

/// The pad of a whole is that of its parts, each from its own place on.
pub fn takes_parts()
    ensures { TakesParts }
{}
