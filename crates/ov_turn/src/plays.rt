//! The steps of a seat, each with what it tells. Proofs alone read these types: no value of them is
//! made.
ghost use Rattle.std.specs.Prelude.{ℕ, Bool, List, [], false};
ghost use Rattle.ov_turn.specs.Steps.{Draws, Looks, PassesOn, Raises, Reads};
ghost use Rattle.ov_turn.specs.Views.{first_part, joined, other_parts, spent};

use crate::view::View;
use atomic_table::{Join, Play, Split};
use ov_peer::Answerer;
use std::marker::{Brand, PhantomData};

/// Draws a ticket.
pub struct Draw;

impl<A: Answerer> Play<A, View<A>> for Draw {
    ghost then = { Draws };
}

/// Looks which ticket is served, and takes the value where it is the seat's own.
pub struct Look;

impl<A: Answerer> Play<A, View<A>> for Look {
    ghost then = { Looks A.tells };
}

/// The spelling of an update that is accepted. Each call that raises the epoch picks its own.
pub trait Spelled {
    ghost spelling: { List ℕ };
}

impl Spelled for Brand {
    ghost spelling = { [] };
}

/// Raises the epoch by an update of this spelling.
pub struct Raise<N> {
    marker: PhantomData<N>,
}

impl<A: Answerer, N: Spelled> Play<A, View<A>> for Raise<N> {
    ghost then = { Raises N.spelling };
}

/// Whether the disk failed in the update of a call. Each call that passes its turn on picks its own.
pub trait Failing {
    ghost failed: { Bool };
}

impl Failing for Brand {
    ghost failed = { false };
}

/// Gives the value back, and passes the turn on, with the disk failed or not.
pub struct PassOn<N> {
    marker: PhantomData<N>,
}

impl<A: Answerer, N: Failing> Play<A, View<A>> for PassOn<N> {
    ghost then = { PassesOn N.failed };
}

/// Reads the epoch.
pub struct ReadEpoch;

impl<A: Answerer> Play<A, View<A>> for ReadEpoch {
    ghost then = { Reads A.tells };
}

/// Cuts a seat in two: one pass, and those to come.
pub struct Cut;

impl<A: Answerer> Split<View<A>> for Cut {
    ghost left = { first_part };

    ghost right = { other_parts };
}

/// Takes a seat in.
pub struct TakeIn;

impl<A: Answerer> Join<View<A>> for TakeIn {
    ghost both = { joined };

    ghost spent = { spent };
}
