//! What a thread asks with.
use crate::shared::Place;
use ov_peer::Answerer;
use std::marker::Model;

/// What one thread asks with. It counts its calls.
#[derive(Drop)]
pub struct Pass<A: Answerer> {
    pub(crate) seat: Place<A>,
    pub(crate) calls: u32,
}

impl<A: Answerer> Model for Pass<A> {
    ghost use Rattle.ov_turn.specs.Passes.{IsAtRest, PassState, pass_at};

    ghost Value = { PassState A };

    ghost view = { λ p. pass_at p.seat };

    ghost invariant = { λ p. IsAtRest p.seat p.calls };
}
