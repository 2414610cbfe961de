//! An answerer that is asked by many sessions, in turns.
ghost use Rattle.std.specs.Prelude.{◌≡◌};
ghost use Rattle.ov_turn.specs.Passes.{IsPassOf};
ghost use Rattle.ov_serving.specs.Calls.{CallsOnce};

use ov_peer::{Answerer, AskFault};
use ov_session::Asker;
use ov_turn::{Pass, Shared};
use std::sync::Wait;

/// An asker that asks a shared value by one pass, in its turns.
#[derive(Drop)]
pub struct SessionPass<'a, V: Answerer> {
    pub shared: &'a Shared<V>,
    pub pass: &'a mut Pass<V>,
}

impl<'a, V: Answerer> Asker for SessionPass<'a, V> {
    ghost tells = { record {
      asks = λ a request reply b. CallsOnce V.tells a.pass.now request reply b.pass.now;
      ready = λ a. IsPassOf a.shared.now a.pass.now;
      spent = λ a. a.pass.now.calls ≡ 4294967295;
      borrow = λ a. a.pass.ghost_name;
    } };

    fn ask<R: Wait>(
        &mut self,
        rt: &R,
        request: &[u8],
        reply: &mut Vec<u8>,
    ) -> Result<(), AskFault> {
        self.shared.ask(rt, self.pass, request, reply)
    }
}
