//! An answerer that is asked by one session at a time.
ghost use Rattle.std.specs.Prelude.{◌≡◌};
ghost use Rattle.ov_session.specs.Alone.{AnswersOne};

use crate::Asker;
use ov_base::Memory;
use ov_peer::{Answerer, AskFault};
use std::sync::Wait;

/// An asker that asks its answerer by itself, as often as it wants.
#[derive(Drop)]
pub struct Alone<'a, V: Answerer> {
    pub value: &'a mut V,
}

impl<'a, V: Answerer> Asker for Alone<'a, V> {
    ghost tells = { record {
      asks = λ a request reply b. AnswersOne V.tells a.value.now request reply b.value.now;
      ready = λ _. Unit {0};
      spent = λ _. ⊥;
      borrow = λ a. a.value.ghost_name;
    } };

    fn ask<R: Wait>(
        &mut self,
        rt: &R,
        request: &[u8],
        reply: &mut Vec<u8>,
    ) -> Result<(), AskFault> {
        let _ = rt;
        match self.value.answer(request, reply) {
            Ok(()) => Ok(()),
            Err(Memory) => Err(AskFault::Memory),
        }
    }
}
