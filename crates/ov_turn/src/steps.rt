//! The steps of a call: a ticket lock round the value, and the epoch beside it.
//!
//! Threads come to these steps one at a time, by a lock of which nothing is known here. So a ticket is
//! served at once, but it is the ticket by which a thread knows that it has the value alone.
ghost use Rattle.std.specs.Prelude.{◌≡◌, ℕ, ◌+◌, ◌*◌, ◌<◌, ◌≤◌, ◌||◌, [], ◌∷◌, List, OnOk, false};
ghost use Rattle.ov_wire.specs.Frames.{IsFrame};
ghost use Rattle.ov_peer.specs.Spellings.{spelling_of};
ghost use Rattle.ov_turn.specs.declared.view.Stage.TheVariants.{Idle, Serving, Waiting};
ghost use Rattle.ov_turn.specs.Logs.{epoch_after};
ghost use Rattle.ov_turn.specs.Rule.{HasValue, draws_of};
ghost use Rattle.ov_turn.specs.Steps.{Answers, Holds, HoldsStuck, Takes, failed_after};
ghost use Rattle.ov_turn.specs.Views.{drawn, log_in_hand, raised, rested};

use crate::plays::{Draw, Failing, Look, PassOn, Raise, Spelled};
use crate::shared::{Place, Shared};
use ov_base::Memory;
use ov_peer::Answerer;
use std::sync::Wait;
use std::thread;

/// The word of the next ticket to draw.
pub(crate) const NEXT: usize = 0;
/// The word of the ticket that is served.
pub(crate) const SERVED: usize = 1;
/// The word of the epoch.
pub(crate) const EPOCH: usize = 2;

impl<A: Answerer> Shared<A> {
    /// Draws a ticket.
    pub(crate) fn draw(&self, seat: &mut Place<A>) -> u64
        requires own { seat.old.table_id ≡ self.now.table }
        requires idle { (seat.old.me.0.stage ≡ Idle) × (0 < seat.old.me.0.parts) }
        requires left { draws_of seat.old.me.0 + 1 ≤ 4294967295 * seat.old.me.0.parts }
        ensures own { seat.new.table_id ≡ seat.old.table_id }
        ensures view { seat.new.me ≡ (drawn seat.old.me.0 result, seat.old.me.1) }
    {
        self.table.shared.fetch_add::<Draw>(seat, NEXT, 1)
    }

    /// Waits until the ticket is served, and takes the value.
    pub(crate) fn wait_turn<R: Wait>(&self, rt: &R, seat: &mut Place<A>, ticket: u64)
        requires own { seat.old.table_id ≡ self.now.table }
        requires waits { (seat.old.me.0.stage ≡ Waiting ticket) × (seat.old.me.1 ≡ []) }
        ensures own { seat.new.table_id ≡ seat.old.table_id }
        ensures takes { Takes A.tells ticket seat.old.me seat.new.me }
    {
        for _ in rt.forever() {
            let served = self.table.shared.load::<Look>(seat, SERVED);
            if served == ticket {
                return;
            }
            thread::yield_now();
        }
        unreachable!()
    }

    /// Answers with the value in hand.
    pub(crate) fn answer_here(
        &self,
        seat: &mut Place<A>,
        request: &[u8],
        reply: &mut Vec<u8>,
    ) -> Result<u32, Memory>
        requires own { seat.old.table_id ≡ self.now.table }
        requires frame { IsFrame request.now }
        requires held { (value : A) × (seat.old.me.1 ≡ (0, value) ∷ []) }
        ensures own { seat.new.table_id ≡ seat.old.table_id }
        ensures view { seat.new.me.0 ≡ seat.old.me.0 }
        ensures frame { OnOk result (IsFrame reply.new.items) }
        ensures answers { (value : A) → seat.old.me.1 ≡ (0, value) ∷ []
            → Answers A.tells value request.now result reply.new.items seat.new.me.1 }
    {
        let value = seat.slot_mut(&self.table.shared, 0);
        value.answer(request, reply)?;
        Ok(value.epoch())
    }

    /// Raises the epoch: one update more was accepted.
    pub(crate) fn raise<N: Spelled>(&self, seat: &mut Place<A>, ticket: u64, request: &[u8])
        requires own { seat.old.table_id ≡ self.now.table }
        requires serves { seat.old.me.0.stage ≡ Serving ticket }
        requires small { epoch_after A.tells self.now.start seat.old.me.0.base + 1 < 4294967296 }
        requires spelled { N.spelling ≡ spelling_of request.now }
        requires sound { seat.old.me.0.stuck ≡ false }
        ensures own { seat.new.table_id ≡ seat.old.table_id }
        ensures view { seat.new.me ≡ (
          raised seat.old.me.0 ticket (spelling_of request.now),
          seat.old.me.1,
        ) }
    {
        let _ = ticket;
        let _ = request;
        self.table.shared.fetch_add::<Raise<N>>(seat, EPOCH, 1);
    }

    /// Gives the value back, and passes the turn on after a call that did this. The value is stuck
    /// where the disk failed in its update, or in one before.
    pub(crate) fn pass_on<N: Failing>(
        &self,
        seat: &mut Place<A>,
        done: &Result<u32, Memory>,
        request: &[u8],
        reply: &[u8],
    )
        requires own { seat.old.table_id ≡ self.now.table }
        requires serves { HasValue seat.old.me.0.stage }
        requires value { Holds A.tells seat.old.me (log_in_hand seat.old.me.0.stage seat.old.me.0) }
        requires stuck { HoldsStuck A.tells seat.old.me (N.failed || seat.old.me.0.stuck) }
        requires told { N.failed ≡ failed_after done.now request.now reply.now }
        ensures own { seat.new.table_id ≡ seat.old.table_id }
        ensures view { seat.new.me ≡ (
          rested seat.old.me.0 (failed_after done.now request.now reply.now),
          [],
        ) }
    {
        let _ = done;
        let _ = request;
        let _ = reply;
        self.table.shared.fetch_add::<PassOn<N>>(seat, SERVED, 1);
    }
}
