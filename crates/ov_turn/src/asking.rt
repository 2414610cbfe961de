//! A call in its turn, and a look at the epoch.
ghost use Rattle.std.specs.Prelude.{◌≡◌, ◌↔◌, ◌<◌, ◌≤◌, [], Err, OnOk, Some};
ghost use Rattle.ov_wire.specs.Frames.{IsFrame};
ghost use Rattle.ov_turn.specs.Passes.{IsAtRest, IsPassOf, TellsAsk, after_epoch};
ghost use Rattle.ov_turn.specs.Steps.{RefusesOnce, TakesTurn};
ghost use Rattle.ov_turn.specs.Logs.{epoch_after};

use crate::pass::Pass;
use crate::plays::ReadEpoch;
use crate::shared::{Place, Shared};
use crate::steps::EPOCH;
use ov_base::Memory;
use ov_peer::{Answerer, AskFault, is_accepted};
use std::hint::spin_loop;
use std::marker::Brand;
use std::sync::{MutexGuard, Wait};
use std::thread;

/// How often a thread looks whether it may go on before it sleeps. The turn of a Hello or an Ask is
/// mostly over by then, and to sleep and be woken takes longer than such a turn.
const LOOKS: u32 = 60;

/// Behind so many of these looks the thread only idles, some dozens to hundreds of cycles each time, by
/// the processor. Behind the others it lets other threads run.
const IDLE_LOOKS: u32 = 50;

/// How often a thread tells its processor behind a look that it idles.
const IDLE_HINTS: u32 = 4;

/// Passes the time behind this look.
fn pass_time(look: u32) {
    if look >= IDLE_LOOKS {
        thread::yield_now();
        return;
    }
    for _ in 0..IDLE_HINTS {
        spin_loop();
    }
}

impl<A: Answerer> Shared<A> {
    /// Waits until no other thread is at its steps.
    fn enter<R: Wait>(&self, rt: &R) -> MutexGuard<'_, ()> {
        for look in 0..LOOKS {
            if let Some(guard) = self.entry.try_lock() {
                return guard;
            }
            pass_time(look);
        }
        self.entry.lock(rt)
    }

    /// One call in the seat's turn.
    fn ask_in_turn<R: Wait>(
        &self,
        rt: &R,
        seat: &mut Place<A>,
        request: &[u8],
        reply: &mut Vec<u8>,
    ) -> Result<u32, Memory>
        requires frame { IsFrame request.now }
        requires own { (seat.old.table_id ≡ self.now.table)
            × (seat.old.me.0.start ≡ Some self.now.start) }
        requires rest { IsAtRest seat.old seat.old.me.0.calls }
        requires left { seat.old.me.0.calls < 4294967295 }
        ensures own { seat.new.table_id ≡ seat.old.table_id }
        ensures frame { OnOk result (IsFrame reply.new.items) }
        ensures hand { seat.new.me.1 ≡ [] }
        ensures turn { TakesTurn A.tells self.now.start seat.old.me.0 request.now result
            reply.new.items seat.new.me.0 }
        ensures refuses { RefusesOnce seat.old.me.0 result reply.new.items }
    {
        let entry = self.enter(rt);
        let ticket = self.draw(seat);
        self.wait_turn(rt, seat, ticket);
        let done = self.answer_here(seat, request, reply);
        let told = reply.as_slice();
        if done.is_ok() && is_accepted(told) {
            self.raise::<Brand>(seat, ticket, request);
        }
        self.pass_on::<Brand>(seat, &done, request, told);
        drop(entry);
        done
    }

    /// Asks a frame in the pass's turn, for which it waits; the reply replaces what `reply` had.
    /// Both are without their length fields.
    pub fn ask<R: Wait>(
        &self,
        rt: &R,
        pass: &mut Pass<A>,
        request: &[u8],
        reply: &mut Vec<u8>,
    ) -> Result<(), AskFault>
        requires frame { IsFrame request.now }
        requires own { IsPassOf self.now pass.old }
        ensures asked { TellsAsk A.tells self.now.start pass.old request.now result reply.new.items
            pass.new }
        ensures spent { (result ≡ Err AskFault.Spent) ↔ (pass.old.calls ≡ 4294967295) }
        ensures frame { OnOk result (IsFrame reply.new.items) }
        ensures own { IsPassOf self.now pass.new }
    {
        if pass.calls == u32::MAX {
            return Err(AskFault::Spent);
        }
        pass.calls += 1;
        match self.ask_in_turn(rt, &mut pass.seat, request, reply) {
            Ok(_) => Ok(()),
            Err(Memory) => Err(AskFault::Memory),
        }
    }

    /// The epoch, by one load that waits for nobody. The pass is told it.
    pub fn epoch(&self, pass: &mut Pass<A>) -> u32
        requires own { IsPassOf self.now pass.old }
        ensures told { pass.new ≡ after_epoch pass.old result }
        ensures later { pass.old.knowledge.told ≤ result }
        ensures seen { epoch_after A.tells self.now.start pass.old.knowledge.seen ≤ result }
    {
        self.table.shared.load::<ReadEpoch>(&mut pass.seat, EPOCH) as u32
    }
}
