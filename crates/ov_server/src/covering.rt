//! What an owner is told before a creation or a replacement.
ghost use Rattle.std.specs.Prelude.{◌≡◌, ◌≤◌, ℕ, List, [], IfOk, IfSome, Ok, OnErr, OnOk, Some};
ghost use Rattle.ov_base.specs.declared.limits.TheConstants.{MAX_FILE_BYTES, SET_WORDS};
ghost use Rattle.ov_history.specs.Asking.{file_named};
ghost use Rattle.ov_history.specs.Lists.{set_named};
ghost use Rattle.ov_state.specs.Remembering.{IsPlannedIn};
ghost use Rattle.ov_state.specs.declared.covering.Planned.{Planned};
ghost use Rattle.ov_wire.specs.AnswerBytes.{answer_bytes};
ghost use Rattle.ov_wire.specs.AnswerForm.{HasAnswerForm};
ghost use Rattle.ov_wire.specs.RequestReading.{request_of};
ghost use Rattle.ov_wire.specs.declared.request.Request.TheVariants as requests;
ghost use Rattle.ov_protocol.specs.Asking.{AnswersCover, AnswersReplan};
ghost use Rattle.ov_server.specs.Answering.{AsksServer};
ghost use Rattle.ov_server.specs.Telling.{plan_answer, PlansIn};

use crate::server::Server;
use ov_base::{Memory, Name, Names};
use ov_disk::Disk;
use ov_graph::Cover;
use ov_state::{Catalogue, ChainFault, Planned, WIDTH};
use ov_wire::{Answer, Plan, write_answer};
use std::alloc::Global;

/// The answer that tells this plan at an epoch.
fn plan(epoch: u32, planned: Planned<WIDTH>) -> Answer
    ensures { result ≡ plan_answer epoch planned }
{
    let Planned { file, list, cover } = planned;
    Answer::Plan(Plan {
        epoch,
        file,
        list,
        node: cover.node,
        fresh: cover.fresh,
        from: cover.from,
    })
}

/// What an answer tells of a new file, where it tells a plan.
fn planned_in(answer: Answer) -> Option<Planned<WIDTH>>
    ensures right { (sets : List ℕ)
        → PlansIn sets answer → IfSome result (IsPlannedIn sets) }
    ensures told { (epoch : ℕ) (planned : Planned SET_WORDS)
        → answer ≡ plan_answer epoch planned → result ≡ Some planned }
{
    match answer {
        Answer::Plan(plan) => {
            let Plan {
                epoch: _,
                file,
                list,
                node,
                fresh,
                from,
            } = plan;
            let cover = Cover { node, fresh, from };
            Some(Planned { file, list, cover })
        }
        _ => None,
    }
}

/// The answer to a Cover of a file of this many bytes.
fn answer_cover(
    alloc: Global,
    state: &Catalogue,
    file: &Name,
    size: u32,
    names: &Names,
) -> Result<Answer, Memory>
    requires { size ≤ MAX_FILE_BYTES }
    ensures answer { let c = state.now.catalogue in
        IfOk result (AnswersCover c file.now size (set_named c.users names.now)) }
    ensures form { IfOk result HasAnswerForm }
{
    state.known();
    match state.cover(alloc, file, size, names.as_slice()) {
        Ok(planned) => Ok(plan(state.epoch(), planned)),
        Err(ChainFault::Refused(refusal)) => Ok(Answer::Refused { refusal }),
        Err(ChainFault::Memory) => Err(Memory),
    }
}

/// The answer to a Replan of a file by this many bytes.
fn answer_replan(alloc: Global, state: &Catalogue, file: &Name, size: u32) -> Result<Answer, Memory>
    requires { size ≤ MAX_FILE_BYTES }
    ensures answer { let c = state.now.catalogue in
        IfOk result (AnswersReplan c (file_named c file.now) size) }
    ensures form { IfOk result HasAnswerForm }
{
    state.known();
    match state.replan(alloc, file, size) {
        Ok(planned) => Ok(plan(state.epoch(), planned)),
        Err(ChainFault::Refused(refusal)) => Ok(Answer::Refused { refusal }),
        Err(ChainFault::Memory) => Err(Memory),
    }
}

impl<D: Disk> Server<D> {
    /// Puts an answer in place of what was in `reply`. The store keeps a plan that it tells, so
    /// that the update which comes of it needn't plan it again.
    fn reply_and_remember(&mut self, answer: Answer, reply: &mut Vec<u8>) -> Result<(), Memory>
        requires form { HasAnswerForm answer }
        requires plan { PlansIn self.old.catalogue.base.sets answer }
        ensures ok { OnOk result (reply.new.items ≡ answer_bytes answer) }
        ensures err { OnErr result (reply.new.items ≡ []) }
        ensures same { self.new ≡ self.old }
    {
        write_answer(&answer, reply)?;
        if let Some(planned) = planned_in(answer) {
            self.store.remember(planned);
        }
        Ok(())
    }

    /// Answers a Cover, and remembers what it tells.
    pub(crate) fn cover_and_remember(
        &mut self,
        file: &Name,
        size: u32,
        names: &Names,
        reply: &mut Vec<u8>,
    ) -> Result<(), Memory>
        requires { size ≤ MAX_FILE_BYTES }
        ensures { (request : List ℕ)
            → request_of request ≡ Ok (requests.Cover file.now size names.now)
            → AsksServer D.tells self.old self.new request reply.new.items result }
    {
        reply.clear();
        let answer = answer_cover(*reply.allocator(), self.store.state(), file, size, names)?;
        self.reply_and_remember(answer, reply)
    }

    /// Answers a Replan, and remembers what it tells.
    pub(crate) fn replan_and_remember(
        &mut self,
        file: &Name,
        size: u32,
        reply: &mut Vec<u8>,
    ) -> Result<(), Memory>
        requires { size ≤ MAX_FILE_BYTES }
        ensures { (request : List ℕ)
            → request_of request ≡ Ok (requests.Replan file.now size)
            → AsksServer D.tells self.old self.new request reply.new.items result }
    {
        reply.clear();
        let answer = answer_replan(*reply.allocator(), self.store.state(), file, size)?;
        self.reply_and_remember(answer, reply)
    }
}
