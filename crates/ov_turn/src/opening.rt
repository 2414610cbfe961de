//! A shared value is made, with its passes.
ghost use Rattle.std.specs.Prelude.{◌≡◌, ◌<◌, ◌≤◌, ◌+◌, [], length, vec_capacity, IfErr, IfOk};
ghost use Rattle.ov_turn.specs.Passes.{AreFirst, first_pass};
ghost use Rattle.ov_turn.specs.Steps.{IsUnasked};
ghost use Rattle.ov_turn.specs.Views.{first_part, opened, other_parts};

use crate::pass::Pass;
use crate::plays::Cut;
use crate::shared::{About, Place, Shared};
use atomic_table::{Refused, Table};
use ov_peer::Answerer;
use std::alloc::Global;
use std::snapshot::Snapshot;
use std::sync::Mutex;

/// Memory was refused. The answerer comes back as it was.
#[derive(Drop)]
pub struct NewRefused<A> {
    pub answerer: A,
}

/// The table with this value, and its first seat.
fn lay<A: Answerer>(
    alloc: Global,
    answerer: A,
    passes: u32,
) -> Result<(Shared<A>, Place<A>), NewRefused<A>>
    requires { (0 < passes) × (passes ≤ 65536) }
    ensures made { IfOk result (λ r. (r.0.start ≡ answerer) × (r.0.passes ≡ passes)) }
    ensures seat { IfOk result (λ r. (r.1.table_id ≡ r.0.table)
        × (r.1.me ≡ (opened A.tells answerer 0 passes, []))) }
    ensures refused { IfErr result (λ r. r.answerer ≡ answerer) }
{
    let about = About {
        start: Snapshot::of(&answerer),
        passes: u64::from(passes),
    };
    let epoch = u64::from(answerer.epoch());
    let mut slots = Vec::new(alloc);
    if slots.reserve(1).is_err() {
        slots.destroy_empty();
        return Err(NewRefused { answerer });
    }
    slots.push_reserved(answerer);
    match Table::new(alloc, &[0, 0, epoch], slots, &about) {
        Ok((table, seat)) => {
            let entry = Mutex::new(());
            Ok((Shared { table, entry }, seat))
        }
        Err(Refused { mut slots }) => {
            let Some(answerer) = slots.pop() else {
                unreachable!()
            };
            slots.destroy_empty();
            Err(NewRefused { answerer })
        }
    }
}

impl<A: Answerer> Shared<A> {
    /// The seat is cut into the first pass of those to come and a seat for the others.
    fn cut(&self, seat: &mut Place<A>) -> Place<A>
        requires own { seat.old.table_id ≡ self.now.table }
        requires several { 1 < seat.old.me.0.parts }
        requires first { IsUnasked A.tells self.now.start seat.old.me }
        ensures own { (seat.new.table_id ≡ self.now.table) × (result.table_id ≡ self.now.table) }
        ensures cut { (seat.new.me ≡ (first_part seat.old.me.0, []))
            × (result.me ≡ (other_parts seat.old.me.0, [])) }
    {
        self.table.shared.split_seat::<Cut>(seat)
    }

    /// The pass of a seat that stands for one.
    fn pass_of(&self, seat: Place<A>) -> Pass<A>
        requires own { seat.table_id ≡ self.now.table }
        requires one { seat.me.0.parts ≡ 1 }
        requires first { IsUnasked A.tells self.now.start seat.me }
        ensures { result ≡ first_pass A.tells self.now seat.me.0.knowledge.number }
    {
        Pass { seat, calls: 0 }
    }

    /// Cuts the first seat into passes. The list has room for them.
    fn deal(&self, mut seat: Place<A>, passes: u32, list: &mut Vec<Pass<A>>)
        requires own { seat.table_id ≡ self.now.table }
        requires first { seat.me ≡ (opened A.tells self.now.start 0 passes, []) }
        requires some { 0 < passes }
        requires room { (list.old.items ≡ []) × (passes ≤ vec_capacity list.old) }
        ensures dealt { (length list.new.items ≡ passes)
            × AreFirst A.tells self.now list.new.items }
    {
        while list.len() + 1 < passes as usize {
            let next = self.cut(&mut seat);
            list.push_reserved(self.pass_of(seat));
            seat = next;
        }
        list.push_reserved(self.pass_of(seat));
    }

    /// Threads share this answerer, by so many passes. Where memory is refused the answerer comes
    /// back.
    pub fn new(
        alloc: Global,
        answerer: A,
        passes: u32,
    ) -> Result<(Shared<A>, Vec<Pass<A>>), NewRefused<A>>
        requires { (0 < passes) × (passes ≤ 65536) }
        ensures made { IfOk result (λ r. (r.0.start ≡ answerer) × (r.0.passes ≡ passes)) }
        ensures passes { IfOk result (λ r. (length r.1.items ≡ passes)
            × AreFirst A.tells r.0 r.1.items) }
        ensures refused { IfErr result (λ r. r.answerer ≡ answerer) }
    {
        let mut list = Vec::new(alloc);
        if list.reserve(passes as usize).is_err() {
            return Err(NewRefused { answerer });
        }
        let (shared, seat) = lay(alloc, answerer, passes)?;
        shared.deal(seat, passes, &mut list);
        Ok((shared, list))
    }
}
