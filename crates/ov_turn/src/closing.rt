//! A shared value is taken back from its threads.
ghost use Rattle.std.specs.Prelude.{◌≡◌, ◌<◌, ◌+◌, All, [], length, map};
ghost use Rattle.ov_turn.specs.declared.view.Stage.TheVariants.{Idle};
ghost use Rattle.ov_turn.specs.Passes.{IsLeft, IsPassOf};
ghost use Rattle.ov_turn.specs.Steps.{GivesUp, IsSeatOf, TakesIn};
ghost use Rattle.ov_turn.specs.Views.{joined};

use crate::pass::Pass;
use crate::plays::TakeIn;
use crate::shared::{Place, Shared};
use ov_peer::Answerer;

impl<A: Answerer> Shared<A> {
    /// Takes another seat in.
    fn take_in(&self, seat: &mut Place<A>, other: Place<A>)
        requires own { IsSeatOf self.now.table seat.old }
        requires other { IsSeatOf self.now.table other }
        ensures own { IsSeatOf self.now.table seat.new }
        ensures view { seat.new.me.0 ≡ joined seat.old.me.0 other.me.0 }
    {
        self.table.shared.join_seat::<TakeIn>(seat, other);
    }

    /// Takes the seats of all passes in.
    fn take_all_in(&self, seat: &mut Place<A>, mut passes: Vec<Pass<A>>)
        requires own { IsSeatOf self.now.table seat.old }
        requires passes { All (IsPassOf self.now) passes.items }
        ensures own { IsSeatOf self.now.table seat.new }
        ensures all { TakesIn seat.old.me.0 passes.items [] seat.new.me.0 }
    {
        while let Some(pass) = passes.pop() {
            let Pass {
                seat: other,
                calls: _,
            } = pass;
            self.take_in(seat, other);
        }
    }

    /// The value comes back, for a seat that took all others in.
    fn give_up(self, seat: Place<A>) -> A
        requires own { IsSeatOf self.table seat }
        requires whole { seat.me.0.parts ≡ self.passes }
        ensures { GivesUp A.tells self.start self.passes seat.me.0 result }
    {
        let Shared { table, entry: _ } = self;
        let mut closed = table.close_with(seat);
        let value = closed.take(0);
        closed.free();
        value
    }

    /// Gives the answerer back, for all passes.
    pub fn close(self, mut passes: Vec<Pass<A>>) -> A
        requires own { All (IsPassOf self) passes.items }
        requires all { length passes.items ≡ self.passes }
        ensures { IsLeft A.tells self passes.items result }
    {
        let Some(last) = passes.pop() else {
            unreachable!()
        };
        let Pass { mut seat, calls: _ } = last;
        self.take_all_in(&mut seat, passes);
        self.give_up(seat)
    }
}
