//! A value that threads share, and the table that it lies in.
use crate::view::View;
use atomic_table::{Seat, Table, TableRule};
use ov_peer::Answerer;
use std::alloc::Global;
use std::marker::Model;
use std::snapshot::Snapshot;
use std::sync::Mutex;

/// What the table is told once: the value as it is then, and how many passes there will be.
#[derive(Drop)]
pub struct About<A> {
    pub start: Snapshot<A>,
    pub passes: u64,
}

/// The rule of turns (`specs/Rule`).
pub struct Turns;

impl<A: Answerer> TableRule<A, View<A>, About<A>> for Turns {
    ghost use Rattle.ov_turn.specs.Rule.{IsKept};
    ghost use Rattle.ov_turn.specs.Views.{opened};

    ghost holds = { λ k. IsKept A.tells k.start.value k.passes };

    ghost first = { λ k. opened A.tells k.start.value 0 k.passes };
}

/// A seat at the table. It has no bytes.
pub(crate) type Place<A> = Seat<A, View<A>>;

/// The table of a shared value.
pub(crate) type Desk<A> = Table<A, View<A>, About<A>, Turns, Global>;

/// A value that answers the requests of several threads, one after the other.
#[derive(Drop)]
pub struct Shared<A: Answerer> {
    pub(crate) table: Desk<A>,
    // Threads wait here before they draw a ticket. Nothing is said of it.
    pub(crate) entry: Mutex<()>,
}

impl<A: Answerer> Model for Shared<A> {
    ghost use Rattle.std.specs.Prelude.{◌≡◌, ◌<◌};
    ghost use Rattle.ov_turn.specs.Passes.{SharedState};

    ghost Value = { SharedState A };

    ghost view = { λ s. record {
      table = s.table.shared.table_id;
      start = s.table.shared.key.start.value;
      passes = s.table.shared.key.passes;
    } };

    ghost invariant = { λ s. (s.table.shared.table_id.words ≡ 3)
        × (s.table.shared.table_id.slots ≡ 1) × (0 < s.table.shared.key.passes) };
}
