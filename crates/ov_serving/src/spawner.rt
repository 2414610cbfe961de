//! What starts sessions and finishes them.
ghost use Rattle.std.specs.Prelude.{◌≡◌, ◌+◌, ◌-◌, ◌^◌, [], false, min, true};

use crate::slot::Slot;
use ov_io::Stream;
use ov_peer::Answerer;
use std::alloc::Global;
use std::marker::Model;
use std::sync::Arc;
use std::thread::Parker;

/// Starts sessions in threads of their own, and finishes each once it is over.
#[derive(Drop)]
pub struct Spawner<L: Stream, V: Answerer, G> {
    pub(crate) alloc: Global,
    pub(crate) started: Vec<Slot<L, V, G>>,
    // Where it sleeps until a session is over; there from the first thread on.
    pub(crate) bell: Option<Arc<Parker, Global>>,
    pub(crate) most: usize,
    pub(crate) refused: u64,
    pub(crate) refuses: bool,
}

impl<L: Stream, V: Answerer, G> Model for Spawner<L, V, G> {
    ghost use Rattle.ov_serving.specs.Spawning.{SpawnerState};
    ghost use Rattle.ov_serving.specs.Slots.{sessions_in};

    ghost Value = { SpawnerState L V G };

    ghost view = { λ s. record {
      started = sessions_in s.started.items;
      most = s.most;
      refused = s.refused;
      refuses = s.refuses;
    } };
}

impl<L: Stream, V: Answerer, G> Spawner<L, V, G> {
    /// A spawner that has started nothing.
    pub fn new(alloc: Global) -> Spawner<L, V, G>
        ensures { result ≡ record { started = []; most = 0; refused = 0; refuses = false } }
    {
        Spawner {
            alloc,
            started: Vec::new(alloc),
            bell: None,
            most: 0,
            refused: 0,
            refuses: false,
        }
    }

    /// A spawner that hands every session back, as a machine that makes no thread.
    pub fn refusing(alloc: Global) -> Spawner<L, V, G>
        ensures { result ≡ record { started = []; most = 0; refused = 0; refuses = true } }
    {
        Spawner {
            alloc,
            started: Vec::new(alloc),
            bell: None,
            most: 0,
            refused: 0,
            refuses: true,
        }
    }

    /// Counts a session that isn't started.
    pub(crate) fn refuse(&mut self)
        ensures { self.new ≡ record self.old {
          refused = min (self.old.refused + 1) (2 ^ 64 - 1);
        } }
    {
        self.refused = self.refused.saturating_add(1);
    }

    /// The most sessions that were ever started and not finished at once.
    pub fn most(&self) -> usize
        ensures { result ≡ self.now.most }
    {
        self.most
    }

    /// How many sessions weren't started.
    pub fn refused(&self) -> u64
        ensures { result ≡ self.now.refused }
    {
        self.refused
    }
}
