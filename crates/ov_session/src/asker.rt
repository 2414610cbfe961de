//! The asker of a session.
ghost use Rattle.std.specs.Prelude.{◌≡◌, ◌↔◌, Err, OnOk};
ghost use Rattle.ov_session.specs.Asking.{TellsAsk};
ghost use Rattle.ov_session.specs.Tells.{AskerTells};
ghost use Rattle.ov_wire.specs.Frames.{IsFrame};

use ov_peer::AskFault;
use std::sync::Wait;

/// Asks one request at a time, for a session.
pub trait Asker {
    /// What the asker asks, whether it may ask, whether it has asked as often as it may, and which
    /// loan it asks by.
    ghost tells: { AskerTells Self };

    /// Asks a frame; the reply replaces what `reply` had. Both are without their length fields.
    fn ask<R: Wait>(&mut self, rt: &R, request: &[u8], reply: &mut Vec<u8>) -> Result<(), AskFault>
        requires frame { IsFrame request.now }
        requires ready { tells.ready self.old }
        ensures asked { TellsAsk tells self.old self.new request.now reply.new.items result }
        ensures spent { (result ≡ Err AskFault.Spent) ↔ tells.spent self.old }
        ensures frame { OnOk result (IsFrame reply.new.items) }
        ensures ready { tells.ready self.new }
        ensures same { tells.borrow self.new ≡ tells.borrow self.old };
}
