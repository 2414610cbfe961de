//! What answers frames.
ghost use Rattle.std.specs.Prelude.{◌≡◌, ◌+◌, ℕ, List, [], length, true, OnErr, OnOk};
ghost use Rattle.ov_wire.specs.Frames.{IsFrame};
ghost use Rattle.ov_peer.specs.Spellings.{IsUpdate, says_accepted, with_accepted};
ghost use Rattle.ov_peer.specs.Tells.{AnswererTells, StaysStuck};

use ov_base::Memory;
use ov_wire::kinds;

/// A value that answers one request at a time. What it answers follows from the value that it began
/// as and the spellings of the updates that it accepted since, in order.
pub trait Answerer {
    /// What leads from a start to a value, what is replied after it, the epoch, and whether the value
    /// accepts no update any more.
    ghost tells: { AnswererTells Self };

    /// Answers a frame; the answer replaces what `reply` had. Both are without their length fields.
    fn answer(&mut self, request: &[u8], reply: &mut Vec<u8>) -> Result<(), Memory>
        requires { IsFrame request.now }
        ensures frame { OnOk result (IsFrame reply.new.items) }
        // Only an Update is accepted, so the list below is longer by just its spelling.
        ensures accepted { OnOk result (says_accepted reply.new.items ≡ true
            → IsUpdate request.now) }
        ensures replies { (start : Self) (list : List (List ℕ)) → tells.reached start list self.old
            → OnOk result (tells.replies start list request.now reply.new.items) }
        ensures reached { (start : Self) (list : List (List ℕ)) → tells.reached start list self.old
            → OnOk result
            (tells.reached start (with_accepted list request.now reply.new.items) self.new) }
        ensures kept { (start : Self) (list : List (List ℕ)) → tells.reached start list self.old
            → OnErr result (tells.reached start list self.new) }
        // Once the disk failed in an update no update is accepted any more.
        ensures stuck { StaysStuck tells self.old self.new request.now reply.new.items result };

    /// The epoch: that of the start, and one for each update since. A value is reached from itself.
    fn epoch(&self) -> u32
        ensures begins { tells.reached self.now [] self.now }
        ensures counts { (start : Self) (list : List (List ℕ)) → tells.reached start list self.now
            → result ≡ tells.epoch_of start + length list };
}

/// Whether a reply is an Accepted.
pub fn is_accepted(reply: &[u8]) -> bool
    ensures { result ≡ says_accepted reply.now }
{
    match reply {
        [kind, ..] => *kind == kinds::ACCEPTED,
        [] => false,
    }
}
