//! The reader that an owner makes for a user.
ghost use Rattle.std.specs.Prelude.{◌≡◌, ◌<◌};
ghost use Rattle.ov_base.specs.declared.limits.TheConstants.{MAX_LAYER_NODES};
ghost use Rattle.ov_wire.specs.AnswersTo.{IsAnswer};
ghost use Rattle.ov_wire.specs.declared.request.Question.TheVariants.{Key as AsksKey};
ghost use Rattle.ov_wire.specs.declared.request.Request.TheVariants.{Ask};
ghost use Rattle.ov_wire.specs.Requests.{HasRequestForm};
ghost use Rattle.ov_protocol.specs.Serving.{Service};
ghost use Rattle.ov_owner.specs.Causes.{HasOwnerCause};
ghost use Rattle.ov_owner.specs.Completeness.{IsCompleteCall, SaysReader};
ghost use Rattle.ov_owner.specs.Clients.{IsReaderOf, reader_in, reader_of};
ghost use Rattle.ov_owner.specs.Questions.{AsksOnce};

use crate::sealing::known_of;
use crate::sending::fault_of;
use crate::{Owner, OwnerFault};
use ov_base::Name;
use ov_client::Client;
use ov_peer::{Peer, exchange};
use ov_tokens::{Base, Layer, Surface};
use ov_wire::{Answer, Known, Question, Request};
use std::alloc::Global;

impl Owner {
    /// The reader of a user whose roots have these numbers.
    fn reader_of(&self, user: &Name, known: &Known) -> Client
        requires base_root { known.now.base_root < MAX_LAYER_NODES }
        requires surface_root { known.now.surface_root < MAX_LAYER_NODES }
        ensures { result ≡ reader_of self.now user.now known.now }
    {
        Client::new(
            user.copy(),
            known.base_root,
            Base::key_of(&self.base, known.base_root),
            known.surface_root,
            Surface::key_of(self.surface.master(), known.surface_root),
        )
    }

    /// The reader of a user by the numbers in an answer, or why the call ends.
    fn reader_in(&self, user: &Name, answer: Answer) -> Result<Client, OwnerFault>
        requires { IsAnswer (Ask (AsksKey user.now)) answer }
        ensures { result ≡ reader_in self.now user.now answer }
    {
        let known = known_of(answer)?;
        Ok(self.reader_of(user, &known))
    }

    /// The reader of a user, who has the keys of the user's two roots and no other. Asks for the
    /// roots' numbers.
    pub fn client<P: Peer>(
        &self,
        alloc: Global,
        peer: &mut P,
        user: &Name,
    ) -> Result<Client, OwnerFault>
        ensures asks { AsksOnce P.tells peer.old peer.new
            (Ask (AsksKey user.now)) (reader_in self.now user.now) result }
        ensures form { HasRequestForm (Ask (AsksKey user.now)) }
        ensures told { (v : Service) → P.tells.serves peer.old v
            → IsReaderOf self.now v (P.tells.serves peer.new) user.now result }
        ensures complete { IsCompleteCall P.tells self.now peer.old peer.new
            (SaysReader self.now user.now) result }
        ensures same { P.tells.borrow peer.new ≡ P.tells.borrow peer.old }
        ensures cause { HasOwnerCause (P.tells.faults peer.old) (P.tells.faults peer.new) result }
    {
        let request = Request::Ask {
            question: Question::Key { user: user.copy() },
        };
        match exchange(alloc, peer, &request) {
            Ok(answer) => self.reader_in(user, answer),
            Err(fault) => Err(fault_of(fault)),
        }
    }
}
