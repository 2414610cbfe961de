//! A server as a value that goes on from where it began.
use crate::server::Server;
use ov_base::Memory;
use ov_disk::Disk;
use ov_peer::Answerer;

impl<D: Disk> Answerer for Server<D> {
    ghost use Rattle.std.specs.Prelude.{◌≡◌, true};
    ghost use Rattle.ov_server.specs.Answering.{serving_of};
    ghost use Rattle.ov_server.specs.Following.{Reaches, RepliesAfter};

    ghost tells = { record {
      reached = λ start list now. Reaches (serving_of start) list (serving_of now);
      replies = λ start list request reply. RepliesAfter (serving_of start) list request reply;
      epoch_of = λ s. s.catalogue.epoch;
      stuck = λ s. s.failed ≡ true;
    } };

    fn answer(&mut self, request: &[u8], reply: &mut Vec<u8>) -> Result<(), Memory> {
        Server::<D>::answer(self, request, reply)
    }

    fn epoch(&self) -> u32 {
        self.known();
        self.store.state().epoch()
    }
}
