//! Laws of servers.
ghost use Rattle.std.specs.Prelude.{ℕ, List};
ghost use Rattle.ov_session.specs.Serving.{Follows, Session, serves_alone};
ghost use Rattle.ov_host.specs.Accepting.{accepted_in};
ghost use Rattle.ov_host.specs.Lasting.{StoresSurvive};

use ov_disk::Disk;
use ov_io::Stream;
use ov_peer::Answerer;

/// Sessions lead on by the updates that their exchanges accepted. The function does nothing.
pub fn accepted_updates_lead<V: Answerer, L: Stream>()
    ensures { (start v w : V) (sessions : List (Session L)) (list : List (List ℕ))
        → V.tells.reached start list v
        → (f : Follows (serves_alone V.tells L.Source.tells L.Sink.tells) v sessions w)
        → V.tells.reached start
        (accepted_in V.tells L.Source.tells L.Sink.tells v sessions w list f) w }
{}

/// Where a store was begun on a disk with nothing pending and went on by some updates, a stop at
/// any moment leaves the history for which the disk stood, with some first ones of them. The
/// function does nothing.
pub fn stores_survive<D: Disk>()
    ensures { StoresSurvive D.tells }
{}
