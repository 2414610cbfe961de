//! The laws of peers that tell which history they serve. The functions do nothing.
ghost use Rattle.ov_peer.specs.Laws.{AsksAreAlong, ExchangesAreTold};

use crate::Peer;

/// What is read of a told peer's reply is a server's answer at a history that goes on from what it
/// served, and a list of asks was answered along such histories.
pub fn asks_are_told<P: Peer>()
    ensures exchanges { ExchangesAreTold P.tells }
    ensures along { AsksAreAlong P.tells }
{}
