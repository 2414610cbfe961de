//! The two requests of a read.
ghost use Rattle.std.specs.Prelude.{◌≡◌, ◌<◌, ℕ, List, [], length, IfOk};
ghost use Rattle.ov_wire.specs.AnswersTo.{IsChained};
ghost use Rattle.ov_client.specs.Causes.{HasClientCause};
ghost use Rattle.ov_client.specs.Readers.{Reader};
ghost use Rattle.ov_client.specs.Reads.{ReadGoesOn};
ghost use Rattle.ov_client.specs.Talks.{AsksChain, AsksChunk, after_fetched, goes_on};
ghost use Rattle.ov_client.specs.Telling.{HasSize, chunk_bytes};

use crate::fault::fault_of;
use crate::telling::{Fetched, fetched_in};
use crate::{Client, ClientFault};
use ov_base::Name;
use ov_base::limits::MAX_CHUNK_BYTES;
use ov_peer::{Peer, exchange};
use ov_wire::{Chained, Request};
use std::alloc::Global;

impl Client {
    /// Asks for the chains to a file, of a generation that is at least `least`.
    pub fn ask_chain<P: Peer>(
        &self,
        alloc: Global,
        peer: &mut P,
        file: &Name,
        least: u64,
    ) -> Result<Chained, ClientFault>
        ensures talk { (tries : List ℕ) → ReadGoesOn P.tells peer.old peer.new
            self.now file.now (AsksChain tries least) (λ c. goes_on self.now tries c []) result }
        ensures form { IfOk result IsChained }
        ensures same { P.tells.borrow peer.new ≡ P.tells.borrow peer.old }
        ensures cause { HasClientCause (P.tells.faults peer.old) (P.tells.faults peer.new) result }
    {
        let request = Request::Chain {
            user: self.name.copy(),
            file: file.copy(),
        };
        match exchange(alloc, peer, &request) {
            Ok(answer) => self.chained_in(least, answer),
            Err(fault) => Err(fault_of(fault)),
        }
    }
}

/// Asks for the chunk of a file that begins at `start`. All requests are of the most bytes that a
/// chunk can have; the last chunk of a file has those that are left.
pub fn ask_chunk<P: Peer>(
    alloc: Global,
    peer: &mut P,
    chained: &Chained,
    start: u32,
) -> Result<Fetched, ClientFault>
    requires { start < chained.now.length }
    ensures talk { (r : Reader) (file tries stored : List ℕ) → start ≡ length stored
        → ReadGoesOn P.tells peer.old peer.new r file (AsksChunk tries chained.now stored)
        (after_fetched r tries chained.now stored) result }
    ensures size { IfOk result (HasSize (chunk_bytes chained.now.length start)) }
    ensures same { P.tells.borrow peer.new ≡ P.tells.borrow peer.old }
    ensures cause { HasClientCause (P.tells.faults peer.old) (P.tells.faults peer.new) result }
{
    let request = Request::Chunk {
        file: chained.file,
        generation: chained.generation,
        start,
        count: MAX_CHUNK_BYTES,
    };
    let count = MAX_CHUNK_BYTES.min(chained.length - start);
    match exchange(alloc, peer, &request) {
        Ok(answer) => fetched_in(chained.generation, count, answer),
        Err(fault) => Err(fault_of(fault)),
    }
}
