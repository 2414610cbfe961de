//! Reading a file.
ghost use Rattle.std.specs.Prelude.{◌≡◌, ◌≤◌, ℕ, List, [], length, IfOk};
ghost use Rattle.ov_base.specs.declared.limits.TheConstants.{MAX_FILE_BYTES};
ghost use Rattle.ov_wire.specs.AnswersTo.{IsChained};
ghost use Rattle.ov_protocol.specs.Serving.{Service};
ghost use Rattle.ov_client.specs.Causes.{HasClientCause};
ghost use Rattle.ov_client.specs.Completeness.{IsCompleteRead, IsCompleteReadInto};
ghost use Rattle.ov_client.specs.Readers.{Reader, keys_along};
ghost use Rattle.ov_client.specs.Reads.{ReadGoesOn, Reads, ReadsInto};
ghost use Rattle.ov_client.specs.Talks.{AsksChain, goes_on};
ghost use Rattle.ov_client.specs.Told.{IsReadersReply, IsReadersReplyInto};
ghost use Rattle.ov_client.specs.Tries.{HasAtMost, after_gathered, after_tried};

use crate::asking::ask_chunk;
use crate::keys::Keys;
use crate::telling::Fetched;
use crate::{Client, ClientFault};
use ov_base::{Memory, Name, Octets};
use ov_peer::Peer;
use ov_wire::Chained;
use std::alloc::Global;

/// How often a read begins.
const TRIES: usize = 9;

/// What came of one try.
#[derive(Drop)]
pub enum Tried {
    /// The file's bytes.
    Read(Octets),
    /// The file's surface changed, or the file was removed or replaced: the generation of the
    /// chains that were told, and the least that the next may have.
    Again { generation: u32, next: u64 },
}

/// The bytes of a file, chunk after chunk, each without its coats.
fn gather<P: Peer>(
    alloc: Global,
    peer: &mut P,
    chained: &Chained,
    keys: &Keys,
) -> Result<Fetched, ClientFault>
    requires { chained.now.length ≤ MAX_FILE_BYTES }
    ensures talk { (r : Reader) (file tries : List ℕ) → keys.now ≡ keys_along r chained.now
        → ReadGoesOn P.tells peer.old peer.new r file (goes_on r tries chained.now [])
        (after_gathered r tries chained.now) result }
    ensures size { IfOk result (HasAtMost MAX_FILE_BYTES) }
    ensures same { P.tells.borrow peer.new ≡ P.tells.borrow peer.old }
    ensures cause { HasClientCause (P.tells.faults peer.old) (P.tells.faults peer.new) result }
{
    // The length was only announced: memory is taken as the bytes come.
    let mut plain = Vec::new(alloc);
    while plain.len() < chained.length as usize {
        match ask_chunk(alloc, peer, chained, plain.len() as u32) {
            Ok(Fetched::Bytes(chunk)) => match keys.append(chained.file, chunk, &mut plain) {
                Ok(()) => {}
                Err(Memory) => return Err(ClientFault::Memory),
            },
            Ok(Fetched::Again(next)) => return Ok(Fetched::Again(next)),
            Err(fault) => return Err(fault),
        }
    }
    Ok(Fetched::Bytes(Octets::from_vec(plain)))
}

impl Client {
    /// Reads a file along the chains that were told. Nothing is given before its tag is compared.
    fn read_along<P: Peer>(
        &self,
        alloc: Global,
        peer: &mut P,
        chained: &Chained,
    ) -> Result<Tried, ClientFault>
        requires { IsChained chained.now }
        ensures talk { (file tries : List ℕ) → ReadGoesOn P.tells peer.old peer.new
            self.now file (goes_on self.now tries chained.now []) (after_tried tries) result }
        ensures same { P.tells.borrow peer.new ≡ P.tells.borrow peer.old }
        ensures cause { HasClientCause (P.tells.faults peer.old) (P.tells.faults peer.new) result }
    {
        let keys = Keys::along(self, chained);
        match gather(alloc, peer, chained, &keys) {
            Ok(Fetched::Bytes(plain)) => match keys.judge(chained, plain) {
                Ok(bytes) => Ok(Tried::Read(bytes)),
                Err(fault) => Err(fault),
            },
            Ok(Fetched::Again(next)) => Ok(Tried::Again {
                generation: chained.generation,
                next,
            }),
            Err(fault) => Err(fault),
        }
    }

    /// One try: the chains, then the chunks. It ends early where the file's surface changes, or the
    /// file is removed or replaced.
    fn try_once<P: Peer>(
        &self,
        alloc: Global,
        peer: &mut P,
        file: &Name,
        least: u64,
    ) -> Result<Tried, ClientFault>
        ensures talk { (tries : List ℕ) → ReadGoesOn P.tells peer.old peer.new
            self.now file.now (AsksChain tries least) (after_tried tries) result }
        ensures same { P.tells.borrow peer.new ≡ P.tells.borrow peer.old }
        ensures cause { HasClientCause (P.tells.faults peer.old) (P.tells.faults peer.new) result }
    {
        match self.ask_chain(alloc, peer, file, least) {
            Ok(chained) => self.read_along(alloc, peer, &chained),
            Err(fault) => Err(fault),
        }
    }

    /// The bytes of a file, by the user's keys alone.
    ///
    /// Asks for the chains from the user's two roots to the file's nodes, and then for its stored
    /// bytes, chunk after chunk. Where the file's surface changes meanwhile, or the file is removed
    /// or replaced, it begins again, nine times in all; a read is refused only where the chains
    /// are. The bytes are given only if the file's tag is theirs. A file without bytes asks for no
    /// chunk. Where the reader's keys are those of the user's roots, a peer that serves a right
    /// history, and that nobody else updates, cuts a read off only by a fault of its disk or of the
    /// link, or where memory is refused.
    pub fn fetch<P: Peer>(
        &self,
        alloc: Global,
        peer: &mut P,
        file: &Name,
    ) -> Result<Octets, ClientFault>
        ensures talk { Reads P.tells peer.old peer.new self.now file.now result }
        ensures told { (v : Service) → P.tells.serves peer.old v
            → IsReadersReply self.now file.now v (P.tells.serves peer.new) result }
        ensures complete { IsCompleteRead P.tells peer.old peer.new self.now file.now result }
        ensures same { P.tells.borrow peer.new ≡ P.tells.borrow peer.old }
        ensures cause { HasClientCause (P.tells.faults peer.old) (P.tells.faults peer.new) result }
    {
        let mut generations = [0; TRIES];
        let mut least = 0;
        for n in 0..TRIES {
            match self.try_once(alloc, peer, file, least) {
                Ok(Tried::Read(bytes)) => return Ok(bytes),
                Ok(Tried::Again { generation, next }) => {
                    generations[n] = generation;
                    least = next;
                }
                Err(fault) => return Err(fault),
            }
        }
        Err(ClientFault::Unsettled { generations })
    }

    /// Appends the bytes of a file to a list, as [`Client::fetch`] gives them. At a fault the list
    /// is as before.
    pub fn read<P: Peer>(
        &self,
        alloc: Global,
        peer: &mut P,
        file: &Name,
        into: &mut Vec<u8>,
    ) -> Result<(), ClientFault>
        ensures talk { ReadsInto P.tells peer.old peer.new self.now file.now
            into.old.items into.new.items result }
        ensures told { (v : Service) → P.tells.serves peer.old v
            → IsReadersReplyInto self.now file.now v (P.tells.serves peer.new)
            into.old.items into.new.items result }
        ensures complete { IsCompleteReadInto P.tells peer.old peer.new self.now file.now
            into.old.items into.new.items result }
        ensures same { P.tells.borrow peer.new ≡ P.tells.borrow peer.old }
        ensures cause { HasClientCause (P.tells.faults peer.old) (P.tells.faults peer.new) result }
    {
        let bytes = self.fetch(alloc, peer, file)?;
        match into.extend_from_slice(bytes.as_slice()) {
            Ok(()) => Ok(()),
            Err(_) => Err(ClientFault::Memory),
        }
    }
}
