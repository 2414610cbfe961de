//! What a reader is told by an answer.
ghost use Rattle.std.specs.Prelude.{◌≡◌, ◌≤◌, ◌<◌, ◌^◌, IfOk};
ghost use Rattle.ov_base.specs.declared.limits.TheConstants.{MAX_CHUNK_BYTES};
ghost use Rattle.ov_client.specs.Telling.{HasFewSteps, HasSize, TellsFewSteps, chained_in};
ghost use Rattle.ov_client.specs.Telling.{chained_unless, fetched_in, sized, wrong_field};
ghost use Rattle.ov_client.specs.Telling.{wrong_surface};

use crate::{Client, ClientFault};
use ov_base::Octets;
use ov_tokens::Chain;
use ov_wire::{Answer, Chained};

/// What was fetched of a file.
#[derive(Drop)]
pub enum Fetched {
    /// Bytes.
    Bytes(Octets),
    /// Nothing, and the read begins again: since its chains were told, the file's surface changed,
    /// or the file was removed or replaced. The next chains have at least this generation.
    Again(u64),
}

// Where the fields of a Chained are in its frame, and how many bytes a step has.
const GENERATION: u32 = 13;

const BASE_ROOT: u32 = 49;

const SURFACE_ROOT: u32 = 56;

const STEP: u32 = 37;

impl Client {
    /// The place of a surface root that isn't the reader's, behind this many base steps.
    fn wrong_surface(&self, steps: u32, surface: &Option<Chain>) -> Option<u32>
        requires { steps < 2 ^ 16 }
        ensures { result ≡ wrong_surface self.now steps surface.now }
    {
        match surface {
            Some(chain) if chain.root != self.surface_root => Some(SURFACE_ROOT + STEP * steps),
            Some(_) => None,
            None => None,
        }
    }

    /// The place of the first field that can't be: a generation below the least that may come, or a
    /// root that isn't the reader's.
    fn wrong_field(&self, least: u64, chained: &Chained) -> Option<u32>
        requires { HasFewSteps chained.now }
        ensures { result ≡ wrong_field self.now least chained.now }
    {
        if (chained.generation as u64) < least {
            return Some(GENERATION);
        }
        if chained.base.root != self.base_root {
            return Some(BASE_ROOT);
        }
        let steps = chained.base.steps.as_slice().len() as u32;
        self.wrong_surface(steps, &chained.surface)
    }

    /// The chains that are told, where no field is wrong.
    fn checked(&self, least: u64, chained: Chained) -> Result<Chained, ClientFault>
        requires { HasFewSteps chained }
        ensures { result ≡ chained_unless (wrong_field self.now least chained) chained }
    {
        match self.wrong_field(least, &chained) {
            Some(at) => Err(ClientFault::BadReply { at }),
            None => Ok(chained),
        }
    }

    /// The chains in an answer to Chain.
    pub fn chained_in(&self, least: u64, answer: Answer) -> Result<Chained, ClientFault>
        requires { TellsFewSteps answer }
        ensures { result ≡ chained_in self.now least answer }
    {
        match answer {
            Answer::Chained(chained) => self.checked(least, chained),
            Answer::Refused { refusal } => Err(ClientFault::Refused(refusal)),
            Answer::NoMemory => Err(ClientFault::Memory),
            _ => Err(ClientFault::BadReply { at: 0 }),
        }
    }
}

/// The bytes of a chunk, where there are this many.
fn sized(count: u32, bytes: Octets) -> Result<Fetched, ClientFault>
    requires { count ≤ MAX_CHUNK_BYTES }
    ensures told { result ≡ sized count bytes }
    ensures size { IfOk result (HasSize count) }
{
    let came = bytes.as_slice().len();
    if came == count as usize {
        Ok(Fetched::Bytes(bytes))
    } else {
        Err(ClientFault::BadReply {
            at: 1 + came.min(count as usize) as u32,
        })
    }
}

/// What is fetched by an answer to Chunk, which was asked at this generation and must have this
/// many bytes.
pub fn fetched_in(asked: u32, count: u32, answer: Answer) -> Result<Fetched, ClientFault>
    requires { count ≤ MAX_CHUNK_BYTES }
    ensures told { result ≡ fetched_in asked count answer }
    ensures size { IfOk result (HasSize count) }
{
    match answer {
        Answer::Bytes { bytes } => sized(count, bytes),
        Answer::Moved { generation } => Ok(Fetched::Again(generation as u64)),
        // A chunk is refused where the file is gone, and for no other reason. A file that has its
        // name now was made later, by a creation or in its place, so its generation is greater.
        Answer::Refused { refusal: _ } => Ok(Fetched::Again(asked as u64 + 1)),
        Answer::DeviceFault => Err(ClientFault::Device),
        Answer::NoMemory => Err(ClientFault::Memory),
        _ => Err(ClientFault::BadReply { at: 0 }),
    }
}
