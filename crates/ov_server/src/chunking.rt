//! The stored bytes of a file.
ghost use Rattle.std.specs.Prelude.{◌≡◌, ◌≤◌, ℕ, List, Ok};
ghost use Rattle.ov_base.specs.declared.limits.TheConstants.{MAX_CHUNK_BYTES};
ghost use Rattle.ov_wire.specs.declared.request.Request.TheVariants.{Chunk};
ghost use Rattle.ov_wire.specs.RequestReading.{request_of};
ghost use Rattle.ov_server.specs.Answering.{AsksServer};

use crate::reply::{reply_fault, reply_with};
use crate::server::Server;
use ov_base::{Memory, Octets, Refusal};
use ov_disk::Disk;
use ov_store::ChunkFault;
use ov_wire::Answer;

impl<D: Disk> Server<D> {
    /// Answers a Chunk.
    pub(crate) fn answer_chunk(
        &mut self,
        file: u32,
        generation: u32,
        start: u32,
        count: u32,
        reply: &mut Vec<u8>,
    ) -> Result<(), Memory>
        requires { count ≤ MAX_CHUNK_BYTES }
        ensures { (request : List ℕ)
            → request_of request ≡ Ok (Chunk file generation start count)
            → AsksServer D.tells self.old self.new request reply.new.items result }
    {
        // The reply is begun before the store is asked, which puts the bytes behind its kind: a
        // refusal of memory then comes before the disk is read.
        let bytes = Octets::new(*reply.allocator());
        reply_with(Ok(Answer::Bytes { bytes }), reply)?;
        match self.store.chunk(file, generation, start, count, reply) {
            Ok(()) => Ok(()),
            Err(ChunkFault::NoFile) => {
                let refusal = Refusal::NoFile;
                reply_with(Ok(Answer::Refused { refusal }), reply)
            }
            Err(ChunkFault::Moved { generation }) => {
                reply_with(Ok(Answer::Moved { generation }), reply)
            }
            Err(ChunkFault::Disk) => {
                reply_fault(reply);
                Ok(())
            }
            Err(ChunkFault::Memory) => reply_with(Err(Memory), reply),
        }
    }
}
