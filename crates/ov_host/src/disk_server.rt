//! A server that goes on from where it began, and so does its disk.

use ov_base::Memory;
use ov_disk::Disk;
use ov_peer::Answerer;
use ov_server::Server;
use std::marker::Model;

/// A server as an answerer that tells what its disk keeps, beside what it answers.
#[derive(Drop)]
pub struct DiskServer<D: Disk> {
    server: Server<D>,
}

impl<D: Disk> Model for DiskServer<D> {
    ghost use Rattle.ov_store.specs.Opened.{Opened};

    ghost Value = { Opened D };

    ghost view = { λ s. s.server };
}

impl<D: Disk> DiskServer<D> {
    ghost use Rattle.std.specs.Prelude.{◌≡◌, []};
    ghost use Rattle.ov_host.specs.Lasting.{StoreGoesOn};

    /// An answerer over this server, which has made no update since.
    pub fn new(server: Server<D>) -> DiskServer<D>
        ensures same { result ≡ server }
        ensures begins { StoreGoesOn D.tells result [] result }
    {
        server.known();
        DiskServer { server }
    }

    /// Gives the disk back.
    pub fn close(self) -> D
        ensures { result ≡ self.disk }
    {
        let DiskServer { server } = self;
        server.into_store().close()
    }
}

impl<D: Disk> Answerer for DiskServer<D> {
    ghost use Rattle.ov_host.specs.Lasting.{store_tells};

    ghost tells = { store_tells D.tells };

    fn answer(&mut self, request: &[u8], reply: &mut Vec<u8>) -> Result<(), Memory> {
        Server::<D>::answer(&mut self.server, request, reply)
    }

    fn epoch(&self) -> u32 {
        self.server.known();
        self.server.epoch()
    }
}
