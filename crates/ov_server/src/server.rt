//! A server over a store.
ghost use Rattle.std.specs.Prelude.{◌≡◌, false};
ghost use Rattle.ov_history.specs.Sealed.{SealedHistory};
ghost use Rattle.ov_store.specs.Opened.{Serves};

use ov_base::Key;
use ov_disk::Disk;
use ov_store::Store;
use ov_tokens::SurfaceMaster;
use std::marker::Model;

/// A store that answers frames, and the surface master with which it was opened.
#[derive(Drop)]
pub struct Server<D: Disk> {
    pub(crate) store: Store<D>,
    pub(crate) surface: SurfaceMaster,
}

impl<D: Disk> Model for Server<D> {
    ghost use Rattle.std.specs.Prelude.{◌≡◌};
    ghost use Rattle.ov_store.specs.Opened.{Opened};

    ghost Value = { Opened D };

    ghost view = { λ s. s.store };

    ghost invariant = { λ s. s.store.keys.surface ≡ s.surface.bytes };
}

impl<D: Disk> Server<D> {
    /// A server over this store, whose disk hasn't failed in an update. The surface master is that
    /// with which it was opened.
    pub fn new(store: Store<D>, surface: Key) -> Server<D>
        requires surface { store.keys.surface ≡ surface.bytes }
        requires sound { store.failed ≡ false }
        ensures { result ≡ store }
    {
        Server {
            store,
            surface: SurfaceMaster::new(&surface),
        }
    }

    /// The store of a server.
    pub fn store(&self) -> &Store<D>
        ensures { result.now ≡ self.now }
    {
        &self.store
    }

    /// Gives the store back.
    pub fn into_store(self) -> Store<D>
        ensures { result ≡ self }
    {
        let Server { store, surface: _ } = self;
        store
    }

    /// Does nothing. Its contract is what holds of every server: it stands for some history.
    pub fn known(&self)
        ensures { (g : SealedHistory) × Serves D.tells g self.now }
    {
        self.store.known();
    }
}
