//! The reader of a store.
ghost use Rattle.std.specs.Prelude.{◌≡◌, ◌<◌};
ghost use Rattle.ov_base.specs.declared.limits.TheConstants.{MAX_LAYER_NODES};

use ov_base::{Key, Name};
use std::marker::Model;

/// A reader: a user, and of the user's root in each layer the number and the key. It holds no other
/// key, and has no `Debug`, so that no text shows these.
#[derive(Drop)]
pub struct Client {
    pub(crate) name: Name,
    pub(crate) base_root: u32,
    pub(crate) base: Key,
    pub(crate) surface_root: u32,
    pub(crate) surface: Key,
}

impl Model for Client {
    ghost use Rattle.std.specs.Prelude.{◌<◌};
    ghost use Rattle.ov_base.specs.declared.limits.TheConstants.{MAX_LAYER_NODES};
    ghost use Rattle.ov_client.specs.Readers.{Reader};

    ghost Value = { Reader };

    ghost view = { λ c. record {
      name = c.name;
      base_root = c.base_root;
      base = c.base.bytes;
      surface_root = c.surface_root;
      surface = c.surface.bytes;
    } };

    ghost invariant = { λ c.
        (c.base_root < MAX_LAYER_NODES) × (c.surface_root < MAX_LAYER_NODES) };
}

impl Client {
    /// The reader of this name, with the number and the key of the user's root in each layer.
    pub fn new(name: Name, base_root: u32, base: Key, surface_root: u32, surface: Key) -> Client
        requires base_root { base_root < MAX_LAYER_NODES }
        requires surface_root { surface_root < MAX_LAYER_NODES }
        ensures { result ≡ record {
          name = name;
          base_root = base_root;
          base = base.bytes;
          surface_root = surface_root;
          surface = surface.bytes;
        } }
    {
        Client {
            name,
            base_root,
            base,
            surface_root,
            surface,
        }
    }
}
