//! The keys of a file, and what is done with them.
ghost use Rattle.std.specs.Prelude.{◌≡◌, ◌≤◌, ◌+◌, ◌++◌, length, OnOk};
ghost use Rattle.ov_base.specs.declared.limits.TheConstants.{MAX_FILE_BYTES};
ghost use Rattle.ov_surface.specs.Coats.{key_bytes};
ghost use Rattle.ov_client.specs.Readers.{judged, keys_along, surface_along, uncovered};

use crate::{Client, ClientFault};
use ov_base::{Key, Memory, Octets};
use ov_chain::{walk, walk_to_access};
use ov_keyed::same;
use ov_surface::{base_encrypt, file_tag, reencrypt};
use ov_tokens::Chain;
use ov_wire::Chained;
use std::marker::Model;

/// The access key of a file's base node, and the key of its surface, where it has one.
#[derive(Drop)]
pub struct Keys {
    access: Key,
    surface: Option<Key>,
}

impl Model for Keys {
    ghost use Rattle.ov_surface.specs.Coats.{key_bytes};
    ghost use Rattle.ov_client.specs.Readers.{FileKeys};

    ghost Value = { FileKeys };

    ghost view = { λ k. record { access = k.access.bytes; surface = key_bytes k.surface } };
}

/// The key to which a surface chain leads from the key of its root, where there is one.
fn surface_key_by(root_key: &Key, chain: &Option<Chain>) -> Option<Key>
    ensures { key_bytes result ≡ surface_along root_key.now.bytes chain.now }
{
    match chain {
        Some(chain) => Some(walk(root_key, chain)),
        None => None,
    }
}

impl Keys {
    /// The keys to which both chains lead from those of the reader's roots.
    pub fn along(client: &Client, chained: &Chained) -> Keys
        ensures { result ≡ keys_along client.now chained.now }
    {
        Keys {
            access: walk_to_access(&client.base, &chained.base),
            surface: surface_key_by(&client.surface, &chained.surface),
        }
    }

    /// Takes both coats off stored bytes, the first of which is at the place `start` of the
    /// file.
    fn uncover(&self, file: u32, start: u64, bytes: &mut [u8])
        requires { start + length bytes.old ≤ 4294967296 }
        ensures { bytes.new ≡ uncovered self.now file start bytes.old }
    {
        reencrypt(self.surface.as_ref(), None, file, start, bytes);
        base_encrypt(&self.access, file, start, bytes);
    }

    /// Appends a chunk of stored bytes to those before it, without its coats.
    pub fn append(&self, file: u32, chunk: Octets, plain: &mut Vec<u8>) -> Result<(), Memory>
        requires { length plain.old.items + length chunk ≤ MAX_FILE_BYTES }
        ensures { OnOk result (plain.new.items ≡ plain.old.items
            ++ uncovered self.now file (length plain.old.items) chunk) }
    {
        let mut bytes = chunk.into_vec();
        self.uncover(file, plain.len() as u64, &mut bytes);
        plain.extend_from_slice(&bytes)?;
        Ok(())
    }

    /// The bytes of a file, if the tag that was told is theirs.
    pub fn judge(&self, chained: &Chained, plain: Octets) -> Result<Octets, ClientFault>
        requires { length plain ≤ MAX_FILE_BYTES }
        ensures { result ≡ judged self.now chained.now plain }
    {
        let computed = file_tag(&self.access, chained.file, plain.as_slice());
        if same(&computed, &chained.tag) {
            Ok(plain)
        } else {
            Err(ClientFault::Damaged {
                stored: chained.tag,
                computed,
            })
        }
    }
}
