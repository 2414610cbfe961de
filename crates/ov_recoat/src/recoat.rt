//! Bytes under another surface.
ghost use Rattle.std.specs.Prelude.{◌≡◌, ◌≤◌, ◌<◌, ◌+◌, ℕ, length, option_map, slice_index};
ghost use Rattle.ov_base.specs.declared.limits.TheConstants.{MAX_FILE_BYTES};
ghost use Rattle.ov_history.specs.Rewrites.{surface_key};
ghost use Rattle.ov_state.specs.Entries.{plain_rewrite, plain_rewrites};
ghost use Rattle.ov_surface.specs.Coats.{key_bytes};
ghost use Rattle.ov_recoat.specs.Finding.{IsCountBefore, first_of};
ghost use Rattle.ov_recoat.specs.Laws.{Ascend};
ghost use Rattle.ov_recoat.specs.Recoats.{recoat_byte};

use ov_base::Key;
use ov_moves::Turn;
use ov_state::Rewrite;
use ov_surface::reencrypt;
use ov_tokens::{Layer, Master, Surface};
use std::marker::Model;

/// What the rewrites of an update make of the bytes of files, under the surface master. The files of
/// its rewrites ascend.
#[derive(Drop)]
pub struct Recoat<'a> {
    // The surface master.
    master: &'a Master,
    // By file number, so that the rewrite of a file is found by halves.
    rewrites: &'a [Rewrite],
}

impl<'a> Model for Recoat<'a> {
    ghost use Rattle.ov_state.specs.Entries.{plain_rewrites};
    ghost use Rattle.ov_recoat.specs.Laws.{Ascend};
    ghost use Rattle.ov_recoat.specs.Recoats.{Recoating};

    ghost Value = { Recoating };

    ghost view = { λ r. record {
      master = r.master.now.bytes;
      rewrites = plain_rewrites r.rewrites.now;
    } };

    ghost invariant = { λ r. Ascend 0 (plain_rewrites r.rewrites.now) };
}

impl<'a> Recoat<'a> {
    /// What these rewrites make of bytes, under this surface master. Their files ascend, as those of
    /// an update's rewrites do.
    pub fn new(master: &'a Master, rewrites: &'a [Rewrite]) -> Self
        requires { Ascend 0 (plain_rewrites rewrites.now) }
        ensures { result ≡ record {
          master = master.now.bytes;
          rewrites = plain_rewrites rewrites.now;
        } }
    {
        Recoat { master, rewrites }
    }

    /// The rewrites.
    pub fn rewrites(&self) -> &'a [Rewrite]
        ensures { plain_rewrites result.now ≡ self.now.rewrites }
    {
        self.rewrites
    }
}

// The key of a surface, where there is one, under the surface master.
fn surface_key(master: &Master, surface: Option<u32>) -> Option<Key>
    ensures { key_bytes result ≡ surface_key master.now.bytes surface }
{
    match surface {
        Some(node) => Some(Surface::key_of(master, node)),
        None => None,
    }
}

// Turns bytes of the rewrite's file, which stand there from `start` on.
fn recoat_piece(master: &Master, rewrite: &Rewrite, start: u32, bytes: &mut [u8])
    requires { start + length bytes.old ≤ MAX_FILE_BYTES }
    ensures { (k : ℕ) → k < length bytes.old → slice_index bytes.new k
        ≡ recoat_byte master.now.bytes (plain_rewrite rewrite.now) (start + k)
        (slice_index bytes.old k) }
{
    let old = surface_key(master, rewrite.old);
    let new = surface_key(master, rewrite.new);
    reencrypt(
        old.as_ref(),
        new.as_ref(),
        rewrite.file,
        u64::from(start),
        bytes,
    );
}

// How many of the rewrites, whose files ascend, are of files before this one.
fn count_before(rewrites: &[Rewrite], file: u32) -> usize
    requires { Ascend 0 (plain_rewrites rewrites.now) }
    ensures { IsCountBefore file result rewrites.now }
{
    rewrites.partition_point(|rewrite| rewrite.file < file)
}

// The rewrite of a file, where it has one.
fn rewrite_of(rewrites: &[Rewrite], file: u32) -> Option<&Rewrite>
    requires { Ascend 0 (plain_rewrites rewrites.now) }
    ensures { option_map (λ r. plain_rewrite r.now) result
        ≡ first_of (plain_rewrites rewrites.now) file }
{
    let rewrite = rewrites.get(count_before(rewrites, file))?;
    if rewrite.file == file {
        Some(rewrite)
    } else {
        None
    }
}

impl<'a> Turn for Recoat<'a> {
    ghost use Rattle.ov_recoat.specs.Recoats.{recoated};

    ghost turned = { λ r. recoated r.master r.rewrites };

    fn turn(&self, file: u32, start: u32, bytes: &mut [u8]) {
        if let Some(rewrite) = rewrite_of(self.rewrites, file) {
            recoat_piece(self.master, rewrite, start, bytes);
        }
    }
}
