//! The two coats of a file, over any part of it.
ghost use Rattle.std.specs.Prelude.{◌≡◌, ◌≤◌, ◌+◌, ℕ, List, length};
ghost use Rattle.std.specs.Option.{option_copied};
ghost use Rattle.ov_surface.specs.Coats.{base_coat, surface_coat, coated, key_bytes};

use ov_base::Key;
use ov_ctr::apply_at;

/// Lays the base coat of a file under the access key of its base node, or takes it off. The first
/// of the bytes is at the place `start` of the file. It takes no memory.
pub fn base_encrypt(access: &Key, file: u32, start: u64, bytes: &mut [u8])
    requires { start + length bytes.old ≤ 4294967296 }
    ensures { bytes.new ≡ base_coat access.now.bytes file start bytes.old }
{
    apply_at(&access.bytes, b'B', file, start, bytes);
}

/// Lays the surface coat of a file under the key of a surface node, or takes it off. The first of
/// the bytes is at the place `start` of the file. It takes no memory.
pub fn over_encrypt(key: &Key, file: u32, start: u64, bytes: &mut [u8])
    requires { start + length bytes.old ≤ 4294967296 }
    ensures { bytes.new ≡ surface_coat key.now.bytes file start bytes.old }
{
    apply_at(&key.bytes, b'S', file, start, bytes);
}

/// Lays the surface coat, where there is a key.
fn coat(key: Option<&Key>, file: u32, start: u64, bytes: &mut [u8])
    requires { start + length bytes.old ≤ 4294967296 }
    ensures { bytes.new ≡ coated (key_bytes (option_copied key.entry)) file start bytes.old }
{
    if let Some(key) = key {
        over_encrypt(key, file, start, bytes);
    }
}

/// Turns a file's stored bytes under its old surface into those under its new one; without a key it
/// has no surface. The first of the bytes is at the place `start` of the file. It takes no
/// memory.
pub fn reencrypt(old: Option<&Key>, new: Option<&Key>, file: u32, start: u64, bytes: &mut [u8])
    requires { start + length bytes.old ≤ 4294967296 }
    ensures coats { let text = coated (key_bytes (option_copied old.entry)) file start bytes.old in
        bytes.new ≡ coated (key_bytes (option_copied new.entry)) file start text }
    ensures stored { (text : List ℕ)
        → bytes.old ≡ coated (key_bytes (option_copied old.entry)) file start text
        → bytes.new ≡ coated (key_bytes (option_copied new.entry)) file start text }
{
    coat(old, file, start, bytes);
    coat(new, file, start, bytes);
}
