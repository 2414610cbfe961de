//! The tags of files.
ghost use Rattle.std.specs.Prelude.{◌≡◌, ◌<◌, ◌^◌, ◌+◌, length};
ghost use Rattle.ov_surface.specs.Tags.{tag_of_file};

use ov_base::Key;
use ov_keyed::mac;
use ov_tokens::tag_key;

/// The tag of a file's plaintext under the access key of its base node. It takes no memory.
pub fn file_tag(access: &Key, file: u32, plain: &[u8]) -> [u8; 32]
    requires { 8 + length plain.now < 2 ^ 32 }
    ensures { result ≡ tag_of_file access.now.bytes file plain.now }
{
    let length = (plain.len() as u64).to_be_bytes();
    mac(&tag_key(access, file).bytes, &length, plain)
}
