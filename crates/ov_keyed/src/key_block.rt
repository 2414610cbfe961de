//! The two blocks that a key makes.

ghost use Rattle.std.specs.Prelude.{◌≡◌};
ghost use Rattle.ov_keyed.specs.Hmac.{block_key, pad};

/// The byte that fills the inner block, `ipad`.
pub const INNER: u8 = 0x36;

/// The byte that fills the outer block, `opad`.
pub const OUTER: u8 = 0x5c;

/// The key, filled with zeros to a block of the hash.
fn block_of(key: &[u8; 32]) -> [u8; 64]
    ensures { result ≡ block_key key.now }
{
    let mut block = [0; 64];
    block[..32].copy_from_slice(key);
    block
}

/// The block of the key, each byte XORed with `byte`.
pub fn padded(key: &[u8; 32], byte: u8) -> [u8; 64]
    ensures { result ≡ pad byte key.now }
{
    let mut block = block_of(key);
    for place in block.iter_mut() {
        *place ^= byte;
    }
    block
}
