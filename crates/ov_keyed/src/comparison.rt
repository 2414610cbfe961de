//! Comparison of tags and keys.

ghost use Rattle.std.specs.Prelude.{◌≡◌, ◌↔◌, IsTrue};

/// Whether two tags are equal. All 32 bytes of both are read, wherever they differ.
pub fn same(a: &[u8; 32], b: &[u8; 32]) -> bool
    ensures { IsTrue result ↔ (a.now ≡ b.now) }
{
    let mut difference = 0u8;
    for i in 0..32usize {
        difference |= a[i] ^ b[i];
    }
    difference == 0
}
