//! Counter blocks.

ghost use Rattle.std.specs.Prelude.{◌≡◌};
ghost use Rattle.ov_ctr.specs.Ctr.{counter_block};

/// The counter block of a file's block, whose number is counted from 0.
pub fn counter_block(tag: u8, file: u32, number: u64) -> [u8; 16]
    ensures { result ≡ counter_block tag file number }
{
    let [a, b, c, d] = file.to_be_bytes();
    let [e, f, g, h, i, j, k, l] = number.to_be_bytes();
    [tag, 0, 0, 0, a, b, c, d, e, f, g, h, i, j, k, l]
}
