//! Messages of a tag byte and a number.

ghost use Rattle.std.specs.Prelude.{◌≡◌};
ghost use Rattle.ov_tokens.specs.Labels.{tagged};

/// A tag byte and a number of four bytes, with the high byte first.
pub fn tagged(tag: u8, number: u32) -> [u8; 5]
    ensures { result ≡ tagged tag number }
{
    let number = number.to_be_bytes();
    [tag, number[0], number[1], number[2], number[3]]
}
