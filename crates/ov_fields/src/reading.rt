//! Reading fields.

ghost use Rattle.std.specs.Prelude.{◌≡◌, ◌≤◌, ℕ, List, length, IfOk, option_map};
ghost use Rattle.std.specs.Borrow.{Bor};
ghost use Rattle.std.specs.Int.{w16, w32};
ghost use Rattle.ov_fields.specs.Answers.{GivesField};
ghost use Rattle.ov_fields.specs.Reading.{any, at_most, below, between, byte_at, bytes_at, flag_at, number_at, number_that, optional_at, sized_at, token_at};

use crate::FieldFault;
use ov_tokens::Token;

/// A byte.
#[tactic(auto, unfolding(crate::specs::Reading::byte_at))]
pub fn take_u8(bytes: &[u8]) -> Result<(u8, &[u8]), FieldFault>
    ensures { GivesField (λ b. b) result (byte_at any bytes.now) }
{
    match bytes {
        [] => Err(FieldFault::Bad { left: 0 }),
        [byte, rest @ ..] => Ok((*byte, rest)),
    }
}

/// A byte from `least` to `most`.
#[tactic(auto, unfolding(crate::specs::Reading::byte_at))]
pub fn take_byte(least: u8, most: u8, bytes: &[u8]) -> Result<(u8, &[u8]), FieldFault>
    ensures read { GivesField (λ b. b) result (byte_at (between least most) bytes.now) }
    ensures range { IfOk result (λ x. (least ≤ x.0) × (x.0 ≤ most)) }
{
    match bytes {
        [] => Err(FieldFault::Bad { left: 0 }),
        [byte, rest @ ..] => {
            if least <= *byte && *byte <= most {
                Ok((*byte, rest))
            } else {
                Err(FieldFault::Bad { left: bytes.len() })
            }
        }
    }
}

/// Takes `count` bytes, and gives them and the bytes after them.
#[tactic(auto, unfolding(crate::specs::Reading::bytes_at))]
pub fn take_bytes(count: usize, bytes: &[u8]) -> Result<(&[u8], &[u8]), FieldFault>
    ensures read { GivesField (λ b. b.now) result (bytes_at count bytes.now) }
    ensures len { IfOk result (λ x. length x.0.now ≡ count) }
{
    if bytes.len() < count {
        return Err(FieldFault::Bad { left: 0 });
    }
    let (front, rest) = bytes.split_at(count);
    Ok((front, rest))
}

/// A number of two bytes.
pub fn take_u16(bytes: &[u8]) -> Result<(u16, &[u8]), FieldFault>
    ensures { GivesField (λ n. n) result (number_at w16 bytes.now) }
{
    let (front, rest) = take_bytes(2, bytes)?;
    let number = u16::from_be_bytes([front[0], front[1]]);
    Ok((number, rest))
}

/// A number of four bytes.
pub fn take_u32(bytes: &[u8]) -> Result<(u32, &[u8]), FieldFault>
    ensures { GivesField (λ n. n) result (number_at w32 bytes.now) }
{
    let (front, rest) = take_bytes(4, bytes)?;
    let number = u32::from_be_bytes([front[0], front[1], front[2], front[3]]);
    Ok((number, rest))
}

/// A number of two bytes that is at most `most`.
#[tactic(auto, unfolding(crate::specs::Reading::number_that))]
pub fn take_u16_at_most(most: u16, bytes: &[u8]) -> Result<(u16, &[u8]), FieldFault>
    ensures { GivesField (λ n. n) result (number_that w16 (at_most most) bytes.now) }
{
    let (front, rest) = take_bytes(2, bytes)?;
    let number = u16::from_be_bytes([front[0], front[1]]);
    if number <= most {
        Ok((number, rest))
    } else {
        Err(FieldFault::Bad { left: bytes.len() })
    }
}

/// A number of four bytes that is at most `most`.
#[tactic(auto, unfolding(crate::specs::Reading::number_that))]
pub fn take_u32_at_most(most: u32, bytes: &[u8]) -> Result<(u32, &[u8]), FieldFault>
    ensures { GivesField (λ n. n) result (number_that w32 (at_most most) bytes.now) }
{
    let (number, rest) = take_u32(bytes)?;
    if number <= most {
        Ok((number, rest))
    } else {
        Err(FieldFault::Bad { left: bytes.len() })
    }
}

/// A number of four bytes that is below `limit`.
#[tactic(auto, unfolding(crate::specs::Reading::number_that))]
pub fn take_u32_below(limit: u32, bytes: &[u8]) -> Result<(u32, &[u8]), FieldFault>
    ensures { GivesField (λ n. n) result (number_that w32 (below limit) bytes.now) }
{
    let (number, rest) = take_u32(bytes)?;
    if number < limit {
        Ok((number, rest))
    } else {
        Err(FieldFault::Bad { left: bytes.len() })
    }
}

/// A number of four bytes from `least` to `most`.
#[tactic(auto, unfolding(crate::specs::Reading::number_that))]
pub fn take_u32_between(least: u64, most: u64, bytes: &[u8]) -> Result<(u32, &[u8]), FieldFault>
    ensures { GivesField (λ n. n) result (number_that w32 (between least most) bytes.now) }
{
    let (number, rest) = take_u32(bytes)?;
    if least <= number as u64 && number as u64 <= most {
        Ok((number, rest))
    } else {
        Err(FieldFault::Bad { left: bytes.len() })
    }
}

/// The 32 bytes of a tag or a check value.
pub fn take_tag(bytes: &[u8]) -> Result<([u8; 32], &[u8]), FieldFault>
    ensures { GivesField (λ t. t) result (bytes_at 32 bytes.now) }
{
    let (front, rest) = take_bytes(32, bytes)?;
    let mut tag = [0; 32];
    tag.copy_from_slice(front);
    Ok((tag, rest))
}

/// A token.
pub fn take_token(bytes: &[u8]) -> Result<(Token, &[u8]), FieldFault>
    ensures { GivesField (λ t. t) result (token_at bytes.now) }
{
    let (bytes, rest) = take_tag(bytes)?;
    Ok((Token { bytes }, rest))
}

/// At most this many bytes behind their number.
#[tactic(auto, unfolding(crate::specs::Reading::sized_at))]
pub fn take_sized(most: u32, bytes: &[u8]) -> Result<(&[u8], &[u8]), FieldFault>
    ensures { GivesField (λ b. b.now) result (sized_at most bytes.now) }
{
    let (count, rest) = take_u32_at_most(most, bytes)?;
    let (text, rest) = take_bytes(count as usize, rest)?;
    Ok((text, rest))
}

/// A flag.
#[tactic(auto, unfolding(crate::specs::Reading::one_of_at))]
pub fn take_flag(bytes: &[u8]) -> Result<(bool, &[u8]), FieldFault>
    ensures { GivesField (λ b. b) result (flag_at bytes.now) }
{
    match bytes {
        [0, rest @ ..] => Ok((false, rest)),
        [1, rest @ ..] => Ok((true, rest)),
        _ => Err(FieldFault::Bad { left: bytes.len() }),
    }
}

/// A flag, and a token where it is 1.
#[tactic(auto, unfolding(crate::specs::Reading::optional_at))]
pub fn take_token_or_none(bytes: &[u8]) -> Result<(Option<Token>, &[u8]), FieldFault>
    ensures { GivesField (λ t. t) result (optional_at token_at bytes.now) }
{
    let (there, rest) = take_flag(bytes)?;
    if there {
        let (token, rest) = take_token(rest)?;
        Ok((Some(token), rest))
    } else {
        Ok((None, rest))
    }
}

/// A flag, and this many bytes where it is 1.
#[tactic(auto, unfolding(crate::specs::Reading::optional_at))]
pub fn take_bytes_or_none(count: usize, bytes: &[u8]) -> Result<(Option<&[u8]>, &[u8]), FieldFault>
    ensures { GivesField (λ o. option_map (λ (b : Bor (List ℕ)). b.now) o) result
        (optional_at (bytes_at count) bytes.now) }
{
    let (there, rest) = take_flag(bytes)?;
    if there {
        let (text, rest) = take_bytes(count, rest)?;
        Ok((Some(text), rest))
    } else {
        Ok((None, rest))
    }
}
