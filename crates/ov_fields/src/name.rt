//! Reading names.

ghost use Rattle.std.specs.Prelude.{◌≡◌, ◌<◌, take};
ghost use Rattle.ov_base.specs.declared.limits.TheConstants.{MAX_NAME_BYTES};
ghost use Rattle.ov_base.specs.Names.{is_letter_or_digit, is_name_byte};
ghost use Rattle.ov_fields.specs.Answers.{Gives, GivesField, left_of};
ghost use Rattle.ov_fields.specs.Reading.{byte_at, many_at, name_at, text_at};

use crate::FieldFault;
use crate::reading::take_byte;
use ov_base::limits::MAX_NAME_BYTES;
use ov_base::{Name, is_letter_or_digit, is_name_byte};

#[tactic(auto, unfolding(crate::specs::Reading::byte_at))]
fn take_first(bytes: &[u8]) -> Result<(u8, &[u8]), FieldFault>
    ensures { GivesField (λ b. b) result (byte_at is_letter_or_digit bytes.now) }
{
    match bytes {
        [byte, rest @ ..] if is_letter_or_digit(*byte) => Ok((*byte, rest)),
        _ => Err(FieldFault::Bad { left: bytes.len() }),
    }
}

#[tactic(auto, unfolding(crate::specs::Reading::byte_at))]
fn take_other(bytes: &[u8]) -> Result<(u8, &[u8]), FieldFault>
    ensures { GivesField (λ b. b) result (byte_at is_name_byte bytes.now) }
{
    match bytes {
        [byte, rest @ ..] if is_name_byte(*byte) => Ok((*byte, rest)),
        _ => Err(FieldFault::Bad { left: bytes.len() }),
    }
}

/// Takes `count` bytes that a name may have, and gives them and the bytes after them.
fn take_others(count: u8, bytes: &[u8]) -> Result<(&[u8], &[u8]), FieldFault>
    ensures { GivesField (λ b. b.now) result (many_at (byte_at is_name_byte) count bytes.now) }
{
    let mut rest = bytes;
    for _ in 0..count {
        let (_, after) = take_other(rest)?;
        rest = after;
    }
    let (text, after) = bytes.split_at(count as usize);
    Ok((text, after))
}

/// A name of this many bytes and one more.
fn take_text(more: u8, bytes: &[u8]) -> Result<(Name, &[u8]), FieldFault>
    requires { more < MAX_NAME_BYTES }
    ensures { GivesField (λ n. n) result (text_at more bytes.now) }
{
    let (_, rest) = take_first(bytes)?;
    let (_, rest) = take_others(more, rest)?;
    let (text, _) = bytes.split_at(more as usize + 1);
    match Name::read(text) {
        Some(name) => Ok((name, rest)),
        None => unreachable!(),
    }
}

/// A name behind its length.
#[tactic(auto, unfolding(crate::specs::Reading::name_at))]
pub fn take_name(bytes: &[u8]) -> Result<(Name, &[u8]), FieldFault>
    ensures { GivesField (λ n. n) result (name_at bytes.now) }
{
    let (count, rest) = take_byte(1, MAX_NAME_BYTES as u8, bytes)?;
    let (name, rest) = take_text(count - 1, rest)?;
    Ok((name, rest))
}
