//! The spelling of an update in a frame: where it ends, or what is wrong with it.

ghost use Rattle.std.specs.Prelude.{◌≡◌};
ghost use Rattle.ov_base.specs.declared.limits.TheConstants.{MAX_USERS};
ghost use Rattle.ov_fields.specs.Answers.{Gives, GivesField, left_of};
ghost use Rattle.ov_fields.specs.Reading.{made, rest_of};
ghost use Rattle.ov_wire.specs.RequestReading.{spelling_at};
ghost use Rattle.ov_wire.specs.Updates.{creation_at, fields_at, grant_at, replacement_at, revocation_at, tokens_at};

use ov_base::limits::{MAX_FILE_BYTES, MAX_USERS, SET_BYTES};
use ov_fields::{
    FieldFault, take_bytes, take_bytes_or_none, take_name, take_sized, take_u16_at_most, take_u32,
};

/// Tokens behind their number, as they are.
#[tactic(auto, unfolding(crate::specs::Updates::tokens_at))]
fn take_tokens(bytes: &[u8]) -> Result<(&[u8], &[u8]), FieldFault>
    ensures { GivesField (λ t. t.now) result (tokens_at MAX_USERS bytes.now) }
{
    let (count, rest) = take_u16_at_most(MAX_USERS as u16, bytes)?;
    let (tokens, rest) = take_bytes(32 * count as usize, rest)?;
    Ok((tokens, rest))
}

/// The bytes after the fields of a creation.
fn skip_creation(bytes: &[u8]) -> Result<&[u8], FieldFault>
    ensures { Gives left_of (λ r. r.now) result (rest_of (creation_at bytes.now)) }
{
    let (_, rest) = take_name(bytes)?;
    let (_, rest) = take_bytes(SET_BYTES, rest)?;
    let (_, rest) = take_tokens(rest)?;
    let (_, rest) = take_bytes(32, rest)?;
    let (_, rest) = take_sized(MAX_FILE_BYTES, rest)?;
    Ok(rest)
}

/// The bytes after the fields of a grant.
fn skip_grant(bytes: &[u8]) -> Result<&[u8], FieldFault>
    ensures { Gives left_of (λ r. r.now) result (rest_of (grant_at bytes.now)) }
{
    let (_, rest) = take_u32(bytes)?;
    let (_, rest) = take_u32(rest)?;
    let (_, rest) = take_bytes_or_none(32, rest)?;
    Ok(rest)
}

/// The bytes after the fields of a revocation.
fn skip_revocation(bytes: &[u8]) -> Result<&[u8], FieldFault>
    ensures { Gives left_of (λ r. r.now) result (rest_of (revocation_at bytes.now)) }
{
    let (_, rest) = take_u32(bytes)?;
    let (_, rest) = take_u32(rest)?;
    Ok(rest)
}

/// The bytes after the fields of a replacement.
fn skip_replacement(bytes: &[u8]) -> Result<&[u8], FieldFault>
    ensures { Gives left_of (λ r. r.now) result (rest_of (replacement_at bytes.now)) }
{
    let (_, rest) = take_name(bytes)?;
    let (_, rest) = take_tokens(rest)?;
    let (_, rest) = take_bytes(32, rest)?;
    let (_, rest) = take_sized(MAX_FILE_BYTES, rest)?;
    Ok(rest)
}

/// The bytes after an update's spelling.
#[tactic(auto, unfolding(crate::specs::Updates::fields_at))]
fn skip_update(bytes: &[u8]) -> Result<&[u8], FieldFault>
    ensures { Gives left_of (λ r. r.now) result (rest_of (fields_at bytes.now)) }
{
    match bytes {
        [1, rest @ ..] => {
            let (_, rest) = take_name(rest)?;
            Ok(rest)
        }
        [2, rest @ ..] => skip_creation(rest),
        [3, rest @ ..] => skip_grant(rest),
        [4, rest @ ..] => skip_revocation(rest),
        [6, rest @ ..] => {
            let (_, rest) = take_u32(rest)?;
            Ok(rest)
        }
        [7, rest @ ..] => skip_replacement(rest),
        _ => Err(FieldFault::Bad { left: bytes.len() }),
    }
}

/// The spelling of an update, as it stands.
pub fn take_spelling(bytes: &[u8]) -> Result<(&[u8], &[u8]), FieldFault>
    ensures { GivesField (λ s. s.now) result (spelling_at bytes.now) }
{
    let rest = skip_update(bytes)?;
    let (spelling, rest) = bytes.split_at(bytes.len() - rest.len());
    Ok((spelling, rest))
}
