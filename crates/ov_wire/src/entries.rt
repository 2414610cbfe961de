//! Catalogue entries in frames: where one ends, or what is wrong with it.

ghost use Rattle.std.specs.Prelude.{◌≡◌, ◌≤◌};
ghost use Rattle.ov_base.specs.declared.limits.TheConstants.{MAX_USERS};
ghost use Rattle.ov_fields.specs.Answers.{Gives, GivesField, left_of};
ghost use Rattle.ov_fields.specs.Reading.{at_most, byte_at, counted_at, making, many_at, optional_at, rest_of, spanned};
ghost use Rattle.ov_wire.specs.AnswerReading.{entry_or_none_at};
ghost use Rattle.ov_wire.specs.Entries.{access, access_entry_at, edge_at, entry_at, file, file_entry_at, file_or_gone_at, node, node_at, node_entry_at, user, user_entry_at};

use ov_base::Octets;
use ov_base::limits::{MAX_FILE_BYTES, MAX_LAYER_NODES, MAX_USERS, SET_BYTES};
use ov_fields::{
    FieldFault, take_bytes, take_flag, take_name, take_token, take_u16_at_most, take_u32,
    take_u32_at_most, take_u32_below,
};
use std::alloc::Global;

/// The bytes after a user's entry.
fn skip_user(bytes: &[u8]) -> Result<&[u8], FieldFault>
    ensures { Gives left_of (λ r. r.now) result (rest_of (making user user_entry_at bytes.now)) }
{
    let (_, rest) = take_name(bytes)?;
    let (_, rest) = take_u32_below(MAX_LAYER_NODES, rest)?;
    let (_, rest) = take_u32_below(MAX_LAYER_NODES, rest)?;
    Ok(rest)
}

/// The bytes after an edge.
fn skip_edge(bytes: &[u8]) -> Result<&[u8], FieldFault>
    ensures { Gives left_of (λ r. r.now) result (rest_of (edge_at bytes.now)) }
{
    let (_, rest) = take_u32_below(MAX_LAYER_NODES, bytes)?;
    let (_, rest) = take_token(rest)?;
    Ok(rest)
}

/// The bytes after this many edges.
fn skip_each_edge(count: u16, bytes: &[u8]) -> Result<&[u8], FieldFault>
    ensures { Gives left_of (λ r. r.now) result (rest_of (many_at edge_at count bytes.now)) }
{
    let mut rest = bytes;
    for _ in 0..count {
        rest = skip_edge(rest)?;
    }
    Ok(rest)
}

/// The bytes after edges behind their number.
#[tactic(auto, unfolding(ov_fields::specs::Reading::counted_at))]
fn skip_edges(bytes: &[u8]) -> Result<&[u8], FieldFault>
    ensures { Gives left_of (λ r. r.now) result (rest_of (counted_at MAX_USERS edge_at bytes.now)) }
{
    let (count, rest) = take_u16_at_most(MAX_USERS as u16, bytes)?;
    let rest = skip_each_edge(count, rest)?;
    Ok(rest)
}

/// The bytes after a node's entry.
fn skip_node(bytes: &[u8]) -> Result<&[u8], FieldFault>
    ensures { Gives left_of (λ r. r.now) result (rest_of (making node node_entry_at bytes.now)) }
{
    let (_, rest) = take_bytes(SET_BYTES, bytes)?;
    skip_edges(rest)
}

/// The bytes after the entry of an access token.
fn skip_access(bytes: &[u8]) -> Result<&[u8], FieldFault>
    ensures { Gives left_of (λ r. r.now) result
        (rest_of (making access access_entry_at bytes.now)) }
{
    let (_, rest) = take_u32_below(MAX_USERS, bytes)?;
    let (_, rest) = take_u32_below(MAX_LAYER_NODES, rest)?;
    let (_, rest) = take_token(rest)?;
    Ok(rest)
}

/// A flag, and a node where it is 1.
#[tactic(auto, unfolding(ov_fields::specs::Reading::optional_at))]
fn take_node_or_none(bytes: &[u8]) -> Result<(Option<u32>, &[u8]), FieldFault>
    ensures { GivesField (λ n. n) result (optional_at node_at bytes.now) }
{
    let (there, rest) = take_flag(bytes)?;
    if there {
        let (node, rest) = take_u32_below(MAX_LAYER_NODES, rest)?;
        Ok((Some(node), rest))
    } else {
        Ok((None, rest))
    }
}

/// The bytes after the fields of a file.
fn skip_file(bytes: &[u8]) -> Result<&[u8], FieldFault>
    ensures { Gives left_of (λ r. r.now) result (rest_of (making file file_entry_at bytes.now)) }
{
    let (_, rest) = take_name(bytes)?;
    let (_, rest) = take_u32_below(MAX_LAYER_NODES, rest)?;
    let (_, rest) = take_u32_at_most(MAX_FILE_BYTES, rest)?;
    let (_, rest) = take_u32(rest)?;
    let (_, rest) = take_bytes(32, rest)?;
    let (_, rest) = take_node_or_none(rest)?;
    Ok(rest)
}

/// The bytes after a file's entry, which is the byte 0 where the file is gone: no name has that
/// length.
#[tactic(auto, unfolding(crate::specs::Entries::file_or_gone_at))]
fn skip_file_or_gone(bytes: &[u8]) -> Result<&[u8], FieldFault>
    ensures { Gives left_of (λ r. r.now) result (rest_of (file_or_gone_at bytes.now)) }
{
    match bytes {
        [0, rest @ ..] => Ok(rest),
        _ => skip_file(bytes),
    }
}

/// The bytes after an entry of this part.
#[tactic(auto, unfolding(crate::specs::Entries::entry_at))]
fn skip_entry(part: u8, bytes: &[u8]) -> Result<&[u8], FieldFault>
    requires { (1 ≤ part) × (part ≤ 5) }
    ensures { Gives left_of (λ r. r.now) result (rest_of (entry_at part bytes.now)) }
{
    match part {
        1 => skip_user(bytes),
        2 | 3 => skip_node(bytes),
        4 => skip_access(bytes),
        _ => skip_file_or_gone(bytes),
    }
}

/// An entry of this part, as it stands.
fn take_entry(part: u8, bytes: &[u8]) -> Result<(&[u8], &[u8]), FieldFault>
    requires { (1 ≤ part) × (part ≤ 5) }
    ensures { GivesField (λ e. e.now) result (spanned (entry_at part) bytes.now) }
{
    let rest = skip_entry(part, bytes)?;
    let (entry, rest) = bytes.split_at(bytes.len() - rest.len());
    Ok((entry, rest))
}

/// A flag, and an entry of a part that there is where it is 1.
#[tactic(auto, unfolding(ov_fields::specs::Reading::optional_at))]
fn take_some_entry(
    alloc: Global,
    part: u8,
    bytes: &[u8],
) -> Result<(Option<Octets>, &[u8]), FieldFault>
    requires { (1 ≤ part) × (part ≤ 5) }
    ensures { GivesField (λ e. e) result (optional_at (spanned (entry_at part)) bytes.now) }
{
    let (there, rest) = take_flag(bytes)?;
    if there {
        let (entry, rest) = take_entry(part, rest)?;
        let entry = Octets::copy(alloc, entry)?;
        Ok((Some(entry), rest))
    } else {
        Ok((None, rest))
    }
}

/// A flag that is 0.
#[tactic(auto, unfolding(ov_fields::specs::Reading::byte_at))]
fn take_no_entry(bytes: &[u8]) -> Result<(Option<Octets>, &[u8]), FieldFault>
    ensures { GivesField (λ e. e) result (making (λ b. None) (byte_at (at_most 0)) bytes.now) }
{
    match bytes {
        [0, rest @ ..] => Ok((None, rest)),
        _ => Err(FieldFault::Bad { left: bytes.len() }),
    }
}

/// A flag, and an entry of this part where it is 1.
pub fn take_entry_or_none(
    alloc: Global,
    part: u8,
    bytes: &[u8],
) -> Result<(Option<Octets>, &[u8]), FieldFault>
    ensures { GivesField (λ e. e) result (entry_or_none_at part bytes.now) }
{
    if 1 <= part && part <= 5 {
        take_some_entry(alloc, part, bytes)
    } else {
        take_no_entry(bytes)
    }
}
