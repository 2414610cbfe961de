//! The fields of updates, in the lines that are printed.
use crate::texts::{put_bytes, put_name, put_number, put_word};
use ov_base::limits::MAX_USERS;
use ov_base::{Name, UserSet};
use ov_record::{Brief, Update};
use ov_tokens::{Token, Tokens};
use std::alloc::AllocError;

// Appends the numbers of a set's users.
fn put_users<const W: usize>(line: &mut String, users: &UserSet<W>) -> Result<(), AllocError> {
    put_word(line, "users")?;
    for user in 0..MAX_USERS {
        if users.contains(user) {
            put_number(line, u64::from(user))?;
        }
    }
    Ok(())
}

// Appends the tokens and the tag of a new file.
fn put_seal(line: &mut String, tokens: &Tokens, tag: &[u8; 32]) -> Result<(), AllocError> {
    put_word(line, "tokens")?;
    for token in tokens.as_slice() {
        put_bytes(line, &token.bytes)?;
    }
    put_word(line, "tag")?;
    put_bytes(line, tag)
}

// Appends a word and two numbers.
fn put_two(line: &mut String, word: &str, user: u32, file: u32) -> Result<(), AllocError> {
    put_word(line, word)?;
    put_number(line, u64::from(user))?;
    put_number(line, u64::from(file))
}

// Appends a grant.
fn put_grant(
    line: &mut String,
    user: u32,
    file: u32,
    token: &Option<Token>,
) -> Result<(), AllocError> {
    put_two(line, "grant", user, file)?;
    match token {
        Some(token) => put_bytes(line, &token.bytes),
        None => put_word(line, "-"),
    }
}

// Appends a removal.
fn put_removal(line: &mut String, file: u32) -> Result<(), AllocError> {
    put_word(line, "remove")?;
    put_number(line, u64::from(file))
}

// Appends a word and a name.
fn put_named(line: &mut String, word: &str, name: &Name) -> Result<(), AllocError> {
    put_word(line, word)?;
    put_name(line, name)
}

/// Appends an update.
pub fn put_update<const W: usize>(line: &mut String, update: &Update<W>) -> Result<(), AllocError> {
    match update {
        Update::Enrol { name } => put_named(line, "enrol", name),
        Update::Create {
            name,
            list,
            tokens,
            tag,
            bytes,
        } => {
            put_named(line, "create", name)?;
            put_users(line, list)?;
            put_seal(line, tokens, tag)?;
            put_word(line, "bytes")?;
            put_bytes(line, bytes.as_slice())
        }
        Update::Grant { user, file, token } => put_grant(line, *user, *file, token),
        Update::Revoke { user, file } => put_two(line, "revoke", *user, *file),
        Update::Remove { file } => put_removal(line, *file),
        Update::Replace {
            name,
            tokens,
            tag,
            bytes,
        } => {
            put_named(line, "replace", name)?;
            put_seal(line, tokens, tag)?;
            put_word(line, "bytes")?;
            put_bytes(line, bytes.as_slice())
        }
    }
}

/// Appends an update without the bytes of its file.
pub fn put_brief<const W: usize>(line: &mut String, brief: &Brief<W>) -> Result<(), AllocError> {
    match brief {
        Brief::Enrol { name } => put_named(line, "enrol", name),
        Brief::Create {
            name,
            list,
            tokens,
            tag,
            length,
        } => {
            put_named(line, "create", name)?;
            put_users(line, list)?;
            put_seal(line, tokens, tag)?;
            put_word(line, "length")?;
            put_number(line, u64::from(*length))
        }
        Brief::Grant { user, file, token } => put_grant(line, *user, *file, token),
        Brief::Revoke { user, file } => put_two(line, "revoke", *user, *file),
        Brief::Remove { file } => put_removal(line, *file),
        Brief::Replace {
            name,
            tokens,
            tag,
            length,
        } => {
            put_named(line, "replace", name)?;
            put_seal(line, tokens, tag)?;
            put_word(line, "length")?;
            put_number(line, u64::from(*length))
        }
    }
}
