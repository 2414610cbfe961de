//! Names of users and files.
ghost use Rattle.std.specs.Prelude.{◌≡◌, ◌≤◌, ◌↔◌, ℕ, List, take, IsSome, IfSome};
ghost use Rattle.std.specs.Cmp.{partial_equiv_from_equiv};
ghost use Rattle.std.specs.Cmp.Lexicographic.{nat_list_eq_equiv};
ghost use Rattle.std.specs.Hash as fed;
ghost use Rattle.std.specs.List.{list_all};
ghost use Rattle.std.specs.Str.{bytes_eq};
ghost use Rattle.std.proofs.Common.{ap};
ghost use Rattle.std.proofs.lemmas.Slice.Eq.{bytes_eq-Decides};
ghost use Rattle.ov_base.specs.declared.limits.TheConstants.{MAX_NAME_BYTES};
ghost use Rattle.ov_base.specs.Names.{is_letter_or_digit, is_name_byte, is_name, IsName};

use crate::limits::MAX_NAME_BYTES;
use std::hash::{Hash, Hasher};
use std::marker::Model;

/// A name: at least one byte and at most 64, each in `a-z` or `0-9`, or one of `.`, `_` and `-`;
/// the first is a letter or a digit.
///
/// It is kept in place, so making, copying and reading one takes no memory.
#[derive(Drop)]
pub struct Name {
    bytes: [u8; MAX_NAME_BYTES],
    len: usize,
}

impl Model for Name {
    ghost Value = { List ℕ };

    ghost view = { λ n. take n.len n.bytes };

    ghost invariant = { λ n. (n.len ≤ MAX_NAME_BYTES) × IsName (take n.len n.bytes) };
}

/// Whether the byte is a letter `a-z` or a digit: a name begins with one.
pub fn is_letter_or_digit(byte: u8) -> bool
    ensures { result ≡ is_letter_or_digit byte }
{
    byte.is_ascii_lowercase() || byte.is_ascii_digit()
}

/// Whether the byte is a letter, a digit, `.`, `_` or `-`: a name may have it anywhere but first.
pub fn is_name_byte(byte: u8) -> bool
    ensures { result ≡ is_name_byte byte }
{
    is_letter_or_digit(byte) || byte == b'.' || byte == b'_' || byte == b'-'
}

fn are_name_bytes(bytes: &[u8]) -> bool
    ensures { result ≡ list_all is_name_byte bytes.now }
{
    bytes.iter().all(|byte| is_name_byte(*byte))
}

fn is_name(text: &[u8]) -> bool
    ensures { result ≡ is_name text.now }
{
    match text {
        [] => false,
        [first, rest @ ..] => {
            is_letter_or_digit(*first) && rest.len() < MAX_NAME_BYTES && are_name_bytes(rest)
        }
    }
}

impl Name {
    /// The name of these bytes.
    pub fn read(text: &[u8]) -> Option<Name>
        ensures form { IsSome result ↔ IsName text.now }
        ensures bytes { IfSome result (λ name. name ≡ text.now) }
    {
        if !is_name(text) {
            return None;
        }
        let len = text.len();
        let mut bytes = [0; MAX_NAME_BYTES];
        bytes[..len].copy_from_slice(text);
        Some(Name { bytes, len })
    }

    /// The bytes of a name.
    pub fn as_bytes(&self) -> &[u8]
        ensures bytes { result.now ≡ self.now }
        ensures form { IsName self.now }
    {
        &self.bytes[..self.len]
    }

    /// An equal name.
    pub fn copy(&self) -> Name
        ensures { result ≡ self.now }
    {
        Name {
            bytes: self.bytes,
            len: self.len,
        }
    }
}

// Two names are equal where their bytes are.
impl PartialEq for Name {
    ghost eq = { bytes_eq };

    ghost laws = { partial_equiv_from_equiv nat_list_eq_equiv };

    fn eq(&self, other: &Name) -> bool {
        self.as_bytes() == other.as_bytes()
    }
}

impl Eq for Name {
    ghost laws = { nat_list_eq_equiv };
}

impl Hash for Name {
    ghost hash_input = { fed.slice fed.u8 };

    ghost respects_eq = { λ a b same. ap (fed.slice fed.u8) ((bytes_eq-Decides a b).0 same) };

    fn hash<H: Hasher>(&self, state: &mut H) {
        self.as_bytes().hash(state);
    }
}
