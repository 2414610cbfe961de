//! The line of a reader's keys, by which an owner hands them to a user.
ghost use Rattle.std.specs.Prelude.{◌≡◌, ◌<◌, ℕ, List, ◌∷◌, ◌++◌, IfNone, IfOk, IfSome};
ghost use Rattle.std.specs.Prelude.{OnErr, OnOk};
ghost use Rattle.std.specs.Fmt.{decimal};
ghost use Rattle.hex.specs.Hex.{IsBytes, encode_lower};
ghost use Rattle.ov_base.specs.declared.limits.TheConstants.{MAX_LAYER_NODES};
ghost use Rattle.ov_keyfile.specs.KeyFile.{IsKeyLine};
ghost use Rattle.ov_client.specs.KeyLines.{HasNoSpace, IsLineOf, IsRoot, key_line, root_words};
ghost use Rattle.ov_client.specs.Readers.{Reader};

use crate::Client;
use hex::encode;
use itoa::Buffer;
use memchr::memchr;
use ov_base::limits::MAX_LAYER_NODES;
use ov_base::{Key, Memory, Name};
use ov_keyfile::{is_end, key_of};
use std::alloc::Global;

// The digits of a key.
const DIGITS: usize = 64;

/// What is before the first space, and behind it.
fn split(text: &[u8]) -> Option<(&[u8], &[u8])>
    ensures found { IfSome result (λ p. HasNoSpace p.0.now
        × (text.now ≡ p.0.now ++ 32 ∷ p.1.now)) }
    ensures none { IfNone result (HasNoSpace text.now) }
{
    match memchr(b' ', text) {
        Some(end) => {
            let (word, rest) = text.split_at(end);
            let (_, rest) = rest.split_at(1);
            Some((word, rest))
        }
        None => None,
    }
}

/// What follows a space.
fn behind_space(text: &[u8]) -> Option<&[u8]>
    ensures found { IfSome result (λ rest. text.now ≡ 32 ∷ rest.now) }
    ensures none { IfNone result ((rest : List ℕ) → text.now ≡ 32 ∷ rest → ⊥) }
{
    match text {
        [first, rest @ ..] if *first == b' ' => Some(rest),
        _ => None,
    }
}

/// The number of a root that is written so: in decimal and without leading zeros.
fn root_of(word: &str) -> Option<u32>
    ensures found { IfSome result (λ root. (root < MAX_LAYER_NODES) × (word.now ≡ decimal root)) }
    ensures none { IfNone result ((root : ℕ)
        → root < MAX_LAYER_NODES → word.now ≡ decimal root → ⊥) }
{
    match word.parse::<u32>() {
        Ok(root) => {
            // A sign or zeros in front are read too, and aren't printed again.
            let mut buffer = Buffer::new();
            let printed = buffer.format(root);
            if root < MAX_LAYER_NODES && printed == word {
                Some(root)
            } else {
                None
            }
        }
        Err(_) => None,
    }
}

/// A root's number from the bytes of a word, if they are the digits of one.
fn root_of_bytes(word: &[u8]) -> Option<u32>
    ensures found { IfSome result (λ root. (root < MAX_LAYER_NODES) × (word.now ≡ decimal root)) }
    ensures none { IfNone result ((root : ℕ)
        → root < MAX_LAYER_NODES → word.now ≡ decimal root → ⊥) }
{
    match str::from_utf8(word) {
        Ok(word) => root_of(word),
        Err(_) => None,
    }
}

/// A root's number and key, and what follows them.
fn root_and_key(text: &[u8]) -> Option<(u32, Key, &[u8])>
    ensures found { IfSome result (λ p. IsRoot text.now p.0 p.1.bytes p.2.now) }
    ensures none { IfNone result ((root : ℕ) (key rest : List ℕ)
        → IsRoot text.now root key rest → ⊥) }
{
    let (word, rest) = split(text)?;
    let root = root_of_bytes(word)?;
    let (digits, rest) = rest.split_at_checked(DIGITS)?;
    let key = key_of(digits)?;
    Some((root, key, rest))
}

/// Appends a root's number and key, each behind a space.
fn put_root(text: &mut Vec<u8>, alloc: Global, root: u32, key: &Key) -> Result<(), Memory>
    ensures { OnOk result (text.new.items ≡ text.old.items
        ++ root_words root (encode_lower key.now.bytes)) }
{
    let mut buffer = Buffer::new();
    let digits = encode(alloc, key.bytes.as_slice())?;
    text.push(b' ')?;
    text.extend_from_slice(buffer.format(root).as_bytes())?;
    text.push(b' ')?;
    text.extend_from_slice(digits.as_bytes())?;
    Ok(())
}

/// The items of a slice of bytes are bytes. The function does nothing.
fn known_bytes(bytes: &[u8])
    ensures { IsBytes bytes.now }
{}

/// The digits of a key are read as the key. The function does nothing.
fn has_digits(key: &[u8; 32])
    ensures { IsKeyLine (encode_lower key.now) key.now }
{
    known_bytes(key.as_slice());
}

impl Client {
    /// The line of the reader's keys.
    fn text(&self, alloc: Global) -> Result<Vec<u8>, Memory>
        ensures { IfOk result (λ text. text.items ≡ key_line self.now) }
    {
        let mut text = self.name.as_bytes().to_vec(alloc)?;
        put_root(&mut text, alloc, self.base_root, &self.base)?;
        put_root(&mut text, alloc, self.surface_root, &self.surface)?;
        text.push(b'\n')?;
        Ok(text)
    }

    /// The line of any reader is one. The function does nothing.
    fn has_line(&self)
        ensures { IsLineOf (key_line self.now) self.now }
    {
        let _name = self.name.as_bytes();
        has_digits(&self.base.bytes);
        has_digits(&self.surface.bytes);
    }

    /// Appends the line of the reader's keys, with its LF: name, number and key of the base root,
    /// number and key of the surface root. Whoever has it reads what this user may read.
    pub fn line(&self, out: &mut Vec<u8>) -> Result<(), Memory>
        ensures ok { OnOk result (out.new.items ≡ out.old.items ++ key_line self.now) }
        ensures err { OnErr result (out.new.items ≡ out.old.items) }
        ensures form { IsLineOf (key_line self.now) self.now }
    {
        self.has_line();
        let text = self.text(*out.allocator())?;
        Ok(out.extend_from_slice(&text)?)
    }

    /// The reader whose keys are in a line. The line may lack its LF.
    pub fn from_line(text: &[u8]) -> Option<Client>
        ensures found { IfSome result (IsLineOf text.now) }
        ensures none { IfNone result ((r : Reader) → IsLineOf text.now r → ⊥) }
    {
        let (word, rest) = split(text)?;
        let name = Name::read(word)?;
        let (base_root, base, rest) = root_and_key(rest)?;
        let rest = behind_space(rest)?;
        let (surface_root, surface, end) = root_and_key(rest)?;
        if is_end(end) {
            Some(Client::new(name, base_root, base, surface_root, surface))
        } else {
            None
        }
    }
}
