//! Tokens: how a key leads to the key of a label.

ghost use Rattle.std.specs.Prelude.{◌≡◌, ℕ, List, length};
ghost use Rattle.ov_tokens.specs.Keys.{derived_key, token_of, TokensLeadBack};
ghost use Rattle.ov_tokens.specs.Xor.{xored};

use crate::Label;
use ov_base::Key;
use ov_keyed::mac;

/// What leads from a key to a label: the label's key XORed with the keyed hash of the label under
/// the first key. It need not be kept secret.
#[derive(Clone, Copy, Debug, PartialEq, Eq)]
pub struct Token {
    pub bytes: [u8; 32],
}

fn xor(bytes: &[u8; 32], others: &[u8; 32]) -> [u8; 32]
    ensures { result ≡ xored bytes.now others.now }
{
    let mut both = *bytes;
    for i in 0..32usize {
        both[i] ^= others[i];
    }
    both
}

/// The token from the key `from` to the label `to`, whose key is `to_key`.
pub fn make(from: &Key, to: Label, to_key: &Key) -> Token
    ensures { result.bytes ≡ token_of from.now.bytes to to_key.now.bytes }
{
    Token {
        bytes: xor(&to_key.bytes, &mac(&from.bytes, &to.bytes(), b"")),
    }
}

/// The key of the label `to`, by the token that leads to it from the key `from`.
pub fn derive(from: &Key, to: Label, token: &Token) -> Key
    ensures key { result.bytes ≡ derived_key from.now.bytes to token.now.bytes }
    ensures leads_back { (key : List ℕ)
        → length key ≡ 32
        → token.now.bytes ≡ token_of from.now.bytes to key
        → result.bytes ≡ key }
{
    Key {
        bytes: xor(&token.bytes, &mac(&from.bytes, &to.bytes(), b"")),
    }
}

/// The law of tokens: `derive(k, l, make(k, l, j)) = j`, of any two keys and any label.
pub fn tokens_lead_back()
    ensures { TokensLeadBack }
{}
