//! The words of a line.
ghost use Rattle.std.specs.Prelude.{◌≡◌, ◌≤◌, ℕ, List, ◌∷◌, ◌++◌, IfSome, IfNone};
ghost use Rattle.std.specs.Fmt.{decimal};
ghost use Rattle.ov_base.specs.declared.limits.TheConstants.{MAX_FILE_BYTES};
ghost use Rattle.ov_base.specs.Names.{IsName};
ghost use Rattle.ov_script.specs.LineFeeds.{Lacks};

use crate::front::Front;
use memchr::memchr;
use ov_base::Name;

/// What is before the first such byte, and behind it.
pub fn split(text: &[u8], byte: u8) -> Option<(&[u8], &[u8])>
    ensures found { IfSome result (λ p. Lacks byte p.0.now
        × (text.now ≡ p.0.now ++ byte ∷ p.1.now)) }
    ensures none { IfNone result (Lacks byte text.now) }
{
    match memchr(byte, text) {
        Some(end) => {
            let (word, rest) = text.split_at(end);
            let (_, rest) = rest.split_at(1);
            Some((word, rest))
        }
        None => None,
    }
}

/// Two names with a space between them.
pub fn two_names(text: &[u8]) -> Option<(Name, Name)>
    ensures found { IfSome result (λ p. IsName p.0 × IsName p.1 × (text.now ≡ p.0 ++ 32 ∷ p.1)) }
    ensures none { IfNone result ((a b : List ℕ) → IsName a → IsName b
        → text.now ≡ a ++ 32 ∷ b → ⊥) }
{
    let (first, second) = split(text, b' ')?;
    let first = Name::read(first)?;
    let second = Name::read(second)?;
    Some((first, second))
}

/// The size that these digits say.
pub fn size_of_digits(digits: &[u8]) -> Option<usize>
    ensures found { IfSome result (λ size. (size ≤ MAX_FILE_BYTES) × (digits.now ≡ decimal size)) }
    ensures none { IfNone result ((size : ℕ)
        → size ≤ MAX_FILE_BYTES → digits.now ≡ decimal size → ⊥) }
{
    match Front::InSize(None).run(digits).size() {
        Some(size) => Some(size as usize),
        None => None,
    }
}
