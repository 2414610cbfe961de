//! Lists of names, as a line has them.
ghost use Rattle.std.specs.Prelude.{◌≡◌, ℕ, List, ◌∷◌, IfOk, IfSome, IfNone, MatchBool};
ghost use Rattle.ov_base.specs.NameLists.{with_name};
ghost use Rattle.ov_base.specs.Names.{IsName};
ghost use Rattle.ov_script.specs.WrittenLists.{AreNames, IsList, list_text};

use crate::words::split;
use ov_base::{Memory, Name, Names};
use std::alloc::Global;

// Appends the name of these bytes where it isn't there yet, and says whether they are a name.
fn insert(names: &mut Names, text: &[u8]) -> Result<bool, Memory>
    ensures { IfOk result (λ is_name. MatchBool is_name
        (IsName text.now × (names.new ≡ with_name names.old text.now))
        (IsName text.now → ⊥)) }
{
    match Name::read(text) {
        Some(name) => {
            names.insert(name)?;
            Ok(true)
        }
        None => Ok(false),
    }
}

// The names of a text that has one at least, with a comma between two of them.
fn joined_names(text: &[u8], alloc: Global) -> Result<Option<Names>, Memory>
    ensures found { IfOk result (λ found. IfSome found (IsList text.now)) }
    ensures none { IfOk result (λ found. IfNone found ((name : List ℕ) (names : List (List ℕ))
        → AreNames (name ∷ names) → text.now ≡ list_text (name ∷ names) → ⊥)) }
{
    let mut names = Names::new(alloc);
    let mut rest = text;
    'names: loop {
        match split(rest, b',') {
            Some((name, more)) => {
                if !insert(&mut names, name)? {
                    return Ok(None);
                }
                rest = more;
            }
            None => {
                if !insert(&mut names, rest)? {
                    return Ok(None);
                }
                return Ok(Some(names));
            }
        }
    }
}

/// The names of a list, each once.
pub fn list_of(alloc: Global, text: &[u8]) -> Result<Option<Names>, Memory>
    ensures found { IfOk result (λ found. IfSome found (IsList text.now)) }
    ensures none { IfOk result (λ found. IfNone found
        ((names : List (List ℕ)) → IsList text.now names → ⊥)) }
{
    if text == b"-".as_slice() {
        Ok(Some(Names::new(alloc)))
    } else {
        joined_names(text, alloc)
    }
}
