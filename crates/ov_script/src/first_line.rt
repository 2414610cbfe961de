//! What the first line of an item says.
ghost use Rattle.std.specs.Prelude.{◌≡◌, ◌≤◌, ◌<◌, ℕ, List, [], ◌∷◌, ◌++◌, length, codes, IfSome, IfNone, IfOk};
ghost use Rattle.std.specs.Fmt.{decimal};
ghost use Rattle.ov_base.specs.declared.limits.TheConstants.{MAX_FILE_BYTES, MAX_LINE_BYTES};
ghost use Rattle.ov_base.specs.Names.{IsName};
ghost use Rattle.ov_script.specs.declared.command.Command.{Command};
ghost use Rattle.ov_script.specs.declared.first_line.FirstLine.{FirstLine};
ghost use Rattle.ov_script.specs.declared.first_line.Head.{Head};
ghost use Rattle.ov_script.specs.ItemLines.{SaysWhole, SaysCreate, SaysReplace, SaysHead, SaysLine, with_body};
ghost use Rattle.ov_script.specs.Items.{spaced};
ghost use Rattle.ov_script.specs.LineFeeds.{Lacks};

use crate::command::Command;
use crate::list::list_of;
use crate::words::{size_of_digits, split, two_names};
use ov_base::limits::MAX_LINE_BYTES;
use ov_base::{Memory, Name, Names, Octets};
use std::alloc::Global;

/// What the first line of an item says.
#[derive(Drop)]
pub enum FirstLine {
    /// The whole item.
    Whole(Command),
    /// A command whose line has this many bytes and one LF behind it.
    WithBody { head: Head, size: usize },
}

/// The command of an item with a body, but for the body.
#[derive(Drop)]
pub enum Head {
    /// A `create`.
    Creation { file: Name, list: Names },
    /// A `replace`.
    Replacement { file: Name },
}

impl Head {
    /// The command with this body.
    pub fn with_body(self, bytes: Octets) -> Command
        ensures { result ≡ with_body self bytes }
    {
        match self {
            Head::Creation { file, list } => Command::Create { file, list, bytes },
            Head::Replacement { file } => Command::Replace { file, bytes },
        }
    }
}

// What follows the word.
fn behind<'a>(line: &'a [u8], word: &[u8]) -> Option<&'a [u8]>
    ensures found { IfSome result (λ rest. line.now ≡ word.now ++ rest.now) }
    ensures none { IfNone result ((rest : List ℕ) → line.now ≡ word.now ++ rest → ⊥) }
{
    line.strip_prefix(word)
}

fn enrol(line: &[u8]) -> Option<Command>
    ensures found { IfSome result (SaysWhole line.now) }
    ensures none { IfNone result ((user : List ℕ) → SaysWhole line.now (Command.Enrol user) → ⊥) }
{
    let user = Name::read(behind(line, b"enrol ")?)?;
    Some(Command::Enrol { user })
}

fn grant(line: &[u8]) -> Option<Command>
    ensures found { IfSome result (SaysWhole line.now) }
    ensures none { IfNone result ((user file : List ℕ)
        → SaysWhole line.now (Command.Grant user file) → ⊥) }
{
    let (user, file) = two_names(behind(line, b"grant ")?)?;
    Some(Command::Grant { user, file })
}

fn revoke(line: &[u8]) -> Option<Command>
    ensures found { IfSome result (SaysWhole line.now) }
    ensures none { IfNone result ((user file : List ℕ)
        → SaysWhole line.now (Command.Revoke user file) → ⊥) }
{
    let (user, file) = two_names(behind(line, b"revoke ")?)?;
    Some(Command::Revoke { user, file })
}

fn remove(line: &[u8]) -> Option<Command>
    ensures found { IfSome result (SaysWhole line.now) }
    ensures none { IfNone result ((file : List ℕ) → SaysWhole line.now (Command.Remove file) → ⊥) }
{
    let file = Name::read(behind(line, b"remove ")?)?;
    Some(Command::Remove { file })
}

fn read(line: &[u8]) -> Option<Command>
    ensures found { IfSome result (SaysWhole line.now) }
    ensures none { IfNone result ((user file : List ℕ)
        → SaysWhole line.now (Command.Read user file) → ⊥) }
{
    let (user, file) = two_names(behind(line, b"read ")?)?;
    Some(Command::Read { user, file })
}

fn list(line: &[u8]) -> Option<Command>
    ensures found { IfSome result (SaysWhole line.now) }
    ensures none { IfNone result ((file : List ℕ) → SaysWhole line.now (Command.List file) → ⊥) }
{
    let file = Name::read(behind(line, b"list ")?)?;
    Some(Command::List { file })
}

fn epoch(line: &[u8]) -> Option<Command>
    ensures found { IfSome result (SaysWhole line.now) }
    ensures none { IfNone result (SaysWhole line.now Command.Epoch → ⊥) }
{
    if line == b"epoch".as_slice() {
        Some(Command::Epoch)
    } else {
        None
    }
}

// The command of a line that is a whole item.
fn command(line: &[u8]) -> Option<Command>
    ensures found { IfSome result (SaysWhole line.now) }
    ensures none { IfNone result ((command : Command) → SaysWhole line.now command → ⊥) }
{
    if let Some(command) = enrol(line) {
        return Some(command);
    }
    if let Some(command) = grant(line) {
        return Some(command);
    }
    if let Some(command) = revoke(line) {
        return Some(command);
    }
    if let Some(command) = remove(line) {
        return Some(command);
    }
    if let Some(command) = read(line) {
        return Some(command);
    }
    if let Some(command) = list(line) {
        return Some(command);
    }
    epoch(line)
}

// The file, the list's text and the size of a `create`.
fn create_words(line: &[u8]) -> Option<(Name, &[u8], usize)>
    ensures found { IfSome result (λ p. IsName p.0 × Lacks 32 p.1.now × (p.2 ≤ MAX_FILE_BYTES)
        × (line.now ≡ spaced (codes "create" ∷ p.0 ∷ p.1.now ∷ decimal p.2 ∷ []))) }
    ensures none { IfNone result ((file list : List ℕ) (size : ℕ)
        → IsName file → Lacks 32 list → size ≤ MAX_FILE_BYTES
        → line.now ≡ spaced (codes "create" ∷ file ∷ list ∷ decimal size ∷ []) → ⊥) }
{
    let (file, rest) = split(behind(line, b"create ")?, b' ')?;
    let (list, digits) = split(rest, b' ')?;
    Some((Name::read(file)?, list, size_of_digits(digits)?))
}

fn create(line: &[u8], alloc: Global) -> Result<Option<FirstLine>, Memory>
    ensures found { IfOk result (λ found. IfSome found (SaysLine line.now)) }
    ensures none { IfOk result (λ found. IfNone found
        ((file : List ℕ) (names : List (List ℕ)) (size : ℕ)
        → SaysCreate line.now file names size → ⊥)) }
{
    if line.len() >= MAX_LINE_BYTES {
        return Ok(None);
    }
    match create_words(line) {
        Some((file, list, size)) => match list_of(alloc, list)? {
            Some(list) => Ok(Some(FirstLine::WithBody {
                head: Head::Creation { file, list },
                size,
            })),
            None => Ok(None),
        },
        None => Ok(None),
    }
}

fn replace(line: &[u8]) -> Option<FirstLine>
    ensures found { IfSome result (SaysLine line.now) }
    ensures none { IfNone result ((file : List ℕ) (size : ℕ)
        → SaysReplace line.now file size → ⊥) }
{
    let (file, digits) = split(behind(line, b"replace ")?, b' ')?;
    Some(FirstLine::WithBody {
        head: Head::Replacement {
            file: Name::read(file)?,
        },
        size: size_of_digits(digits)?,
    })
}

// What a line says that has a body behind it.
fn headed(line: &[u8], alloc: Global) -> Result<Option<FirstLine>, Memory>
    ensures found { IfOk result (λ found. IfSome found (SaysLine line.now)) }
    ensures none { IfOk result (λ found. IfNone found
        ((head : Head) (size : ℕ) → SaysHead line.now head size → ⊥)) }
{
    match replace(line) {
        Some(said) => Ok(Some(said)),
        None => create(line, alloc),
    }
}

/// What a line says, which is given without its LF.
pub fn read_line(line: &[u8], alloc: Global) -> Result<Option<FirstLine>, Memory>
    ensures found { IfOk result (λ found. IfSome found (SaysLine line.now)) }
    ensures none { IfOk result (λ found. IfNone found
        ((said : FirstLine) → SaysLine line.now said → ⊥)) }
{
    match command(line) {
        Some(command) => Ok(Some(FirstLine::Whole(command))),
        None => headed(line, alloc),
    }
}
