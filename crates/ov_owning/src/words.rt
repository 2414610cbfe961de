//! The words of `own`, taken apart: behind the book and the mode stands the line of an update, as a
//! job has it without address and keys, or the word `resume`.
ghost use Rattle.std.specs.Prelude.{◌≡◌, ◌⊎◌, ◌∷◌, [], List, ℕ, IfErr, IfNone, IfOk, IfSome, codes, false, map, string_bytes};
ghost use Rattle.ov_acts.specs.Words.{IsActLine, has_option};
ghost use Rattle.ov_base.specs.Modes.{mode_word};
ghost use Rattle.ov_base.specs.declared.mode.Mode.{Mode as ItsMode};
ghost use Rattle.ov_owning.specs.Words.{IsNoOwnLine, IsNoOwnTail, IsOwnLine, IsOwnTail, IsUpdate, IsUpdateTail};
ghost use Rattle.ov_owning.specs.declared.job.OwnAct.{OwnAct as OwnValue};

use crate::job::{OwnAct, OwnJob};
use ov_acts::{Act, Taken, act_of, has_option};
use ov_base::{Memory, Mode, Octets};
use std::alloc::Global;

/// The mode of this word.
fn mode_of(word: &str) -> Option<Mode>
    ensures found { IfSome result (λ mode. word.now ≡ mode_word mode) }
    ensures none { IfNone result ((mode : ItsMode) → word.now ≡ mode_word mode → ⊥) }
{
    match word {
        "full" => Some(Mode::Full),
        "delta" => Some(Mode::Delta),
        _ => None,
    }
}

/// The act by the book that is this one, where it is an update.
fn update_of(act: Act) -> Option<OwnAct>
    ensures found { IfSome result (IsUpdate act) }
    ensures none { IfNone result ((own : OwnValue) → IsUpdate act own → ⊥) }
{
    match act {
        Act::Enrol { user } => Some(OwnAct::Enrol { user }),
        Act::Grant { user, file } => Some(OwnAct::Grant { user, file }),
        Act::Revoke { user, file } => Some(OwnAct::Revoke { user, file }),
        Act::Remove { file } => Some(OwnAct::Remove { file }),
        Act::Create { file, list } => Some(OwnAct::Create { file, list }),
        Act::Replace { file } => Some(OwnAct::Replace { file }),
        Act::List { file: _ } | Act::Key { user: _ } | Act::Read { file: _ } | Act::Check => None,
    }
}

/// An act by the book, and the path of the bytes that it stores, where it stores some.
#[derive(Drop)]
struct Written<'a> {
    act: OwnAct,
    path: &'a str,
}

/// The act of a command and the words behind it. `resume` is none here.
fn update_by<'a>(
    alloc: Global,
    command: &str,
    words: &'a [String],
) -> Result<Option<Written<'a>>, Memory>
    ensures found { IfOk result (λ found. IfSome found (λ written.
        IsOwnTail written.act (command.now ∷ map string_bytes words.entry.now) written.path.now)) }
    ensures none { IfOk result (λ found. IfNone found ((act : OwnValue) (path : List ℕ)
        → IsUpdateTail act (command.now ∷ map string_bytes words.entry.now) path → ⊥)) }
{
    match act_of(alloc, command, words)? {
        Some(Taken { act, path }) => match update_of(act) {
            Some(act) => Ok(Some(Written { act, path })),
            None => Ok(None),
        },
        None => Ok(None),
    }
}

/// The act of the words behind the mode.
fn own_act_of<'a>(alloc: Global, words: &'a [String]) -> Result<Option<Written<'a>>, Memory>
    ensures found { IfOk result (λ found. IfSome found (λ written.
        IsOwnTail written.act (map string_bytes words.entry.now) written.path.now)) }
    ensures none { IfOk result (λ found. IfNone found
        (IsNoOwnTail (map string_bytes words.entry.now))) }
{
    let Some((command, rest)) = words.split_first() else {
        return Ok(None);
    };
    if !rest.is_empty() {
        return update_by(alloc, command.as_str(), rest);
    }
    if command.as_str() != "resume" {
        return Ok(None);
    }
    Ok(Some(Written {
        act: OwnAct::Resume,
        path: "",
    }))
}

/// The job of an act, with these words.
fn job_with(
    alloc: Global,
    written: Written<'_>,
    mode: Mode,
    address: &str,
    keys: &str,
    book: &str,
) -> Result<OwnJob, Memory>
    ensures { IfOk result (λ job. job ≡ record {
      address = address.now;
      keys = keys.now;
      book = book.now;
      path = written.entry.path.now;
      mode = mode;
      act = written.entry.act;
    }) }
{
    Ok(OwnJob {
        address: Octets::copy(alloc, address.as_bytes())?,
        keys: Octets::copy(alloc, keys.as_bytes())?,
        book: Octets::copy(alloc, book.as_bytes())?,
        path: Octets::copy(alloc, written.path.as_bytes())?,
        mode,
        act: written.act,
    })
}

/// The job of these words behind `own`.
fn job_behind(
    alloc: Global,
    address: &str,
    keys: &str,
    book: &str,
    mode: &str,
    rest: &[String],
) -> Result<Option<OwnJob>, Memory>
    ensures found { IfOk result (λ found. IfSome found (IsOwnLine (codes "own"
        ∷ address.now ∷ keys.now ∷ book.now ∷ mode.now ∷ map string_bytes rest.now))) }
    ensures none { IfOk result (λ found. IfNone found (IsNoOwnLine (codes "own"
        ∷ address.now ∷ keys.now ∷ book.now ∷ mode.now ∷ map string_bytes rest.now))) }
{
    let Some(mode) = mode_of(mode) else {
        return Ok(None);
    };
    match own_act_of(alloc, rest)? {
        Some(written) => {
            let job = job_with(alloc, written, mode, address, keys, book)?;
            Ok(Some(job))
        }
        None => Ok(None),
    }
}

/// The job of which the words are the line.
fn job_of(alloc: Global, words: &[String]) -> Result<Option<OwnJob>, Memory>
    ensures found { IfOk result (λ found. IfSome found (IsOwnLine (map string_bytes words.now))) }
    ensures none { IfOk result (λ found. IfNone found (IsNoOwnLine (map string_bytes words.now))) }
{
    match words {
        [own, address, keys, book, mode, ..] => {
            if own.as_str() != "own" {
                return Ok(None);
            }
            let (_, rest) = words.split_at(5);
            job_behind(
                alloc,
                address.as_str(),
                keys.as_str(),
                book.as_str(),
                mode.as_str(),
                rest,
            )
        }
        _ => Ok(None),
    }
}

/// The job that the words ask for. 2 is the answer to words that are no line of `own`, and 7 where
/// memory was refused.
///
/// * `line`: the words are the job's line;
/// * `options`: none of the words looks like an option;
/// * `code`: words that are some job's line, and of which none looks like an option, are never
///   answered 2.
pub fn read_own_job(alloc: Global, words: &[String]) -> Result<OwnJob, u8>
    ensures line { IfOk result (IsOwnLine (map string_bytes words.now)) }
    ensures options { IfOk result (λ _. has_option words.now ≡ false) }
    ensures code { IfErr result (λ code. (code ≡ 7) ⊎ ((code ≡ 2)
        × (has_option words.now ≡ false → IsNoOwnLine (map string_bytes words.now)))) }
{
    if has_option(words) {
        return Err(2);
    }
    match job_of(alloc, words) {
        Ok(Some(job)) => Ok(job),
        Ok(None) => Err(2),
        Err(Memory) => Err(7),
    }
}
