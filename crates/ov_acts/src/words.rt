//! The words of the command line, taken apart.
//!
//! Words of which none looks like an option are a job's line or they aren't. Where one does, they are
//! none: help may be asked for, or the word is one that clap doesn't know. A single dash is a word as
//! any other, so a path may be `-`, and a path that begins with a dash is written as `./-x`.
ghost use Rattle.std.specs.Prelude.{◌≡◌, ◌⊎◌, List, ℕ, ◌∷◌, [], IfErr, IfNone, IfOk, IfSome};
ghost use Rattle.std.specs.Prelude.{codes, false, map, string_bytes};
ghost use Rattle.ov_acts.specs.Files.{HasListLimits};
ghost use Rattle.ov_acts.specs.Words.{IsActLine, IsJobLine, IsNoLine, IsWritten};
ghost use Rattle.ov_acts.specs.Words.{has_option, is_option};
ghost use Rattle.ov_acts.specs.declared.job.Act.{Act as ActValue};
ghost use Rattle.ov_acts.specs.declared.job.Job.{Job as JobValue};

use crate::job::{Act, Job};
use ov_base::limits::MAX_LINE_BYTES;
use ov_base::{Memory, Name, Names, Octets};
use ov_script::list_of;
use std::alloc::Global;

/// Bytes of LIST, at most: as many as a line of a script has, so that each list that a script can
/// have can be written.
pub const MAX_WRITTEN_LIST: usize = MAX_LINE_BYTES;

/// The names of the list that a word is.
pub fn names_of(alloc: Global, word: &str) -> Result<Option<Names>, Memory>
    ensures found { IfOk result (λ found. IfSome found (IsWritten word.now)) }
    ensures none { IfOk result (λ found. IfNone found
        ((names : List (List ℕ)) → IsWritten word.now names → ⊥)) }
{
    if word.len() > MAX_WRITTEN_LIST {
        return Ok(None);
    }
    list_of(alloc, word.as_bytes())
}

/// The act that has one name behind its keys.
fn act_of_one(command: &str, word: &str) -> Option<Act>
    ensures found { IfSome result (λ act. IsActLine act command.now (word.now ∷ []) []) }
    ensures none { IfNone result ((act : ActValue) (path : List ℕ)
        → IsActLine act command.now (word.now ∷ []) path → ⊥) }
{
    let name = Name::read(word.as_bytes())?;
    match command {
        "enrol" => Some(Act::Enrol { user: name }),
        "remove" => Some(Act::Remove { file: name }),
        "list" => Some(Act::List { file: name }),
        "key" => Some(Act::Key { user: name }),
        "read" => Some(Act::Read { file: name }),
        _ => None,
    }
}

/// An act, and the path of the bytes that it stores, where it stores some.
#[derive(Drop)]
pub struct Taken<'a> {
    /// The act.
    pub act: Act,
    /// The path, or nothing.
    pub path: &'a str,
}

/// The act that has two words behind its keys: two names, or a name and a path.
fn act_of_two<'a>(command: &str, first: &str, second: &'a str) -> Option<Taken<'a>>
    ensures found { IfSome result (λ taken.
        IsActLine taken.act command.now (first.now ∷ second.now ∷ []) taken.path.now) }
    ensures none { IfNone result ((act : ActValue) (path : List ℕ)
        → IsActLine act command.now (first.now ∷ second.now ∷ []) path → ⊥) }
{
    let name = Name::read(first.as_bytes())?;
    match command {
        "replace" => Some(Taken {
            act: Act::Replace { file: name },
            path: second,
        }),
        "grant" => Some(Taken {
            act: Act::Grant {
                user: name,
                file: Name::read(second.as_bytes())?,
            },
            path: "",
        }),
        "revoke" => Some(Taken {
            act: Act::Revoke {
                user: name,
                file: Name::read(second.as_bytes())?,
            },
            path: "",
        }),
        _ => None,
    }
}

/// The creation of a file.
fn creation(alloc: Global, file: &str, list: &str) -> Result<Option<Act>, Memory>
    ensures found { IfOk result (λ found. IfSome found (λ act. (path : List ℕ)
        → IsActLine act (codes "create") (file.now ∷ list.now ∷ path ∷ []) path)) }
    ensures none { IfOk result (λ found. IfNone found ((act : ActValue) (path other : List ℕ)
        → IsActLine act (codes "create") (file.now ∷ list.now ∷ path ∷ []) other → ⊥)) }
{
    let Some(file) = Name::read(file.as_bytes()) else {
        return Ok(None);
    };
    match names_of(alloc, list)? {
        Some(list) => Ok(Some(Act::Create { file, list })),
        None => Ok(None),
    }
}

/// The act of a command and the words behind its address and keys.
pub fn act_of<'a>(
    alloc: Global,
    command: &str,
    words: &'a [String],
) -> Result<Option<Taken<'a>>, Memory>
    ensures found { IfOk result (λ found. IfSome found (λ taken.
        IsActLine taken.act command.now (map string_bytes words.entry.now) taken.path.now)) }
    ensures none { IfOk result (λ found. IfNone found ((act : ActValue) (path : List ℕ)
        → IsActLine act command.now (map string_bytes words.entry.now) path → ⊥)) }
{
    match words {
        [] => Ok(None),
        [word] => match act_of_one(command, word.as_str()) {
            Some(act) => Ok(Some(Taken { act, path: "" })),
            None => Ok(None),
        },
        [first, second] => match act_of_two(command, first.as_str(), second.as_str()) {
            Some(taken) => Ok(Some(taken)),
            None => Ok(None),
        },
        [file, list, path] => {
            if command != "create" {
                return Ok(None);
            }
            match creation(alloc, file.as_str(), list.as_str()) {
                Ok(Some(act)) => Ok(Some(Taken {
                    act,
                    path: path.as_str(),
                })),
                Ok(None) => Ok(None),
                Err(Memory) => Err(Memory),
            }
        }
        [_, _, _, _, ..] => Ok(None),
    }
}

/// The job of an act, with these words.
fn job_with(alloc: Global, act: Act, address: &str, keys: &str, path: &str) -> Result<Job, Memory>
    ensures { IfOk result (λ job. job ≡ record {
      address = address.now;
      keys = keys.now;
      path = path.now;
      act = act;
    }) }
{
    Ok(Job {
        address: Octets::copy(alloc, address.as_bytes())?,
        keys: Octets::copy(alloc, keys.as_bytes())?,
        path: Octets::copy(alloc, path.as_bytes())?,
        act,
    })
}

/// The job of words that begin with a command and two others.
fn job_behind(
    alloc: Global,
    command: &str,
    address: &str,
    keys: &str,
    rest: &[String],
) -> Result<Option<Job>, Memory>
    ensures found { IfOk result (λ found. IfSome found (IsJobLine
        (command.now ∷ address.now ∷ keys.now ∷ map string_bytes rest.now))) }
    ensures none { IfOk result (λ found. IfNone found (IsNoLine
        (command.now ∷ address.now ∷ keys.now ∷ map string_bytes rest.now))) }
{
    match act_of(alloc, command, rest) {
        Ok(Some(taken)) => {
            let job = job_with(alloc, taken.act, address, keys, taken.path)?;
            Ok(Some(job))
        }
        Ok(None) => Ok(None),
        Err(Memory) => Err(Memory),
    }
}

/// The job of which the words are the line.
fn job_of(alloc: Global, words: &[String]) -> Result<Option<Job>, Memory>
    ensures found { IfOk result (λ found. IfSome found (IsJobLine (map string_bytes words.now))) }
    ensures none { IfOk result (λ found. IfNone found (IsNoLine (map string_bytes words.now))) }
{
    match words {
        [] | [_] => Ok(None),
        [check, keys] => {
            if check.as_str() != "check" {
                return Ok(None);
            }
            let job = job_with(alloc, Act::Check, "", keys.as_str(), "")?;
            Ok(Some(job))
        }
        [command, address, keys, rest @ ..] => {
            job_behind(
                alloc,
                command.as_str(),
                address.as_str(),
                keys.as_str(),
                rest,
            )
        }
    }
}

/// Whether a word looks like an option: a dash, and more behind it.
fn is_option(word: &str) -> bool
    ensures { result ≡ is_option word.now }
{
    match word.as_bytes() {
        [first, _, ..] => *first == b'-',
        _ => false,
    }
}

/// Whether one of the words looks like an option.
pub fn has_option(words: &[String]) -> bool
    ensures { result ≡ has_option words.now }
{
    words.iter().any(|word| is_option(word.as_str()))
}

/// Does nothing. Its contract is that the list of a job that words ask for is one that an owner can
/// send.
fn lists_are_few()
    ensures { (words : List (List ℕ)) (job : JobValue) → IsJobLine words job
        → HasListLimits job.act }
{}

/// The job that the words ask for. 2 is the answer to words that are no job's line, and 7 where
/// memory was refused.
///
/// * `line`: the words are the job's line;
/// * `list`: its list, where it has one, is one that [`act`](crate::act) takes;
/// * `options`: none of the words looks like an option, so an address, a path or a list with a dash
///   and more behind it is never taken for one;
/// * `code`: words that are some job's line, and of which none looks like an option, are never
///   answered 2.
pub fn read_job(alloc: Global, words: &[String]) -> Result<Job, u8>
    ensures line { IfOk result (IsJobLine (map string_bytes words.now)) }
    ensures list { IfOk result (λ job. HasListLimits job.act) }
    ensures options { IfOk result (λ _. has_option words.now ≡ false) }
    ensures code { IfErr result (λ code. (code ≡ 7) ⊎ ((code ≡ 2)
        × (has_option words.now ≡ false → IsNoLine (map string_bytes words.now)))) }
{
    lists_are_few();
    if has_option(words) {
        return Err(2);
    }
    match job_of(alloc, words) {
        Ok(Some(job)) => Ok(job),
        Ok(None) => Err(2),
        Err(Memory) => Err(7),
    }
}
