//! The words of `book`, taken apart: behind the book and its mode stands a question, and the name
//! that it asks for, where it has one.
ghost use Rattle.std.specs.Prelude.{◌≡◌, ◌⊎◌, ◌∷◌, [], IfErr, IfNone, IfOk, IfSome, codes, false, map, string_bytes};
ghost use Rattle.ov_acts.specs.Words.{has_option};
ghost use Rattle.ov_base.specs.Modes.{mode_word};
ghost use Rattle.ov_base.specs.declared.mode.Mode.{Mode as ItsMode};
ghost use Rattle.ov_consulting.specs.Words.{IsBookLine, IsNoBookLine, IsNoQuestionTail, IsQuestionTail};

use crate::job::{BookJob, Question};
use ov_acts::has_option;
use ov_base::{Memory, Mode, Name, Octets};
use std::alloc::Global;

/// The mode of this word.
fn mode_of(word: &str) -> Option<Mode>
    ensures found { IfSome result (λ mode. word.now ≡ mode_word mode) }
    ensures none { IfNone result ((mode : ItsMode) → word.now ≡ mode_word mode → ⊥) }
{
    match word {
        "full" => Some(Mode::Full),
        "delta" => Some(Mode::Delta),
        _ => None,
    }
}

/// The question that is this word alone.
fn question_alone(word: &str) -> Option<Question>
    ensures found { IfSome result (λ q. IsQuestionTail q (word.now ∷ [])) }
    ensures none { IfNone result (IsNoQuestionTail (word.now ∷ [])) }
{
    match word {
        "users" => Some(Question::Users),
        "files" => Some(Question::Files),
        "epoch" => Some(Question::Epoch),
        "pending" => Some(Question::Pending),
        _ => None,
    }
}

/// The question that asks for this name.
fn question_on(word: &str, name: &str) -> Option<Question>
    ensures found { IfSome result (λ q. IsQuestionTail q (word.now ∷ name.now ∷ [])) }
    ensures none { IfNone result (IsNoQuestionTail (word.now ∷ name.now ∷ [])) }
{
    let name = Name::read(name.as_bytes())?;
    match word {
        "key" => Some(Question::Key { user: name }),
        "list" => Some(Question::List { file: name }),
        "files" => Some(Question::FilesOf { user: name }),
        _ => None,
    }
}

/// The question of the words behind the mode.
fn question_of(words: &[String]) -> Option<Question>
    ensures found { IfSome result (λ q. IsQuestionTail q (map string_bytes words.now)) }
    ensures none { IfNone result (IsNoQuestionTail (map string_bytes words.now)) }
{
    match words {
        [word] => question_alone(word.as_str()),
        [word, name] => question_on(word.as_str(), name.as_str()),
        _ => None,
    }
}

/// The job of a question, with these words.
fn job_with(
    alloc: Global,
    question: Question,
    mode: Mode,
    keys: &str,
    book: &str,
) -> Result<BookJob, Memory>
    ensures { IfOk result (λ job. job ≡ record {
      keys = keys.now;
      book = book.now;
      mode = mode;
      question = question;
    }) }
{
    Ok(BookJob {
        keys: Octets::copy(alloc, keys.as_bytes())?,
        book: Octets::copy(alloc, book.as_bytes())?,
        mode,
        question,
    })
}

/// The job of these words behind `book`.
fn job_behind(
    alloc: Global,
    keys: &str,
    book: &str,
    mode: &str,
    rest: &[String],
) -> Result<Option<BookJob>, Memory>
    ensures found { IfOk result (λ found. IfSome found (IsBookLine (codes "book"
        ∷ keys.now ∷ book.now ∷ mode.now ∷ map string_bytes rest.now))) }
    ensures none { IfOk result (λ found. IfNone found (IsNoBookLine (codes "book"
        ∷ keys.now ∷ book.now ∷ mode.now ∷ map string_bytes rest.now))) }
{
    let Some(mode) = mode_of(mode) else {
        return Ok(None);
    };
    match question_of(rest) {
        Some(question) => {
            let job = job_with(alloc, question, mode, keys, book)?;
            Ok(Some(job))
        }
        None => Ok(None),
    }
}

/// The job of which the words are the line.
fn job_of(alloc: Global, words: &[String]) -> Result<Option<BookJob>, Memory>
    ensures found { IfOk result (λ found. IfSome found (IsBookLine (map string_bytes words.now))) }
    ensures none { IfOk result (λ found. IfNone found (IsNoBookLine (map string_bytes words.now))) }
{
    match words {
        [first, keys, book, mode, ..] => {
            if first.as_str() != "book" {
                return Ok(None);
            }
            let (_, rest) = words.split_at(4);
            job_behind(alloc, keys.as_str(), book.as_str(), mode.as_str(), rest)
        }
        _ => Ok(None),
    }
}

/// The job that the words ask for. 2 is the answer to words that are no line of `book`, and 7 where
/// memory was refused.
///
/// * `line`: the words are the job's line;
/// * `options`: none of the words looks like an option;
/// * `code`: words that are some job's line, and of which none looks like an option, are never
///   answered 2.
pub fn read_book_job(alloc: Global, words: &[String]) -> Result<BookJob, u8>
    ensures line { IfOk result (IsBookLine (map string_bytes words.now)) }
    ensures options { IfOk result (λ _. has_option words.now ≡ false) }
    ensures code { IfErr result (λ code. (code ≡ 7) ⊎ ((code ≡ 2)
        × (has_option words.now ≡ false → IsNoBookLine (map string_bytes words.now)))) }
{
    if has_option(words) {
        return Err(2);
    }
    match job_of(alloc, words) {
        Ok(Some(job)) => Ok(job),
        Ok(None) => Err(2),
        Err(Memory) => Err(7),
    }
}
