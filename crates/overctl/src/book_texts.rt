//! What is said on standard error of how a question to the owner's book ended, and of words that are
//! no such question.

use crate::refusals::step_for;
use crate::texts::{FREE_SOME, OUT_OF_MEMORY, UNWRITTEN, WRITABLE, WrongWords};
use ov_base::Name;
use ov_consulting::BookStop;
use std::fmt;
use std::fmt::{Display, Formatter, Write};
use std::io::ErrorKind;

/// How a question to the book ended, with what its words name: why it has no answer, if so. Its text is
/// what went wrong.
#[derive(Clone, Copy)]
pub struct BookEnding<'a> {
    pub stop: Option<BookStop>,
    pub code: u8,
    pub keys: &'a str,
    pub book: &'a str,
    pub reason: Option<ErrorKind>,
}

impl BookEnding<'_> {
    // Why there is no answer, where that is what the status says.
    fn told(&self) -> Option<BookStop> {
        self.stop.filter(|stop| stop.code() == self.code)
    }
}

// What went wrong where the question has no answer.
fn say_stop<W: Write>(end: &BookEnding<'_>, stop: BookStop, f: &mut Formatter<W>) -> fmt::Result {
    let (keys, book) = (end.keys, end.book);
    match stop {
        BookStop::Refused(why) => {
            let (number, word) = (why.number(), why.word());
            write!(f, "the book {book} refuses the question: {number} {word}")
        }
        BookStop::Read => match end.reason {
            Some(ErrorKind::NotFound) => write!(f, "cannot read {keys}: no such file"),
            Some(reason) => write!(f, "cannot read {keys}: {reason}"),
            None => write!(f, "cannot read {keys}"),
        },
        BookStop::Memory => f.write_str(OUT_OF_MEMORY),
        BookStop::OtherKeys => write!(
            f,
            "the book {book} has other masters than {keys}, or another mode"
        ),
        BookStop::BadKeys => write!(f, "{keys} is no key file"),
        BookStop::Disk => write!(f, "{book}.book or {book}.blobs cannot be read"),
        BookStop::NoBook => write!(f, "{book}.book isn't there, is no book, or is damaged"),
    }
}

impl Display for BookEnding<'_> {
    fn fmt<W: Write>(&self, f: &mut Formatter<W>) -> fmt::Result {
        match self.told() {
            Some(stop) => say_stop(self, stop, f),
            None => f.write_str(UNWRITTEN),
        }
    }
}

/// What to do about how a question to the book ended.
#[derive(Clone, Copy)]
pub struct BookHint<'a>(pub &'a BookEnding<'a>);

// What to do where the question has no answer.
fn say_step<W: Write>(end: &BookEnding<'_>, stop: BookStop, f: &mut Formatter<W>) -> fmt::Result {
    match stop {
        BookStop::Refused(why) => f.write_str(step_for(why)),
        BookStop::Read => f.write_str("see that it is a file that you may read"),
        BookStop::Memory => f.write_str(FREE_SOME),
        BookStop::OtherKeys => f.write_str("take the key file and the mode that it was begun with"),
        BookStop::BadKeys => f.write_str("it has two different lines of 64 hexadecimal digits"),
        BookStop::Disk => {
            f.write_str("see that you may read both, and that no `overctl own` has them now")
        }
        BookStop::NoBook => {
            let book = end.book;
            write!(
                f,
                "correct the path, or restore {book}.book and {book}.blobs from a copy"
            )
        }
    }
}

impl Display for BookHint<'_> {
    fn fmt<W: Write>(&self, f: &mut Formatter<W>) -> fmt::Result {
        match self.0.told() {
            Some(stop) => say_step(self.0, stop, f),
            None => f.write_str(WRITABLE),
        }
    }
}

// What is wrong with the words of a question behind the book's mode.
fn wrong_question<'a>(words: &'a [String]) -> WrongWords<'a> {
    let Some((question, rest)) = words.split_first() else {
        return WrongWords::TooFew;
    };
    let takes_name = match question.as_str() {
        "key" | "list" | "files" => true,
        "users" | "epoch" | "pending" => false,
        other => return WrongWords::Question(other),
    };
    match rest {
        [] => WrongWords::TooFew,
        [name] if takes_name && Name::read(name.as_bytes()).is_none() => {
            WrongWords::Name(name.as_str())
        }
        _ => WrongWords::Others,
    }
}

/// What is wrong with the words of a question to the owner's book.
pub fn wrong_book<'a>(words: &'a [String]) -> WrongWords<'a> {
    match words {
        [_, _, mode, rest @ ..] => match mode.as_str() {
            "full" | "delta" => wrong_question(rest),
            other => WrongWords::Mode(other),
        },
        _ => WrongWords::TooFew,
    }
}
