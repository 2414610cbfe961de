//! What is said of words that are no line of a command, and where memory or output is missing.

use crate::script_texts;
use ov_acts::{MAX_WRITTEN_LIST, line_of};
use std::fmt;
use std::fmt::{Display, Formatter, Write};

/// What is said where memory is refused to the program itself.
pub const OUT_OF_MEMORY: &str = "out of memory";

/// What to do where memory is refused to the program itself.
pub const FREE_SOME: &str = "free some, and try again";

/// What is said where standard output can't be written.
pub const UNWRITTEN: &str = "cannot write standard output";

/// What to do where standard output can't be written.
pub const WRITABLE: &str = "see that it is open, and that there is room";

/// What is said where the places of standard streams can't be held.
pub const NO_PLACES: &str =
    "/dev/null cannot be opened, and without it another file might be taken for standard output";

/// What to do where the places of standard streams can't be held.
pub const THERE: &str = "see that it is there, and that you may open files";

/// Why the words are no line of a command.
#[derive(Drop)]
pub enum WrongWords<'a> {
    /// There are no words.
    None,
    /// One of the words is no text.
    NoText,
    /// The first word is no command.
    Command(&'a str),
    /// There are fewer words than the command takes.
    TooFew,
    /// There are more words than the command takes, or one is an option.
    Others,
    /// This word is no name.
    Name(&'a str),
    /// This word is no list.
    List(&'a str),
    /// This word is no mode.
    Mode(&'a str),
    /// This word is no command that a book has.
    Update(&'a str),
    /// This word is no question to a book.
    Question(&'a str),
}

impl Display for WrongWords<'_> {
    fn fmt<W: Write>(&self, f: &mut Formatter<W>) -> fmt::Result {
        match self {
            WrongWords::None => f.write_str("no command is given"),
            WrongWords::NoText => f.write_str("a word is no text"),
            WrongWords::Command(word) => write!(f, "`{word}` is no command"),
            WrongWords::TooFew => f.write_str("words are missing"),
            WrongWords::Others => f.write_str("there are too many words, or an unknown option"),
            WrongWords::Name(word) => write!(
                f,
                "`{word}` is no name: 1 to 64 of a-z, 0-9, `.`, `_`, `-`, a letter or digit first"
            ),
            WrongWords::Mode(word) => write!(f, "`{word}` is no mode: full or delta"),
            WrongWords::Update(word) => write!(
                f,
                "`{word}` is no command by a book: enrol, create, grant, revoke, remove, replace or resume"
            ),
            WrongWords::Question(word) => write!(
                f,
                "`{word}` is no question to a book: key, list, users, files, epoch or pending"
            ),
            WrongWords::List(word) => write!(
                f,
                "`{word}` is no list: names with commas between, or `-`, in {MAX_WRITTEN_LIST} bytes at most"
            ),
        }
    }
}

/// The line to use in place of wrong words, or the way to all lines.
#[derive(Clone, Copy)]
pub struct Usage(&'static str);

impl Display for Usage {
    fn fmt<W: Write>(&self, f: &mut Formatter<W>) -> fmt::Result {
        let line = self.0;
        write!(f, "use `{line}`")
    }
}

/// The usage of the command that the words begin with.
pub fn usage_of(command: Option<&str>) -> Usage {
    let command = command.unwrap_or("");
    match line_of(command) {
        Some(line) => Usage(line.usage),
        None if command == "script" => Usage(script_texts::USAGE),
        None => Usage("overctl --help"),
    }
}
