//! The options among the words of a command line. All other words are the line of a command, as they
//! are without options.

use std::alloc::Global;
use std::fmt;
use std::fmt::{Display, Formatter, Write};

/// The most seconds that a wait may be given: a day.
pub const MOST_SECONDS: u32 = 86_400;

/// What the options among the words ask for.
#[derive(Clone, Copy)]
pub struct Options<'a> {
    /// The file that the result is written to, in place of standard output.
    pub output: Option<&'a str>,
    /// After how many seconds a wait for the server ends.
    pub timeout: Option<u32>,
    /// Whether nothing is asked on a terminal.
    pub is_sure: bool,
}

/// The options, and the words that are none.
#[derive(Drop)]
pub struct Parted<'a> {
    pub options: Options<'a>,
    pub words: Vec<String>,
}

/// An option.
#[derive(Clone, Copy, Debug, PartialEq, Eq)]
pub enum Opt {
    /// `-o FILE`, or `--output FILE`.
    Output,
    /// `--timeout SECONDS`.
    Timeout,
    /// `--yes`.
    Yes,
}

impl Opt {
    // The option as it is written.
    fn word(self) -> &'static str {
        match self {
            Opt::Output => "--output",
            Opt::Timeout => "--timeout",
            Opt::Yes => "--yes",
        }
    }
}

/// What is wrong with the options among the words.
#[derive(Clone, Copy)]
pub enum WrongOption<'a> {
    /// The word behind this one isn't its value, or there is none.
    NoValue(Opt),
    /// This one comes twice.
    Twice(Opt),
    /// This is no number of seconds.
    Seconds(&'a str),
    /// The command doesn't have this one.
    Foreign(Opt),
}

impl WrongOption<'_> {
    /// The option.
    pub fn option(self) -> Opt {
        match self {
            WrongOption::NoValue(option)
            | WrongOption::Twice(option)
            | WrongOption::Foreign(option) => option,
            WrongOption::Seconds(_) => Opt::Timeout,
        }
    }
}

impl Display for WrongOption<'_> {
    fn fmt<W: Write>(&self, f: &mut Formatter<W>) -> fmt::Result {
        match self {
            WrongOption::NoValue(option) => write!(f, "`{}` is without its value", option.word()),
            WrongOption::Twice(option) => write!(f, "`{}` is given twice", option.word()),
            WrongOption::Seconds(word) => {
                write!(
                    f,
                    "`{word}` is no number of seconds from 1 to {MOST_SECONDS}"
                )
            }
            WrongOption::Foreign(option) => {
                write!(f, "the command doesn't have `{}`", option.word())
            }
        }
    }
}

/// What to do about a wrong option: how it is written.
#[derive(Clone, Copy)]
pub struct OptionHint(pub Opt);

impl Display for OptionHint {
    fn fmt<W: Write>(&self, f: &mut Formatter<W>) -> fmt::Result {
        match self.0 {
            Opt::Output => f.write_str("use `-o FILE` with `overctl read` and `overctl key`"),
            Opt::Timeout => {
                f.write_str("use `--timeout SECONDS` with a command that asks a server")
            }
            Opt::Yes => f.write_str("use `--yes` with `remove` and `replace`, by a book too"),
        }
    }
}

/// Why the words have no options and no line.
#[derive(Clone, Copy)]
pub enum Unparted<'a> {
    /// An option is wrong.
    Wrong(WrongOption<'a>),
    /// Memory was refused.
    Memory,
}

impl<'a> From<WrongOption<'a>> for Unparted<'a> {
    fn from(wrong: WrongOption<'a>) -> Self {
        Unparted::Wrong(wrong)
    }
}

// What a word is, as far as options go.
#[derive(Clone, Copy)]
enum Word<'a> {
    // The option whose value is the next word.
    Before(Opt),
    // The option with its value.
    With(Opt, &'a str),
    // The option that has none.
    Alone(Opt),
    // No option that is known here.
    Plain,
}

// What this word is.
fn read_word(word: &str) -> Word<'_> {
    match word {
        "-o" | "--output" => Word::Before(Opt::Output),
        "--timeout" => Word::Before(Opt::Timeout),
        "--yes" => Word::Alone(Opt::Yes),
        _ => match (
            word.strip_prefix("--output="),
            word.strip_prefix("--timeout="),
        ) {
            (Some(value), _) => Word::With(Opt::Output, value),
            (_, Some(value)) => Word::With(Opt::Timeout, value),
            _ => Word::Plain,
        },
    }
}

// The seconds that a word is.
fn seconds_in(word: &str) -> Option<u32> {
    if word.as_bytes().iter().all(|byte| byte.is_ascii_digit()) {
        let seconds = word.parse::<u32>().ok()?;
        (1 <= seconds && seconds <= MOST_SECONDS).then_some(seconds)
    } else {
        None
    }
}

impl<'a> Options<'a> {
    // No options.
    fn none() -> Options<'a> {
        Options {
            output: None,
            timeout: None,
            is_sure: false,
        }
    }

    // Whether this one was given.
    fn has(&self, option: Opt) -> bool {
        match option {
            Opt::Output => self.output.is_some(),
            Opt::Timeout => self.timeout.is_some(),
            Opt::Yes => self.is_sure,
        }
    }

    // Takes an option with its value, which is none where a word stands in its place that looks like
    // an option itself.
    fn take(&mut self, option: Opt, value: &'a str) -> Result<(), WrongOption<'a>> {
        if self.has(option) {
            return Err(WrongOption::Twice(option));
        }
        if value.is_empty() || value.starts_with('-') {
            return Err(WrongOption::NoValue(option));
        }
        match option {
            Opt::Output => self.output = Some(value),
            Opt::Timeout => match seconds_in(value) {
                Some(seconds) => self.timeout = Some(seconds),
                None => return Err(WrongOption::Seconds(value)),
            },
            Opt::Yes => {}
        }
        Ok(())
    }

    // Takes an option that has no value.
    fn take_alone(&mut self, option: Opt) -> Result<(), WrongOption<'a>> {
        if self.has(option) {
            return Err(WrongOption::Twice(option));
        }
        self.is_sure = true;
        Ok(())
    }

    /// One of these that the command doesn't have, if one was given.
    pub fn foreign_to(&self, command: &str) -> Option<WrongOption<'a>> {
        for option in [Opt::Output, Opt::Timeout, Opt::Yes] {
            if self.has(option) && !command_takes(command, option) {
                return Some(WrongOption::Foreign(option));
            }
        }
        None
    }
}

/// Whether a command has this option.
pub fn command_takes(command: &str, option: Opt) -> bool {
    match option {
        Opt::Output => matches!(command, "read" | "key"),
        Opt::Timeout => !matches!(command, "check" | "book"),
        Opt::Yes => matches!(command, "remove" | "replace" | "own"),
    }
}

// How far the words are parted.
#[derive(Drop)]
struct Parting<'a> {
    options: Options<'a>,
    words: Vec<String>,
    // The option whose value is the next word.
    waiting: Option<Opt>,
}

impl<'a> Parting<'a> {
    // Takes a word that isn't the value of the option before it.
    fn begin(&mut self, alloc: Global, word: &'a str) -> Result<(), Unparted<'a>> {
        match read_word(word) {
            Word::Before(option) => self.waiting = Some(option),
            Word::With(option, value) => self.options.take(option, value)?,
            Word::Alone(option) => self.options.take_alone(option)?,
            Word::Plain => {
                let word = String::from_str(alloc, word).map_err(|_| Unparted::Memory)?;
                self.words.push(word).map_err(|_| Unparted::Memory)?;
            }
        }
        Ok(())
    }

    // Takes the next word.
    fn take(&mut self, alloc: Global, word: &'a str) -> Result<(), Unparted<'a>> {
        match self.waiting.take() {
            Some(option) => {
                self.options.take(option, word)?;
                Ok(())
            }
            None => self.begin(alloc, word),
        }
    }
}

/// Takes the options out of the words of a command line, wherever they stand among them. A word that
/// looks like another option is kept, so that the line says what is wrong with it.
pub fn part<'a>(alloc: Global, words: &'a [String]) -> Result<Parted<'a>, Unparted<'a>> {
    let mut parting = Parting {
        options: Options::none(),
        words: Vec::new(alloc),
        waiting: None,
    };
    for word in words {
        parting.take(alloc, word.as_str())?;
    }
    match parting.waiting {
        Some(option) => Err(Unparted::Wrong(WrongOption::NoValue(option))),
        None => Ok(Parted {
            options: parting.options,
            words: parting.words,
        }),
    }
}
