//! What is said on standard error, and of words that are no line of a command or ask for help.

use crate::book_texts::wrong_book;
use crate::help::Help;
use crate::options::{OptionHint, Options, WrongOption};
use crate::question::question_of;
use crate::real::run_ask;
use crate::texts::{
    FREE_SOME, NO_PLACES, OUT_OF_MEMORY, THERE, UNWRITTEN, WRITABLE, WrongWords, usage_of,
};
use clap::Error;
use clap::error::ErrorKind;
use ov_acts::{Status, judge, line_of, names_of};
use ov_base::Name;
use std::alloc::Global;
use std::fmt::Display;

/// Says on standard error what is wrong, and what to do.
pub fn say<E: Display, H: Display>(rt: &HostRuntime, error: &E, hint: &H) {
    let _ = eprintln!(rt; "overctl: error: {error}");
    let _ = eprintln!(rt; "overctl: hint: {hint}");
}

/// What is wrong with words of which clap makes this error.
fn wrong_words<'a>(error: &Error, words: &'a [String]) -> WrongWords<'a> {
    match error.kind() {
        ErrorKind::MissingRequiredArgument => WrongWords::TooFew,
        ErrorKind::InvalidSubcommand => match words.first() {
            Some(word) => WrongWords::Command(word.as_str()),
            None => WrongWords::None,
        },
        ErrorKind::MissingSubcommand | ErrorKind::DisplayHelpOnMissingArgumentOrSubcommand => {
            WrongWords::None
        }
        _ => WrongWords::Others,
    }
}

/// What is wrong with a word where the line has this one.
fn wrong_word<'a>(alloc: Global, label: &str, word: &'a str) -> Option<WrongWords<'a>> {
    match label {
        "USER" | "[USER]" | "FILE" => match Name::read(word.as_bytes()) {
            Some(_) => None,
            None => Some(WrongWords::Name(word)),
        },
        "LIST" => match names_of(alloc, word) {
            Ok(None) => Some(WrongWords::List(word)),
            _ => None,
        },
        _ => None,
    }
}

/// What is wrong with the words behind a book and its mode.
fn wrong_update<'a>(alloc: Global, words: &'a [String]) -> WrongWords<'a> {
    let Some((command, words)) = words.split_first() else {
        return WrongWords::TooFew;
    };
    let updates = ["enrol", "create", "grant", "revoke", "remove", "replace"];
    let Some(line) = line_of(command.as_str()) else {
        return WrongWords::Update(command.as_str());
    };
    if !updates.as_slice().contains(&line.name) {
        return WrongWords::Update(command.as_str());
    }
    let [_, _, labels @ ..] = line.words else {
        return WrongWords::Update(command.as_str());
    };
    for (label, word) in labels.iter().zip(words) {
        if let Some(wrong) = wrong_word(alloc, label, word.as_str()) {
            return wrong;
        }
    }
    if words.len() < labels.len() {
        WrongWords::TooFew
    } else {
        WrongWords::Others
    }
}

/// What is wrong with the words of a command by the owner's book.
fn wrong_own<'a>(alloc: Global, words: &'a [String]) -> WrongWords<'a> {
    match words {
        [_, _, _, mode, rest @ ..] => match mode.as_str() {
            "full" | "delta" => wrong_update(alloc, rest),
            other => WrongWords::Mode(other),
        },
        _ => WrongWords::TooFew,
    }
}

/// What is wrong with words that clap takes.
fn wrong_names<'a>(alloc: Global, words: &'a [String]) -> WrongWords<'a> {
    let Some((command, words)) = words.split_first() else {
        return WrongWords::None;
    };
    if command.as_str() == "own" {
        return wrong_own(alloc, words);
    }
    if command.as_str() == "book" {
        return wrong_book(words);
    }
    let Some(line) = line_of(command.as_str()) else {
        return WrongWords::Command(command.as_str());
    };
    for (label, word) in line.words.iter().zip(words) {
        if let Some(wrong) = wrong_word(alloc, label, word.as_str()) {
            return wrong;
        }
    }
    WrongWords::Others
}

/// Says on standard error what is wrong with the words, and which line they should have been.
pub fn say_wrong(rt: &HostRuntime, words: &[String], wrong: WrongWords<'_>) -> u8 {
    let usage = usage_of(words.first().map(|word| word.as_str()));
    say(rt, &wrong, &usage);
    Status::Usage.code()
}

/// Says on standard error what is wrong with an option, and how it is written.
pub fn say_wrong_option(rt: &HostRuntime, wrong: WrongOption<'_>) -> u8 {
    say(rt, &wrong, &OptionHint(wrong.option()));
    Status::Usage.code()
}

/// Prints this help, or the version.
pub fn print_help(rt: &HostRuntime, help: &Help<'_>) -> u8 {
    match rt.print(help) {
        Ok(()) => Status::Done.code(),
        Err(_) => {
            say(rt, &UNWRITTEN, &WRITABLE);
            Status::WriteFault.code()
        }
    }
}

/// Gives the help or the version, where the words ask for it; or says what is wrong with them.
fn say_of_line(rt: &HostRuntime, words: &[String], error: Error) -> u8 {
    if error.use_stderr() {
        return say_wrong(rt, words, wrong_words(&error, words));
    }
    let command = words.first().map(|word| word.as_str());
    match format!(in rt.alloc(); "{error}") {
        Ok(text) => print_help(rt, &Help::new(text.as_str(), command)),
        Err(_) => say_out_of_memory(rt),
    }
}

/// Says that the places of standard streams can't be held.
pub fn say_no_places(rt: &HostRuntime) -> u8 {
    say(rt, &NO_PLACES, &THERE);
    Status::WriteFault.code()
}

/// Says that memory was refused.
pub fn say_out_of_memory(rt: &HostRuntime) -> u8 {
    say(rt, &OUT_OF_MEMORY, &FREE_SOME);
    Status::OutOfMemory.code()
}

/// Asks what the words of a question ask for; or says why the words are no line. Gives the status.
pub fn ask_or_explain(rt: &HostRuntime, words: &[String], options: &Options<'_>) -> u8 {
    match judge(rt.alloc(), words) {
        Ok(()) => match question_of(words) {
            Some(asked) => run_ask(rt, &asked, options),
            None => say_wrong(rt, words, wrong_names(rt.alloc(), words)),
        },
        Err(error) if error.kind() == ErrorKind::OutOfMemory => say_out_of_memory(rt),
        Err(error) => say_of_line(rt, words, error),
    }
}
