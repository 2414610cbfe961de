//! What clap is told of the command line: a subcommand for each command, with a place for each of
//! its words.

use crate::help;
use clap::{Arg, Command, Error};
use std::alloc::{AllocError, Global};

/// The name of a word, and whether it has to be there.
fn name_of(word: &str) -> (&str, bool) {
    match word.strip_prefix("[") {
        Some(rest) => (rest.strip_suffix("]").unwrap_or(rest), false),
        None => (word, true),
    }
}

/// The command with these words.
fn subcommand<'a>(alloc: Global, line: &'a help::Line) -> Result<Command<'a>, AllocError> {
    let mut command = Command::new(alloc, line.name)
        .about(line.about)
        .override_usage(line.usage)
        .after_help(line.after);
    for word in line.words {
        let (name, is_needed) = name_of(word);
        let arg = Arg::new(alloc, name)
            .required(is_needed)
            .help(help::about_word(word));
        command = command.arg(arg)?;
    }
    Ok(command)
}

/// The whole command line, of these commands.
fn command<'a>(alloc: Global, lines: &'a [help::Line]) -> Result<Command<'a>, AllocError> {
    let mut command = Command::new(alloc, "overctl")
        .about(help::ABOUT)
        .override_usage(help::USAGE)
        .after_help(help::AFTER)
        .version(help::VERSION)
        .no_binary_name(true)
        .subcommand_required(true)
        .disable_help_subcommand(true);
    for line in lines {
        command = command.subcommand(subcommand(alloc, line)?)?;
    }
    Ok(command)
}

/// Whether clap takes the words, or why it doesn't: help may be asked for.
pub fn judge(alloc: Global, words: &[String]) -> Result<(), Error> {
    let command = command(alloc, help::LINES.as_slice())?;
    command.try_get_matches_from(words)?;
    Ok(())
}
