//! What help says of options, which stand in no line of a command.

use crate::options::{Opt, command_takes};
use crate::script_texts;
use std::fmt;
use std::fmt::{Display, Formatter, Write};

// What stands before the lines on options in the help of clap, and behind them.
const BEFORE_OPTIONS: &str = "\n\nOptions:\n";

const BEHIND_OPTIONS: &str = "\n\nExample: ";

// The lines on the options that clap knows, in one column with the others.
const HELP_LINE: &str = "  -h, --help               Print help";

const VERSION_LINE: &str = "\n  -V, --version            Print version";

/// The help of a command, or of the whole program, as clap gives it, with the options that the command
/// has. A text that is no help, as the version, is left as it is.
#[derive(Clone, Copy)]
pub struct Help<'a> {
    text: &'a str,
    command: Option<&'a str>,
}

// The line on an option.
fn line_on(option: Opt) -> &'static str {
    match option {
        Opt::Output => "  -o, --output <FILE>      Put it into FILE, as a whole or not at all\n",
        Opt::Timeout => "      --timeout <SECONDS>  End with 8 once nothing comes for so long\n",
        Opt::Yes => "      --yes                Don't ask on a terminal\n",
    }
}

impl<'a> Help<'a> {
    /// The help with this text, of the command with this name. Where none has it the help is that of
    /// the whole program.
    pub fn new(text: &'a str, command: Option<&'a str>) -> Help<'a> {
        Help {
            text,
            command: command.filter(|word| !word.starts_with('-')),
        }
    }

    // Whether the help has the line on an option.
    fn has(&self, option: Opt) -> bool {
        match self.command {
            Some(command) => command_takes(command, option),
            None => true,
        }
    }

    // Writes the lines on the options.
    fn write_options<W: Write>(&self, f: &mut Formatter<W>) -> fmt::Result {
        for option in [Opt::Output, Opt::Timeout, Opt::Yes] {
            if self.has(option) {
                f.write_str(line_on(option))?;
            }
        }
        f.write_str(HELP_LINE)?;
        match self.command {
            Some(_) => Ok(()),
            None => f.write_str(VERSION_LINE),
        }
    }

    // What stands before the lines on options, and behind them.
    fn parts(&self) -> Option<(&'a str, &'a str)> {
        let (before, options) = self.text.split_once(BEFORE_OPTIONS)?;
        let (_, behind) = options.split_once(BEHIND_OPTIONS)?;
        Some((before, behind))
    }
}

impl Display for Help<'_> {
    fn fmt<W: Write>(&self, f: &mut Formatter<W>) -> fmt::Result {
        match self.parts() {
            Some((before, behind)) => {
                f.write_str(before)?;
                if self.command.is_none() {
                    f.write_str(script_texts::LINE)?;
                }
                f.write_str(BEFORE_OPTIONS)?;
                self.write_options(f)?;
                f.write_str(BEHIND_OPTIONS)?;
                f.write_str(behind)
            }
            None => f.write_str(self.text),
        }
    }
}
