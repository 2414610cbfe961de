//! What is said of scripts.

use std::fmt;
use std::fmt::{Display, Formatter, Write};

/// The words of a script.
pub const USAGE: &str = "overctl script ADDRESS KEYS";

/// The help of the command. The lines on options stand between its last two parts.
pub const HELP: &str = concat!(
    "Answer the script on standard input over one session: its reply lines\n\n",
    "Usage: overctl script ADDRESS KEYS\n\n",
    "Arguments:\n",
    "  <ADDRESS>  where the server listens, as 127.0.0.1:7400\n",
    "  <KEYS>     the file of both masters: two lines of 64 hexadecimal digits\n\n",
    "Options:\n\n\n",
    "Example: overctl script 127.0.0.1:7400 keys.hex < room.script\n",
    "Exit status: 0 answered to its end, 2 words, 4 disk, 5 reading, 6 writing,\n",
    " 7 memory, 8 no server, 9 masters, 10 key file, 11 reply, 12 damage, 13 others,\n",
    " 14 length, 20 a line that is no item\n",
);

/// The line on the command in the help of the whole program.
pub const LINE: &str =
    "\n  script   Answer a script over one session: reply lines, `end epoch EPOCH`";

/// What is wrong with a script that has a bad item at this line.
#[derive(Clone, Copy)]
pub struct BadItem(pub u64);

impl Display for BadItem {
    fn fmt<W: Write>(&self, f: &mut Formatter<W>) -> fmt::Result {
        write!(f, "line {} of the script is no item", self.0)
    }
}

/// What to do about a bad item.
pub const BAD_LINE_HINT: &str = concat!(
    "overstore-script(5) has the forms of lines; what was answered before lasts; ",
    "correct it, and run from there on as a script of its own"
);

/// What is wrong with a script that is too long.
pub const LONG: &str = "the script has more than 268435456 bytes";

/// What to do about a script that is too long.
pub const LONG_HINT: &str = "what was answered before lasts; run the rest as a script of its own";

/// What to do where a reply line wasn't written.
pub const UNWRITTEN_HINT: &str = concat!(
    "the command whose line is missing may be done: ",
    "look with `overctl epoch` and `overctl files` before you run the rest"
);

/// What to do where a command of a script was sent, and what came of it isn't known.
pub const IN_DOUBT: &str = concat!(
    "what was replied to lasts, and the command behind it may be done: ",
    "look with `overctl files` before you run the rest; a creation or a replacement goes again, ",
    "with the same bytes, before any other file for its list"
);

/// What to do where others were faster at each try.
pub const FROM_THERE: &str =
    "what was replied to lasts: run the script from the command behind it on";

/// What to do where a file that a script reads is damaged.
pub const DAMAGED: &str =
    "read it again; if it stays so, try a copy of the store with `overstore run MODE < /dev/null`";
