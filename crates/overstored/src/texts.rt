//! All that the program says beside the lines of a server.
use ov_files::FileFault;
use ov_session::SessionEnd;
use ov_settings::SettingsFault;
use std::io::ErrorKind;

/// What `--help` prints.
pub const HELP: &str = "\
Usage: overstored [--log] SETTINGS
       overstored --help | -h | --version | -V

Serves an over-encryption store over TCP by the settings in a TOML file, which
nobody but the server may read:

  address = \"127.0.0.1:7400\"  HOST:PORT where it listens; port 0 is any free one
  mode = \"full\"               the store's for good: in \"full\" each file has a
                              surface layer, in \"delta\" one whose base key more
                              users hold than its list has
  surface = \"64 DIGITS\"       the surface master, line 2 of the owner's keys.hex
  base_check = \"64 DIGITS\"    what `overctl check keys.hex` prints
  book = \"/var/lib/overstored/store.book\"    the store's files, which the first
  blobs = \"/var/lib/overstored/store.blobs\"  start makes
  sessions = 1000000          how many are served before it ends, 1 to 1000000
  workers = 4                 how many run at the same time at most, 1 to 64;
                              this key may be left out, and is 4 then

It puts `listening ADDRESS`, and `served N` at its end. SIGTERM ends it safely.
With --log standard error has a line for each update that was accepted and for
the end of each session: the time, the client's address, what it was.

Example:      overstored /etc/overstored/team.toml
Exit status:  0  served                      7  out of memory
              2  no settings                 8  the files are damaged or no store
              4  the store's files failed    9  the store has other keys or mode
              5  SETTINGS can't be read     13  can't listen, or accept
              6  standard output failed
";

/// What `--version` prints.
pub const VERSION: &str = "overstored 0.4.0\n";

/// What is put where there are no settings.
pub const NO_SETTINGS: &str = "error settings\n";

/// What is put where memory is refused before there is a server.
pub const NO_MEMORY: &str = "error memory\n";

/// What is wrong with the words behind the program's name, and what to do.
pub const WRONG_WORDS: (&str, &str) = (
    "one settings file is wanted",
    "`overstored SETTINGS`; `overstored --help` lists what stands in it",
);

/// What is wrong with a settings file.
pub fn error_in(fault: SettingsFault) -> &'static str {
    match fault {
        SettingsFault::Read => "it can't be read",
        SettingsFault::Memory => NO_ROOM.0,
        SettingsFault::TooLong => "it has more than 65536 bytes",
        SettingsFault::NotToml => "it isn't UTF-8 or no TOML document",
        SettingsFault::Address => "`address` is missing or no text",
        SettingsFault::Mode => "`mode` is missing or another word",
        SettingsFault::Surface => "`surface` is missing or not 64 hexadecimal digits",
        SettingsFault::BaseCheck => "`base_check` is missing or not 64 hexadecimal digits",
        SettingsFault::Book => "`book` is missing or no text",
        SettingsFault::Blobs => "`blobs` is missing or no text",
        SettingsFault::Sessions => "`sessions` is missing or no number from 1 to 1000000",
        SettingsFault::Workers => "`workers` is no number from 1 to 64",
    }
}

/// What to do about a settings file that is wrong.
pub fn hint_on(fault: SettingsFault) -> &'static str {
    match fault {
        SettingsFault::Read => "see that it is a file that you may read",
        SettingsFault::Memory => NO_ROOM.1,
        SettingsFault::TooLong => "eight keys are read, and no more",
        SettingsFault::NotToml => "a text stands in double quotes, and each key once",
        SettingsFault::Address => "write address = \"HOST:PORT\"",
        SettingsFault::Mode => "write mode = \"full\" or mode = \"delta\"",
        SettingsFault::Surface => "it is the second line of keys.hex, in double quotes",
        SettingsFault::BaseCheck => "it is what `overctl check KEYS` prints, in double quotes",
        SettingsFault::Book => "write the path of the store's book, in double quotes",
        SettingsFault::Blobs => "write the path of the store's blobs, in double quotes",
        SettingsFault::Sessions => "write sessions = 1000000",
        SettingsFault::Workers => "write workers = 4, or leave the key out, which means the same",
    }
}

/// What to do about a key that isn't read.
pub const OTHER_KEY: &str = "`overstored --help` lists the eight keys; see how this one is spelled";

/// What is wrong where memory was refused, and what to do.
pub const NO_ROOM: (&str, &str) = (
    "out of memory",
    "free some and start again; what was answered lasts",
);

/// What is wrong where a line couldn't be put, and what to do.
pub const NO_LINE: (&str, &str) = (
    "standard output can't be written",
    "see that it is open, and that there is room",
);

/// What is wrong where the places of standard streams can't be held, and what to do.
pub const NO_PLACES: (&str, &str) = (
    "it can't be opened, and without it a file of the store might be taken for standard output",
    "see that it is there, and that the server may open files",
);

/// What is wrong where there is no file of that name.
pub const NO_FILE: &str = "there is no such file";

/// What is wrong with a file that was no settings file and now is one, and what to do.
pub const CHANGED: (&str, &str) = ("it changed while it was read", "start again");

/// What is wrong where no server can listen at an address.
pub const LISTENING: &str = "can't listen there";

/// What is wrong where a server that listens can't accept connections.
pub const ACCEPTING: &str = "can't accept connections there";

/// What is wrong with an address that has no port, or no number for one.
pub const NO_ADDRESS: &str = "it is no address";

/// What to do about a door that failed for this reason.
pub fn hint_on_door(why: Option<ErrorKind>) -> &'static str {
    match why {
        Some(ErrorKind::InvalidInput) => "an address is HOST:PORT, as 127.0.0.1:7400",
        Some(ErrorKind::AddrInUse) => "stop what listens there, or take another port",
        Some(ErrorKind::AddrNotAvailable | ErrorKind::Uncategorized) => {
            "the host in `address` is to be a name or an address of this machine"
        }
        Some(ErrorKind::PermissionDenied) => "take a port from 1024 on",
        _ => "see that `address` is HOST:PORT of this machine, and start again",
    }
}

/// What is wrong with a file of a store, or with its folder, and what to do.
pub fn on_file(fault: FileFault) -> (&'static str, &'static str) {
    match fault {
        FileFault::NoFolder => (
            "there is no such folder",
            "make it, by `mkdir -m 700` as the server's user, or correct `book` and `blobs`",
        ),
        FileFault::NotMade => (
            "the server may not make files there",
            "give the folder to the server's user by `chown`, and see that there is room",
        ),
        FileFault::NoFile => (
            "it is no regular file",
            "take it away, or correct `book` and `blobs` in the settings",
        ),
        FileFault::Link => (
            "it is a symbolic link, and nothing is written through one",
            "name the file itself in `book` or `blobs`",
        ),
        FileFault::NotOurs => (
            "the server may not read and write it",
            "give it to the server's user by `chown`",
        ),
        FileFault::TwoNames => (
            "it is one file with the store's other file or with the settings",
            "name another file in `book` or `blobs`",
        ),
        FileFault::InUse => (
            "another process has it",
            "stop that process, which may be another server of this store",
        ),
    }
}

/// What is wrong with a book where both files of the store may be used, and what to do.
pub const FAILED: (&str, &str) = (
    "another process had it or the store's blobs, or one of them failed",
    "stop that process, or see that there is room and that the disk is well",
);

/// What to do where a store was begun and the keys may have had one before.
pub const TWO_STORES: &str =
    "where these keys had a store before, stop the server: read Restoring in OPERATING.md";

/// What is to come of a book that is of the first format, and what to do.
pub const OLDER: (&str, &str) = (
    "it is of an older format; its next update carries it over, and then no older program opens it",
    "keep copies of both files before that: read Stores of an older version in OPERATING.md",
);

/// What is wrong with a book where a write to the store's files failed, and what to do.
pub const FAILED_WRITE: (&str, &str) = (
    "a write to the store failed, so no update is accepted any more",
    "see that there is room and that the disk is well, and start the server again",
);

/// What is wrong with a book where a server ends with this status, and what to do.
pub fn on_store(status: u8) -> Option<(&'static str, &'static str)> {
    match status {
        8 => Some((
            "it is damaged or no store, or the store's blobs are damaged",
            "copy both files away; before you put copies of both in place read Restoring in OPERATING.md",
        )),
        9 => Some((
            "it is a store of other keys or of the other mode",
            "standard output says which; correct `surface`, `base_check` or `mode`",
        )),
        _ => None,
    }
}

/// How a session ended that didn't end between two frames, and at which byte, where that is known.
pub fn on_end(end: SessionEnd) -> Option<(&'static str, Option<u64>)> {
    match end {
        SessionEnd::End => None,
        SessionEnd::LinkFault => Some(("the connection failed", None)),
        SessionEnd::Bad { at } => Some(("what came is no frame", Some(at))),
        SessionEnd::Spent => Some(("it asked as often as a session may", None)),
        SessionEnd::Memory => Some(("out of memory", None)),
    }
}
