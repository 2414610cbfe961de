//! What is wrong and what to do, for standard error.
use crate::lacks::Lack;
use ov_answering::Status;
use ov_base::limits::MAX_LINE_BYTES;
use ov_files::FileFault;

/// Where the program was when it ended.
#[derive(Clone, Copy, Debug, PartialEq, Eq)]
pub enum Stage {
    /// The program was printing a text about itself.
    Telling,
    /// There was a `--quiet` among the program's words that doesn't belong there.
    Quiet,
    /// There was no key file.
    NoKeys,
    /// The key file couldn't be read.
    UnreadKeys,
    /// The program was asked for a load.
    Load,
    /// The program was asked for an audit.
    Audit,
    /// The program was asked for a shorter store.
    Tidy,
    /// The program had put no reply.
    Unanswered,
    /// The program had put replies.
    Answered,
}

const WORDS: &str = "unknown words; use `overstore run full`, `overstore run delta`, \
    `overstore load full|delta NUMBER COUNT`, `overstore audit LIST [server]`, `overstore tidy` or \
    `overstore --help`";

const QUIET_WORD: &str = "`--quiet` stands before `run`, and nowhere else: \
    `overstore --quiet run full`";

const LOAD_WORDS: &str = "unknown words behind `load`; it takes full or delta, a number below \
    18446744073709551616 without leading zeros, and a count of 1 to 20000";

const AUDIT_WORDS: &str = "unknown words behind `audit`; it takes a list of names, with one comma \
    between two, and then nothing or `server`";

const TIDY_WORDS: &str = "unknown words behind `tidy`, which takes none";

const BAD_LINE: &str = "standard output names a bad line of the script, where one command stands \
    on each line: `enrol USER`, `list FILE`, `read USER FILE`, `grant USER FILE`, \
    `revoke USER FILE`, `remove FILE`, `epoch`, or `create FILE LIST LENGTH` or \
    `replace FILE LENGTH` with so many bytes and an LF behind it; overstore-script(5) has their \
    forms; what was answered before lasts; correct it, and run from there on as a script of its own";

const DISK_AT_FIRST: &str = "store.book or store.blobs failed or is in use; nothing was answered; \
    ask for the epoch before you run the script again";

const DISK: &str = "store.book or store.blobs failed; what was answered lasts; ask for the epoch, \
    and run the rest";

const LOAD_DISK: &str = "store.book or store.blobs failed or is in use; what the load did before \
    lasts";

const AUDIT_DISK: &str = "store.book or store.blobs failed or is in use; nothing was changed; run \
    the audit again";

const TIDY_DISK: &str =
    "a file of the store or of the new one failed or is in use; the store is as it \
    was; remove tidy.book and tidy.blobs, and run again";

const NOTHING_CHANGED: &str = "nothing was changed";

const STORE_LASTS: &str = "the store is as it was";

const LOAD_LASTS: &str = "what the load did before lasts";

const NOTHING_LASTS: &str = "nothing was answered";

const ANSWERS_LAST: &str = "what was answered lasts; ask for the epoch, and run the rest";

const NOT_MADE: &str = "it can't be made in this folder; see that you may write here, and that \
    there is room";

const NO_FILE: &str = "it is no regular file; take it away, and run again";

const LINK: &str =
    "it is a symbolic link, and nothing is written through one; put the file itself in \
    its place, and run again";

const TWO_NAMES: &str =
    "it is one file with another that the program uses; put a file of its own in \
    its place, and run again";

const IN_USE: &str = "another program has it in use; end that, and run again";

const NOT_YOURS: &str = "you may not read and write it; run as its owner";

const NO_KEYS: &str = "there is no keys.hex in this folder; no command was read and nothing was \
    answered; bring the store's own, or make one for a new store: (umask 077; set -C; od -An -v \
    -tx1 -N64 /dev/urandom | tr -d ' \\n' | fold -w 64 > keys.hex)";

const UNREAD_KEYS: &str = "keys.hex can't be read; no command was read and nothing was answered; \
    see that it is a file that you may read, and run again";

const READ_AT_FIRST: &str = "reading standard input failed; nothing was answered; see where the \
    script comes from, and run it again";

const READ: &str = "reading standard input failed; what was answered lasts; see where the script \
    comes from, and run the rest";

const TELLING: &str = "writing to standard output failed";

const WRITE: &str = "writing the replies or trace.bin failed; what was put lasts; ask for the \
    epoch, and run the rest";

const LOAD_WRITE: &str = "writing the lines or trace.bin failed; what the load did lasts";

const AUDIT_WRITE: &str = "writing the findings failed; nothing was changed; run the audit again";

const TIDY_WRITE: &str =
    "writing the lines failed; the new store may be whole all the same; remove \
    tidy.book and tidy.blobs, and run again";

const READER_IS_GONE: &str = "whoever read the replies closed their end; what was put lasts; ask \
    for the epoch, and run the rest";

const LOAD_READER_IS_GONE: &str = "whoever read the lines closed their end; what the load did \
    lasts";

/// What is wrong where the places of standard streams can't be held.
pub const NO_PLACES: &str =
    "/dev/null can't be opened, and without it a file of the store might be \
    taken for standard output; nothing was read and nothing was written; see that it is there, and \
    that you may open files";

/// What to do where a store was begun and the keys may have had one before.
pub const TWO_STORES: &str =
    "where these keys had a store before, run nothing more: read Restoring \
    in OPERATING.md";

/// What is said of a book that is of the first format and has no step record.
pub const OLDER: &str =
    "is of an older format; its next update carries it over, and then no older program opens it";

/// What to do before an update that carries the store over.
pub const KEEP_A_COPY: &str =
    "keep a copy of this folder before that update: read Stores of an older version in OPERATING.md";

const MEMORY_AT_FIRST: &str = "the system refused memory; nothing was answered; free some, and \
    ask for the epoch before you run the script again";

const MEMORY: &str = "the system refused memory; what was answered lasts; free some, ask for the \
    epoch, and run the rest";

const LOAD_MEMORY: &str = "the system refused memory; what the load did before lasts; free some";

const AUDIT_MEMORY: &str = "the system refused memory; nothing was changed; free some, and run the \
    audit again";

const TIDY_MEMORY: &str = "the system refused memory; the store is as it was; free some, remove \
    tidy.book and tidy.blobs, and run again";

const NOT_EMPTY: &str =
    "there is a tidy.book in this folder that isn't empty; the store is as it was; \
    remove tidy.book and tidy.blobs, unless they are the shorter store that you want to put in place, \
    and run again";

const NOT_A_STORE: &str = "store.book is damaged or no store, or store.blobs is damaged; before \
    you put copies of both in place read Restoring in OPERATING.md";

const OTHER_STORE: &str = "store.book is of other keys or the other mode; use its keys.hex and \
    its mode";

const BAD_KEYS: &str = "keys.hex isn't two different lines of 64 hexadecimal digits; no command \
    was read and nothing was answered; put the right one in its place, and run again";

const LONG: &str = "the script is past 268435456 bytes; what was answered lasts; run what follows \
    as a script of its own";

const WRONG_TAG: &str = "a file isn't what its owner sent; run again, and if it stays so put \
    good copies of store.book and store.blobs in place";

// On words that aren't known.
fn on_words(stage: Stage) -> &'static str {
    match stage {
        Stage::Quiet => QUIET_WORD,
        Stage::Load => LOAD_WORDS,
        Stage::Audit => AUDIT_WORDS,
        Stage::Tidy => TIDY_WORDS,
        _ => WORDS,
    }
}

// On a read that failed.
fn on_read(stage: Stage) -> &'static str {
    match stage {
        Stage::NoKeys => NO_KEYS,
        Stage::UnreadKeys => UNREAD_KEYS,
        Stage::Answered => READ,
        _ => READ_AT_FIRST,
    }
}

// On a write that failed.
fn on_write(stage: Stage, reader_is_gone: bool) -> &'static str {
    match (stage, reader_is_gone) {
        (Stage::Telling, _) => TELLING,
        (Stage::Load, false) => LOAD_WRITE,
        (Stage::Load, true) => LOAD_READER_IS_GONE,
        (Stage::Audit, _) => AUDIT_WRITE,
        (Stage::Tidy, _) => TIDY_WRITE,
        (_, false) => WRITE,
        (_, true) => READER_IS_GONE,
    }
}

// The one of five texts that is right there.
fn by_work(
    stage: Stage,
    load: &'static str,
    audit: &'static str,
    tidy: &'static str,
    at_first: &'static str,
    behind_some: &'static str,
) -> &'static str {
    match stage {
        Stage::Load => load,
        Stage::Audit => audit,
        Stage::Tidy => tidy,
        Stage::Answered => behind_some,
        _ => at_first,
    }
}

// The number that `on_lack` has in a text.
const _: () = prove!(MAX_LINE_BYTES == 70_000);

/// What a bad line lacks.
pub fn on_lack(lack: Lack) -> &'static str {
    match lack {
        Lack::Text => "nothing stands on it",
        Lack::Short => "it has more than 70000 bytes",
        Lack::LineFeedAlone => "a CR stands on it, where an LF alone ends a line",
        Lack::Command => concat!(
            "it begins with none of `enrol USER`, `list FILE`, `read USER FILE`, ",
            "`grant USER FILE`, `revoke USER FILE`, `remove FILE`, `epoch`, ",
            "`create FILE LIST LENGTH` and `replace FILE LENGTH`"
        ),
        Lack::Words => "it doesn't have just the words of its command, with one space between two",
        Lack::Name => {
            "a name has 1 to 64 of a-z, 0-9, `.`, `_` and `-`, and begins with a letter or a digit"
        }
        Lack::List => "LIST is `-`, or names with one comma between two",
        Lack::Length => "LENGTH is a decimal number up to 16777216 with no 0 in front",
        Lack::End => "the script stops before the LF of the line",
        Lack::Bytes => "not just LENGTH bytes and an LF stand behind it",
    }
}

/// What to do about a bad line.
pub const AFTER_BAD_LINE: &str = "overstore-script(5) has the forms of lines; what was answered \
    before lasts; correct it, and run from there on as a script of its own";

/// What to say of a file of this folder that can't be used.
pub fn on_file(fault: FileFault) -> &'static str {
    match fault {
        FileFault::NoFolder | FileFault::NotMade => NOT_MADE,
        FileFault::NoFile => NO_FILE,
        FileFault::Link => LINK,
        FileFault::NotOurs => NOT_YOURS,
        FileFault::TwoNames => TWO_NAMES,
        FileFault::InUse => IN_USE,
    }
}

/// What an end leaves that was due to a file which can't be used.
pub fn what_lasts(stage: Stage) -> &'static str {
    by_work(
        stage,
        LOAD_LASTS,
        NOTHING_CHANGED,
        STORE_LASTS,
        NOTHING_LASTS,
        ANSWERS_LAST,
    )
}

/// What to say of an end with this status.
pub fn advice_on(status: Status, stage: Stage, reader_is_gone: bool) -> Option<&'static str> {
    match status {
        Status::Done => None,
        Status::Usage => Some(on_words(stage)),
        Status::BadLine => Some(BAD_LINE),
        Status::DiskFault => Some(by_work(
            stage,
            LOAD_DISK,
            AUDIT_DISK,
            TIDY_DISK,
            DISK_AT_FIRST,
            DISK,
        )),
        Status::ReadFault => Some(on_read(stage)),
        Status::WriteFault => Some(on_write(stage, reader_is_gone)),
        Status::OutOfMemory => Some(by_work(
            stage,
            LOAD_MEMORY,
            AUDIT_MEMORY,
            TIDY_MEMORY,
            MEMORY_AT_FIRST,
            MEMORY,
        )),
        Status::NotAStore => Some(NOT_A_STORE),
        Status::OtherStore => Some(OTHER_STORE),
        Status::BadKeys => Some(BAD_KEYS),
        Status::Long => Some(LONG),
        Status::WrongTag => Some(WRONG_TAG),
        Status::NotEmpty => Some(NOT_EMPTY),
    }
}
