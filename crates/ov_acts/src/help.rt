//! The texts of help: each command with its words.

/// A command: its name, the words behind it, and what its help says. A word in brackets may be left
/// out.
pub struct Line {
    pub name: &'static str,
    pub words: &'static [&'static str],
    pub usage: &'static str,
    pub about: &'static str,
    pub after: &'static str,
}

// An example of a command, and the exit statuses.
macro_rules! after {
    ($name:literal, $example:literal) => {
        concat!(
            "Example: overctl ",
            $name,
            " ",
            $example,
            "\nExit status: 0 done, 2 words, 3 refused, 4 disk, 5 reading, 6 writing, 7 memory,\n",
            " 8 no server, 9 masters, 10 key file, 11 reply, 12 damage, 13 others, 14 length"
        )
    };
}

// A command of this name and these words, with the words of an example.
macro_rules! command {
    ($name:literal, [$($word:literal),*], $about:literal, $example:literal) => {
        Line {
            name: $name,
            words: &[$($word),*],
            usage: concat!("overctl ", $name $(, " ", $word)*),
            about: $about,
            after: after!($name, $example),
        }
    };
}

/// The commands.
pub static LINES: [Line; 15] = [
    command!(
        "enrol",
        ["ADDRESS", "KEYS", "USER"],
        "Add a user: `ok EPOCH`",
        "127.0.0.1:7400 keys.hex alice"
    ),
    command!(
        "create",
        ["ADDRESS", "KEYS", "FILE", "LIST", "PATH"],
        "Store bytes as a file for the users of a list: `ok EPOCH`",
        "127.0.0.1:7400 keys.hex report alice,bob report.txt"
    ),
    command!(
        "grant",
        ["ADDRESS", "KEYS", "USER", "FILE"],
        "Put a user onto a file's list: `ok EPOCH`",
        "127.0.0.1:7400 keys.hex carol report"
    ),
    command!(
        "revoke",
        ["ADDRESS", "KEYS", "USER", "FILE"],
        "Take a user off a file's list: `ok EPOCH`",
        "127.0.0.1:7400 keys.hex bob report"
    ),
    command!(
        "remove",
        ["ADDRESS", "KEYS", "FILE"],
        "Remove a file; its name is free again: `ok EPOCH`",
        "127.0.0.1:7400 keys.hex report"
    ),
    command!(
        "replace",
        ["ADDRESS", "KEYS", "FILE", "PATH"],
        "Give a file new bytes; its list stays: `ok EPOCH`",
        "127.0.0.1:7400 keys.hex report report.txt"
    ),
    command!(
        "list",
        ["ADDRESS", "KEYS", "FILE"],
        "Print a file's list: `list FILE NAMES`",
        "127.0.0.1:7400 keys.hex report"
    ),
    command!(
        "key",
        ["ADDRESS", "KEYS", "USER"],
        "Print the key line with which a user reads",
        "127.0.0.1:7400 keys.hex alice > alice.key"
    ),
    command!(
        "read",
        ["ADDRESS", "USERKEY", "FILE"],
        "Print a file's bytes, by a user's key line",
        "127.0.0.1:7400 alice.key report > report.txt"
    ),
    command!(
        "check",
        ["KEYS"],
        "Print the base master's check value, for a server's settings",
        "keys.hex"
    ),
    command!(
        "epoch",
        ["ADDRESS"],
        "Print the store's mode and epoch",
        "127.0.0.1:7400"
    ),
    command!(
        "users",
        ["ADDRESS"],
        "Print the users, one a line",
        "127.0.0.1:7400"
    ),
    command!(
        "files",
        ["ADDRESS", "[USER]"],
        "Print all lists, `list FILE NAMES`; or the files that list USER",
        "127.0.0.1:7400 bob"
    ),
    Line {
        name: "own",
        words: &[
            "ADDRESS", "KEYS", "BOOK", "MODE", "COMMAND", "[FIRST]", "[SECOND]", "[THIRD]",
        ],
        usage: "overctl own ADDRESS KEYS BOOK MODE COMMAND WORDS",
        about: "Send a command by the owner's book: `ok EPOCH`",
        after: concat!(
            "Example: overctl own 127.0.0.1:7400 keys.hex team full revoke bob report\n",
            "Exit status: 0 done, 2 words, 3 refused, 4 disk, 5 reading, 6 writing, 7 memory,\n",
            " 8 no server, 9 masters or mode, 10 key file, 11 reply, 14 length, 15 pending,\n",
            " 16 epochs differ, 17 the book's files, 18 no book, 19 refused by the server"
        ),
    },
    Line {
        name: "book",
        words: &["KEYS", "BOOK", "MODE", "QUESTION", "[NAME]"],
        usage: "overctl book KEYS BOOK MODE QUESTION [NAME]",
        about: "Ask the owner's book and no server: key lines, lists, what is pending",
        after: concat!(
            "Example: overctl book keys.hex team full key bob > bob.key\n",
            "Exit status: 0 done, 2 words, 3 refused, 5 reading, 6 writing, 7 memory,\n",
            " 9 masters or mode, 10 key file, 17 the book's files, 18 no book"
        ),
    },
];

/// What the program is.
pub const ABOUT: &str = "Owner and reader of an over-encrypted store on a server";

/// The words of the whole program.
pub const USAGE: &str = "overctl COMMAND ADDRESS KEYS WORDS";

/// What is below the help of the whole program.
pub const AFTER: &str = after!("enrol", "127.0.0.1:7400 keys.hex alice");

/// The version.
pub const VERSION: &str = "0.4.0";

/// What a word of a line is.
pub fn about_word(word: &str) -> &'static str {
    match word {
        "ADDRESS" => "where the server listens, as 127.0.0.1:7400",
        "KEYS" => "the file of both masters: two lines of 64 hexadecimal digits",
        "USERKEY" => "the file of a user's key line, as `overctl key` prints it",
        "LIST" => "users with commas between them, or - for nobody",
        "PATH" => "the file whose bytes are stored, or - for standard input",
        "USER" => "the user's name",
        "BOOK" => "the path of the book's two files, without .book and .blobs",
        "MODE" => "full or delta, the mode of the store",
        "COMMAND" => "enrol, create, grant, revoke, remove, replace or resume",
        "[FIRST]" | "[SECOND]" | "[THIRD]" => "a word of the command, as without a book",
        "QUESTION" => "key USER, list FILE, users, files, files USER, epoch or pending",
        "[NAME]" => "the user or the file that the question names",
        "[USER]" => "print only the names of the files that list this user",
        _ => "the file's name in the store",
    }
}

/// The command of this name.
pub fn line_of(name: &str) -> Option<&'static Line> {
    LINES.as_slice().iter().find(|line| line.name == name)
}
