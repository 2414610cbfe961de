//! What to do where a server refuses a command.

use ov_base::Refusal;

/// What is to be done about a refusal. DIAGNOSTICS of overctl(1) has the same words.
pub fn step_for(refusal: Refusal) -> &'static str {
    match refusal {
        Refusal::Taken => concat!(
            "it is there: nothing is to be done where the command was a repeated one; ",
            "else take another name"
        ),
        Refusal::NoUser => "correct the name, or enrol the user first",
        Refusal::NoFile => concat!(
            "the file isn't there: nothing is to be done where it was removed; ",
            "else correct the name, or create the file first"
        ),
        Refusal::NoPath => "the owner puts the reader on the file's list with `overctl grant`",
        Refusal::Listed => "the user is on the file's list already: nothing is to be done",
        Refusal::NotListed => concat!(
            "the user isn't on the file's list: nothing is to be done, ",
            "unless `overctl list` shows that another name or another file was meant"
        ),
        Refusal::UsersFull | Refusal::FilesFull => {
            "no more fit into the store: begin another, with keys and a server of its own"
        }
        Refusal::BytesFull => concat!(
            "so many bytes don't fit into the store: store fewer, remove files, ",
            "or begin another, with keys and a server of its own"
        ),
        Refusal::NodesFull => concat!(
            "the store has no room for another list: a list that was there before needs none; ",
            "a revocation that is refused leaves the user on the list, ",
            "so remove the file, and create it in another store for those who are left"
        ),
        Refusal::Spent => "the store's last epoch is reached: begin another store",
    }
}
