//! Scripts, read item by item from any source, and the lines with which they are answered.
//!
//! [`Script::next`] gives the command of the next item, or how the reading ended: at the end of the
//! input, at a bad item and its line, at the limit of 268,435,456 bytes, or at a fault of the
//! source. From then on it answers the same and takes nothing. Its contract says so against the
//! grammar in `specs/`, which knows nothing of pieces or buffers:
//!
//! * `Items` says what an item is, and when bytes that follow could still make one, and
//!   `WrittenLists` how a list of names is written, of which each counts once;
//! * `Reading` says what the commands of a text are and how its reading ends; that each text has a
//!   reading, and only one, are the laws [`every_text_has_a_reading`] and [`one_reading`];
//! * `Saying` says what one call of `next` tells of the text, and `Taking` what it may take from
//!   the source: bytes are taken only while it isn't settled what comes next, a source that gave
//!   none isn't asked again, and none are lost at a fault;
//! * `Lines` gives the reply lines, which [`line`] appends;
//! * `Workload` says which commands the stated workload of a number is: [`Workload`] gives them one
//!   after another, and [`workload`] one of them. They are items' commands, by
//!   [`a_workload_says_items`].
//!
//! A command that `next` gives is that of some item, also where the source tells nothing
//! (`IsOfItem` in `Saying`); the laws in `proofs/CreateLaws` give from it that the names of a
//! `create` are names, distinct and short, and that its bytes, and those of a `replace`, are no more
//! than a file may have.
//!
//! Inside, a `Feed` is the source with the bytes that were taken and not yet used; `find` takes
//! bytes until it knows what line is at the front, by a `Front` that reads them one by one and
//! by the fewest bytes that its line still needs; `read_line` says what a whole line says;
//! `item_of` uses the line and the body behind it; and `Script` counts lines and room. All of them
//! answer `Ended` where no item is read, which `Script` keeps.
#![tactic(auto)]

ghost use Rattle.std.specs.Prelude.{◌≡◌, ◌+◌, ◌<◌, ℕ, List};
ghost use Rattle.ov_script.specs.declared.command.Command.{Command};
ghost use Rattle.ov_script.specs.declared.drawn.TheConstants.{MAX_WORKLOAD, WORKLOAD_USERS};
ghost use Rattle.ov_script.specs.Items.{IsItem};
ghost use Rattle.ov_script.specs.Reading.{Reads, Ending};
ghost use Rattle.ov_script.specs.Workload.{command_at};

mod body;
mod command;
mod drawing;
mod drawn;
mod drawn_command;
mod ended;
mod feed;
mod find;
mod first_line;
mod front;
mod item;
mod line_end;
mod list;
mod next;
mod reply;
mod script;
mod single;
mod stated;
mod words;

pub use command::Command;
pub use drawn::{MAX_WORKLOAD, WORKLOAD_USERS};
pub use feed::Buffer;
pub use list::list_of;
pub use next::{Next, ScriptFault};
pub use reply::{Reply, line};
pub use script::Script;
pub use single::workload;
pub use stated::Workload;

/// A text has one reading: its commands and its ending are determined.
pub fn one_reading()
    ensures { (line room : ℕ) (text : List ℕ) (some others : List Command) (ending other : Ending)
        → Reads line room text some ending → Reads line room text others other
        → (some ≡ others) × (ending ≡ other) }
{}

/// Every text has a reading.
pub fn every_text_has_a_reading()
    ensures { (line room : ℕ) (text : List ℕ)
        → (commands : List Command) × (ending : Ending) × Reads line room text commands ending }
{}

/// Each command of a workload is what some item of a script says.
pub fn a_workload_says_items()
    ensures { (number place : ℕ) → place < WORKLOAD_USERS + MAX_WORKLOAD
        → (item : List ℕ) × IsItem item (command_at number place) }
{}
