//! What an audit finds.
ghost use Rattle.std.specs.Prelude.{◌≡◌, ◌++◌, [], OnOk, option_map};
ghost use Rattle.ov_exposure.specs.Auditing.{cause_of, found_as};
ghost use Rattle.ov_audit.specs.Findings.{plain_finding, plain_findings, plain_why};
ghost use Rattle.ov_audit.specs.Notes.{plain_note};

use crate::note::Note;
use ov_base::{Memory, Name};
use std::marker::Model;

/// Why users who kept everything can read a file.
#[derive(Clone, Copy, Debug, PartialEq, Eq)]
pub enum Cause {
    /// One of them was in its list.
    Listed,
    /// It had no surface once, and one of them holds its base node now.
    Bare,
    /// The server helps them, and one of them holds its base node now.
    Server,
}

/// A file that users can read, why, and since which epoch.
#[derive(Drop)]
pub struct Finding {
    /// The file's number.
    pub file: u32,
    /// Its name. It may be another file's by now, where this one is gone.
    pub name: Name,
    /// Why it can be read.
    pub cause: Cause,
    /// The first epoch at which one of the users was in its list, or at which it had no surface; by
    /// the server's help, the epoch of its making.
    pub epoch: u32,
}

/// Findings in the order of the files' numbers.
#[derive(Drop)]
pub struct Findings {
    list: Vec<Finding>,
}

impl Model for Findings {
    ghost use Rattle.std.specs.Prelude.{List};
    ghost use Rattle.ov_audit.specs.Findings.{plain_findings};
    ghost use Rattle.ov_exposure.specs.Auditing.{Finding};

    ghost Value = { List Finding };

    ghost view = { λ f. plain_findings f.list.items };
}

impl Findings {
    /// These findings.
    pub(crate) fn from_vec(list: Vec<Finding>) -> Findings
        ensures { result ≡ plain_findings list.items }
    {
        Findings { list }
    }

    /// The findings, in order.
    pub fn as_slice(&self) -> &[Finding]
        ensures { plain_findings result.now ≡ self.now }
    {
        self.list.as_slice()
    }
}

// Why the file of this note is exposed, and since which epoch, if it is.
fn why(note: &Note, server: bool) -> Option<(Cause, u32)>
    ensures { option_map plain_why result ≡ cause_of server (plain_note note.now) }
{
    match (note.listed, note.bare) {
        (Some(epoch), _) => Some((Cause::Listed, epoch)),
        (None, Some(epoch)) if note.held => Some((Cause::Bare, epoch)),
        (None, None) if note.held && server => Some((Cause::Server, note.made)),
        _ => None,
    }
}

/// Appends the finding of the file of this number and note, where it is exposed.
pub(crate) fn push_found(
    note: &Note,
    file: u32,
    server: bool,
    list: &mut Vec<Finding>,
) -> Result<(), Memory>
    ensures { let plain = plain_note note.now in OnOk result (plain_findings list.new.items
        ≡ plain_findings list.old.items ++ found_as file plain.name (cause_of server plain) []) }
{
    match why(note, server) {
        Some((cause, epoch)) => {
            list.push(Finding {
                file,
                name: note.name.copy(),
                cause,
                epoch,
            })?;
            Ok(())
        }
        None => Ok(()),
    }
}
