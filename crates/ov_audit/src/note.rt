//! What is noted of a file.
ghost use Rattle.std.specs.Prelude.{◌≡◌, ◌≤◌, OnErr, OnOk, length, option_map};
ghost use Rattle.ov_base.specs.declared.limits.TheConstants.{MAX_FILES};
ghost use Rattle.ov_exposure.specs.Auditing.{MayFollow, is_bare, noted};
ghost use Rattle.ov_audit.specs.Looks.{looked_all, looked_by, note_of, with_new};
ghost use Rattle.ov_audit.specs.Notes.{plain_note, plain_notes};
ghost use Rattle.ov_state.specs.Entries.{plain_file};

use crate::marks::{Marks, mark_at};
use ov_base::{Memory, Name};
use ov_state::{Catalogue, FileEntry};

/// What is noted of a file: its name and base node, the epoch of its making, the first epochs at
/// which one of the users was in its list and at which it had no surface, and whether one of them
/// holds the node now.
#[derive(Drop)]
pub(crate) struct Note {
    pub name: Name,
    pub node: u32,
    pub made: u32,
    pub listed: Option<u32>,
    pub bare: Option<u32>,
    pub held: bool,
}

// The epoch that was noted, and where there is none this one, if it is so now.
fn noted(now: bool, epoch: u32, before: Option<u32>) -> Option<u32>
    ensures { result ≡ noted now epoch before }
{
    match before {
        Some(first) => Some(first),
        None if now => Some(epoch),
        None => None,
    }
}

// Whether a file that is there has no surface.
fn is_bare(file: Option<&FileEntry>) -> bool
    ensures { result ≡ is_bare (option_map (λ f. plain_file f.now) file.entry) }
{
    match file {
        None => false,
        Some(file) => file.surface.is_none(),
    }
}

impl Note {
    // The note of a file that was made at this epoch, before any more is noted.
    fn new(file: &FileEntry, made: u32) -> Note
        ensures { plain_note result ≡ note_of made (plain_file file.now) }
    {
        Note {
            name: file.name.copy(),
            node: file.node,
            made,
            listed: None,
            bare: None,
            held: false,
        }
    }

    // Looks at the file at this epoch. Whether the node is held is asked of files that are gone too:
    // users who come to hold it later can read such a file as they can any other.
    fn look(&mut self, file: Option<&FileEntry>, epoch: u32, marks: &Marks)
        ensures { plain_note self.new ≡ looked_by marks.now.held.items marks.now.covered.items epoch
            (option_map (λ f. plain_file f.now) file.entry) (plain_note self.old) }
    {
        self.listed = noted(marks.is_listed(file), epoch, self.listed);
        self.bare = noted(is_bare(file), epoch, self.bare);
        self.held = mark_at(&marks.held, self.node);
    }
}

/// Appends the note of the file that is new in this state, where there is one.
pub(crate) fn push_new(notes: &mut Vec<Note>, state: &Catalogue) -> Result<(), Memory>
    requires { MayFollow (plain_notes notes.old.items) state.now.catalogue }
    ensures noted { OnOk result (plain_notes notes.new.items
        ≡ with_new state.now.catalogue (plain_notes notes.old.items)) }
    ensures kept { OnErr result (notes.new.items ≡ notes.old.items) }
{
    state.known();
    match state.file_at(notes.len() as u32) {
        Some(file) => {
            notes.push(Note::new(file, state.epoch()))?;
            Ok(())
        }
        None => Ok(()),
    }
}

/// Looks at each file that was noted.
pub(crate) fn look_at_all(notes: &mut Vec<Note>, state: &Catalogue, marks: &Marks)
    requires { length notes.old.items ≤ MAX_FILES }
    ensures { let c = state.now.catalogue in
        plain_notes notes.new.items ≡ looked_all marks.now.held.items marks.now.covered.items
        c.epoch c.files 0 (plain_notes notes.old.items) }
{
    for i in 0..notes.len() {
        notes[i].look(state.file_at(i as u32), state.epoch(), marks);
    }
}
