//! What an update leaves in the notes.
ghost use Rattle.std.specs.Prelude.{◌≡◌, ◌≤◌, ◌-◌, ◌++◌, ◌∷◌, [], None, option_map, vec_capacity, vec_len};
ghost use Rattle.ov_history.specs.Places.{change_at};
ghost use Rattle.ov_tidy.specs.Thins.{marked, plain_last, plain_notes};

use crate::note::Last;

/// What comes of an update to the notes.
#[derive(Clone, Copy, Debug, PartialEq, Eq)]
pub(crate) enum Mark {
    /// They stay.
    Same,
    /// There is one more file.
    More,
    /// The note of a file is this one from now on.
    At(u32, Option<Last>),
    /// The file has no note from now on, and there is one more file.
    Moved(u32),
}

/// What comes of an update: the place of the first of the idle pair that it ends, if it ends one, and
/// what comes of the notes.
#[derive(Clone, Copy, Debug, PartialEq, Eq)]
pub(crate) struct Look {
    pub pair: Option<u32>,
    pub mark: Mark,
}

// One more file, of which nothing is noted.
fn push_none(notes: &mut Vec<Option<Last>>)
    requires { 1 ≤ vec_capacity notes.old - vec_len notes.old }
    ensures { plain_notes notes.new.items ≡ plain_notes notes.old.items ++ None ∷ [] }
{
    notes.push_reserved(None);
}

// The note of the file of this number, if there is one of this number, is this from now on.
fn set_note(notes: &mut Vec<Option<Last>>, file: u32, note: Option<Last>)
    ensures notes { plain_notes notes.new.items
        ≡ change_at (λ _. option_map plain_last note) file (plain_notes notes.old.items) }
    ensures room { vec_capacity notes.old - vec_len notes.old
        ≤ vec_capacity notes.new - vec_len notes.new }
{
    if (file as usize) < notes.len() {
        notes[file as usize] = note;
    }
}

/// Changes the notes so.
pub(crate) fn put_mark(notes: &mut Vec<Option<Last>>, mark: Mark)
    requires { 1 ≤ vec_capacity notes.old - vec_len notes.old }
    ensures { plain_notes notes.new.items ≡ marked mark (plain_notes notes.old.items) }
{
    match mark {
        Mark::Same => {}
        Mark::More => push_none(notes),
        Mark::At(file, note) => set_note(notes, file, note),
        Mark::Moved(file) => {
            set_note(notes, file, None);
            push_none(notes);
        }
    }
}
