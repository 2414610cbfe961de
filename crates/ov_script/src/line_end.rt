//! Whether a line may go on, of which the front is read.
ghost use Rattle.std.specs.Prelude.{◌≡◌, ◌≤◌};
ghost use Rattle.ov_script.specs.LineEnds.{fewest_after, fewest_behind, fewest_from, fewest_more, may_go_on};

use crate::front::{Front, Stem, Then, Word, spelling};
use ov_base::limits::MAX_LINE_BYTES;

// The fewest bytes that may follow a name.
fn fewest_after(next: Then) -> usize
    ensures { result ≡ fewest_after next }
{
    match next {
        Then::End => 0,
        Then::LastName | Then::Size | Then::NextReader => 2,
        Then::Readers => 4,
    }
}

// The fewest bytes that may follow a word.
fn fewest_behind(word: Word) -> usize
    ensures { result ≡ fewest_behind word }
{
    match word {
        Word::Epoch => 0,
        Word::Enrol | Word::Remove | Word::List => 1,
        Word::Grant | Word::Revoke | Word::Replace | Word::Read => 3,
        Word::Create => 5,
    }
}

// The fewest bytes that may follow what several words begin with.
fn fewest_from(stem: Stem) -> usize
    ensures { result ≡ fewest_from stem }
{
    match stem {
        Stem::E => 4,
        Stem::R => 7,
        Stem::Re => 6,
    }
}

// The fewest bytes that make a whole line of the front, if any do.
fn fewest_more(front: Front) -> Option<usize>
    ensures { result ≡ fewest_more front }
{
    match front {
        Front::Start => Some(5),
        Front::InStem(stem) => Some(fewest_from(stem)),
        Front::InWord { word, count } => {
            Some(spelling(word).len().saturating_sub(count) + fewest_behind(word))
        }
        Front::InName { next, count: 0 } => Some(fewest_after(next) + 1),
        Front::InName { next, .. } => Some(fewest_after(next)),
        Front::AtReaders => Some(3),
        Front::Nobody => Some(2),
        Front::InSize(None) => Some(1),
        Front::InSize(Some(_)) | Front::Done => Some(0),
        Front::Never => None,
    }
}

/// Whether a line may begin with this front, which has this many bytes.
pub fn may_go_on(front: Front, count: usize) -> bool
    ensures { result ≡ may_go_on front count }
{
    match fewest_more(front) {
        Some(more) => count < MAX_LINE_BYTES && count + more < MAX_LINE_BYTES,
        None => false,
    }
}
