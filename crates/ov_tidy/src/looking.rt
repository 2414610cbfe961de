//! What is looked at of a catalogue before an update is made in it.
ghost use Rattle.std.specs.Prelude.{◌≡◌, ◌<◌, ◌*◌, ◌||◌, false, is_some, option_map, Some, true};
ghost use Rattle.ov_history.specs.Catalogue.{outline};
ghost use Rattle.ov_history.specs.Layers.{holders, list_in, node_of};
ghost use Rattle.ov_history.specs.Places.{living_at};
ghost use Rattle.ov_state.specs.declared.state.TheConstants.{WIDTH};
ghost use Rattle.ov_thinning.specs.Notes.{ends_pair, has_node, list_by, noted, would_be_bare};
ghost use Rattle.ov_tidy.specs.Thins.{CanLook, marked, notes_by, pair_by, pair_of, plain_last};
ghost use Rattle.ov_tidy.specs.declared.naming.Naming.TheVariants.{Listed};

use crate::marks::{Look, Mark};
use crate::naming::Naming;
use crate::note::{Last, differ};
use crate::thin::Thin;
use ov_base::{Mode, UserSet};
use ov_graph::Graph;
use ov_state::WIDTH;

impl Thin {
    // Whether some surface node has the set.
    fn is_there(&self, set: &UserSet<WIDTH>) -> bool
        ensures { result ≡ has_node self.now.catalogue.surface.sets set.now }
    {
        self.state.surface().find(set).is_some()
    }

    // Whether the file, which is there, would be bare with this list.
    fn would_be_bare(&self, file: u32, list: &UserSet<WIDTH>) -> bool
        requires { is_some (living_at self.now.catalogue.files file) ≡ true }
        ensures { result ≡ would_be_bare (outline self.now.catalogue) file list.now }
    {
        match self.state.mode() {
            Mode::Full => false,
            Mode::Delta => *list == self.holders_of(file),
        }
    }

    // The holders of the base node of the file, which is there.
    fn holders_of(&self, file: u32) -> UserSet<WIDTH>
        requires { is_some (living_at self.now.catalogue.files file) ≡ true }
        ensures { let y = outline self.now.catalogue in result ≡ holders y (node_of y file) }
    {
        self.state.known();
        match self.state.file_at(file) {
            Some(entry) => self.state.holders(entry.node),
            None => unreachable!(),
        }
    }

    // The list of the file, which is there, with the user or without.
    fn list_by(&self, file: u32, user: u32, grants: bool) -> UserSet<WIDTH>
        requires there { is_some (living_at self.now.catalogue.files file) ≡ true }
        requires user { user < 64 * WIDTH }
        ensures { result ≡ list_by grants (list_in (outline self.now.catalogue) file) user }
    {
        let list = self.state.list_of(file);
        if grants {
            list.with(user)
        } else {
            list.without(user)
        }
    }

    // The note of the file of this number.
    fn note_of(&self, file: u32) -> Option<Last>
        ensures { option_map plain_last result ≡ living_at self.now.notes file }
    {
        match self.notes.get(file as usize) {
            Some(note) => *note,
            None => None,
        }
    }

    // Whether the list of the file, which is there, was known to be a surface set, or would be bare.
    fn needs_none(&self, known: bool, file: u32, list: &UserSet<WIDTH>) -> bool
        requires { is_some (living_at self.now.catalogue.files file) ≡ true }
        ensures { result ≡ (known || would_be_bare (outline self.now.catalogue) file list.now) }
    {
        if known {
            return true;
        }
        self.would_be_bare(file, list)
    }

    // Whether a grant or a revocation ends an idle pair with this update of its file.
    fn ends_with(&self, last: Last, file: u32, user: u32, grants: bool) -> bool
        requires there { is_some (living_at self.now.catalogue.files file) ≡ true }
        requires user { user < 64 * WIDTH }
        ensures { result
            ≡ ends_pair (outline self.now.catalogue) (Some (plain_last last)) grants user file }
    {
        if !differ(last.grants, grants) {
            return false;
        }
        if last.user != user {
            return false;
        }
        if !self.needs_none(last.before, file, &self.list_by(file, user, grants)) {
            return false;
        }
        self.needs_none(last.after, file, &self.state.list_of(file))
    }

    // The note of a grant or a revocation of this place.
    fn noted(&self, file: u32, user: u32, grants: bool) -> Last
        requires there { is_some (living_at self.now.catalogue.files file) ≡ true }
        requires user { user < 64 * WIDTH }
        ensures { Some (plain_last result)
            ≡ noted false (outline self.now.catalogue) self.now.taken grants user file }
    {
        Last {
            place: self.taken,
            user,
            grants,
            before: self.is_there(&self.state.list_of(file)),
            after: self.is_there(&self.list_by(file, user, grants)),
        }
    }

    // The place of the first of the idle pair that this grant or revocation ends, which publishes
    // nothing.
    fn partner(&self, file: u32, user: u32, grants: bool) -> Option<u32>
        requires there { is_some (living_at self.now.catalogue.files file) ≡ true }
        requires user { user < 64 * WIDTH }
        ensures { result ≡ pair_by (outline self.now.catalogue) (living_at self.now.notes file)
            false grants user file }
    {
        match self.note_of(file) {
            Some(last) => {
                if self.ends_with(last, file, user, grants) {
                    Some(last.place)
                } else {
                    None
                }
            }
            None => None,
        }
    }

    // What comes of this grant or revocation.
    fn look_at(&self, file: u32, user: u32, grants: bool, publishes: bool) -> Look
        requires there { is_some (living_at self.now.catalogue.files file) ≡ true }
        requires user { user < 64 * WIDTH }
        ensures pair { result.pair ≡ pair_by (outline self.now.catalogue)
            (living_at self.now.notes file) publishes grants user file }
        ensures mark { marked result.mark self.now.notes
            ≡ notes_by (outline self.now.catalogue) self.now.notes self.now.taken
            (Listed file user grants publishes) }
    {
        if publishes {
            return Look {
                pair: None,
                mark: Mark::At(file, None),
            };
        }
        match self.partner(file, user, grants) {
            Some(first) => Look {
                pair: Some(first),
                mark: Mark::At(file, None),
            },
            None => Look {
                pair: None,
                mark: Mark::At(file, Some(self.noted(file, user, grants))),
            },
        }
    }

    /// What comes of an update that does this.
    pub(crate) fn look(&self, naming: Naming) -> Look
        requires { CanLook self.now.catalogue naming }
        ensures pair { result.pair ≡ pair_of (outline self.now.catalogue) self.now.notes naming }
        ensures mark { marked result.mark self.now.notes
            ≡ notes_by (outline self.now.catalogue) self.now.notes self.now.taken naming }
    {
        match naming {
            Naming::Joined => Look {
                pair: None,
                mark: Mark::Same,
            },
            Naming::Made => Look {
                pair: None,
                mark: Mark::More,
            },
            Naming::Listed {
                file,
                user,
                grants,
                publishes,
            } => { self.look_at(file, user, grants, publishes) }
            Naming::Gone(file) => Look {
                pair: None,
                mark: Mark::At(file, None),
            },
            Naming::Anew(file) => Look {
                pair: None,
                mark: Mark::Moved(file),
            },
        }
    }
}
