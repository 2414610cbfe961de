//! What an update does to files.
ghost use Rattle.std.specs.Prelude.{◌≡◌};
ghost use Rattle.ov_history.specs.Asking.{file_named};
ghost use Rattle.ov_history.specs.Catalogue.{numbered_at};
ghost use Rattle.ov_record.specs.Briefs.{plain_brief};
ghost use Rattle.ov_tidy.specs.Thins.{naming_of};

use crate::thin::Thin;
use ov_base::Name;
use ov_record::Brief;
use ov_state::WIDTH;

/// What an update does to files, by their numbers.
#[derive(Clone, Copy, Debug, PartialEq, Eq)]
pub(crate) enum Naming {
    /// A user joins.
    Joined,
    /// A file is made.
    Made,
    /// A grant or a revocation, which publishes an access token or doesn't.
    Listed {
        file: u32,
        user: u32,
        grants: bool,
        publishes: bool,
    },
    /// A file is removed.
    Gone(u32),
    /// A file is replaced by another.
    Anew(u32),
}

impl Thin {
    // The number of the file of this name, or one past the last that was given out.
    fn file_or_next(&self, name: &Name) -> u32
        ensures { result ≡ file_named self.now.catalogue name.now }
    {
        match self.state.file_number(name) {
            Some(file) => file,
            None => self.state.sizes().files,
        }
    }

    /// What the update does to files.
    pub(crate) fn naming(&self, update: &Brief<WIDTH>) -> Naming
        ensures { result ≡ naming_of (numbered_at self.now.catalogue (plain_brief update.now)) }
    {
        match update {
            Brief::Enrol { .. } => Naming::Joined,
            Brief::Create { .. } => Naming::Made,
            Brief::Grant { user, file, token } => Naming::Listed {
                file: *file,
                user: *user,
                grants: true,
                publishes: token.is_some(),
            },
            Brief::Revoke { user, file } => Naming::Listed {
                file: *file,
                user: *user,
                grants: false,
                publishes: false,
            },
            Brief::Remove { file } => Naming::Gone(*file),
            Brief::Replace { name, .. } => Naming::Anew(self.file_or_next(name)),
        }
    }
}
