//! What a page of the catalogue shows.

use ov_base::Name;

/// What an entry of the users or of the files shows.
#[derive(Drop)]
pub enum Shown {
    /// The name of a user, or of a file.
    Named { name: Name },
    /// That a file is gone.
    Gone,
}
