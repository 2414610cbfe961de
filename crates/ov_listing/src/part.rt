//! The parts of the catalogue that have names.
ghost use Rattle.std.specs.Prelude.{◌≡◌, ◌+◌};
ghost use Rattle.ov_listing.specs.Questions.{most_in, part_number};

use ov_base::limits::{MAX_FILES, MAX_USERS};

/// A part of the catalogue whose entries begin with names, but for those of files that are gone.
#[derive(Clone, Copy, Debug, PartialEq, Eq)]
pub enum Part {
    /// The users.
    Users,
    /// The files.
    Files,
}

impl Part {
    /// The number that a request has for the part.
    pub fn number(self) -> u8
        ensures { result ≡ part_number self }
    {
        match self {
            Part::Users => 1,
            Part::Files => 5,
        }
    }

    /// How many pages are asked for at most: one more than it can have.
    pub fn pages(self) -> u32
        ensures { result ≡ most_in self + 1 }
    {
        match self {
            Part::Users => MAX_USERS + 1,
            Part::Files => MAX_FILES + 1,
        }
    }
}
