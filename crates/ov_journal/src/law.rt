//! What a Book can be.
ghost use Rattle.ov_journal.specs.Book.{HeadersAreSpelledApart, StepSaysNothing};
ghost use Rattle.ov_journal.specs.Standing.{IsOneThing};

/// No Book is unborn and a store, and none is a store with a header and a store without a mode. So
/// what [`begin`](crate::Journal::begin) answers of a Book, where the disk and memory let it, is
/// the one answer that fits.
pub fn a_book_is_one_thing()
    ensures { IsOneThing }
{}

/// Two headers with the same bytes are the same.
pub fn headers_are_spelled_apart()
    ensures { HeadersAreSpelledApart }
{}

/// A step record behind the last record of a whole store of the first format, where none stood
/// before, changes nothing of what the store says. So a stop between the two appends of the first
/// update leaves the store from before.
pub fn a_step_record_says_nothing()
    ensures { StepSaysNothing }
{}
