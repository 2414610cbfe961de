//! Rows of how often a read and an update are tried.
ghost use Rattle.ov_protocol_t.specs.Tries.{ReadsHaveNineTries, UpdatesHaveNineTries};

/// A read is tried nine times and no more.
pub fn a_read_has_nine_tries()
    ensures { ReadsHaveNineTries }
{}

/// An update is tried nine times and no more.
pub fn an_update_has_nine_tries()
    ensures { UpdatesHaveNineTries }
{}
