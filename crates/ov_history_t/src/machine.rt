//! Rows of the access-matrix machine.
ghost use Rattle.ov_history_t.specs.Machine.{AnswersNextEpoch, KeepsNoRefused, LetsTheListedRead};
ghost use Rattle.ov_history_t.specs.Machine.{RemovesFiles, RemovesOnce, ReplacesFiles};
ghost use Rattle.ov_history_t.specs.Machine.{ReplacesNoOther, RepliesBefore};

/// A reply line is of the history before its command.
pub fn a_line_is_of_the_history_before()
    ensures { RepliesBefore }
{}

/// A refused update leaves the history as it is.
pub fn a_refused_update_changes_nothing()
    ensures { KeepsNoRefused }
{}

/// A user who isn't in a file's list is refused to read it.
pub fn only_the_listed_read()
    ensures { LetsTheListedRead }
{}

/// A file that is removed is there for nobody, and its name is free.
pub fn a_removed_file_is_not_there()
    ensures { RemovesFiles }
{}

/// A file that is replaced has the new bytes for all in its list.
pub fn a_replaced_file_has_the_new_bytes()
    ensures { ReplacesFiles }
{}

/// A file that isn't there isn't replaced.
pub fn a_file_that_is_not_there_is_not_replaced()
    ensures { ReplacesNoOther }
{}

/// A file that is gone isn't removed once more.
pub fn a_file_is_removed_once()
    ensures { RemovesOnce }
{}

/// An update is answered with the epoch that it makes.
pub fn the_next_epoch_is_answered()
    ensures { AnswersNextEpoch }
{}
