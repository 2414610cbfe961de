//! Rows of what a server answers, and of what it shows then.
ghost use Rattle.ov_protocol_t.specs.Replies.{ChunksHaveGenerations, ChunksHaveSizes};
ghost use Rattle.ov_protocol_t.specs.Replies.{GoneFilesHaveEntries, RemovalsNameNoUser};
ghost use Rattle.ov_protocol_t.specs.Replies.{RefusedMakesNothing, ReplacementsAreOfNames};
ghost use Rattle.ov_protocol_t.specs.Replies.{ReplansAreOfNow, ToldChunksAreExact};
ghost use Rattle.ov_protocol_t.specs.Replies.{RepliesHaveForm, ShowsAccepted, StaleHasTag};
ghost use Rattle.ov_protocol_t.specs.Replies.{UpdatesHaveEpochs};

/// A chunk of another generation than the one that was asked for isn't answered with bytes.
pub fn a_chunk_is_of_the_generation_asked()
    ensures { ChunksHaveGenerations }
{}

/// A chunk has the right number of bytes, of a server that tells them and of one that doesn't.
pub fn a_chunk_has_its_size()
    ensures { ChunksHaveSizes }
{}

/// A chunk of a server that tells its bytes has just these.
pub fn a_told_chunk_is_exact()
    ensures { ToldChunksAreExact }
{}

/// A file that is gone has an entry of one byte, and what was never a file has none.
pub fn a_gone_file_has_an_entry()
    ensures { GoneFilesHaveEntries }
{}

/// Of a removal the numbers of no user are told.
pub fn a_removal_names_no_user()
    ensures { RemovalsNameNoUser }
{}

/// The plan of a replacement has the next number and the file's list.
pub fn a_replan_is_of_the_list_now()
    ensures { ReplansAreOfNow }
{}

/// A replacement is of the file of its name.
pub fn a_replacement_is_of_a_name()
    ensures { ReplacementsAreOfNames }
{}

/// An update that is refused isn't made, and one that is accepted is.
pub fn a_refused_update_is_not_made()
    ensures { RefusedMakesNothing }
{}

/// A reply is an answer within the limits of a store.
pub fn a_reply_has_a_form()
    ensures { RepliesHaveForm }
{}

/// A server that replied shows what it shows after the updates that it made.
pub fn an_accepted_update_is_shown()
    ensures { ShowsAccepted }
{}

/// An update is accepted at the epoch of the catalogue alone.
pub fn updates_are_made_at_their_epoch_alone()
    ensures { UpdatesHaveEpochs }
{}

/// That an update comes at another epoch is said to its owner alone.
pub fn the_tag_is_looked_at_before_the_epoch()
    ensures { StaleHasTag }
{}
