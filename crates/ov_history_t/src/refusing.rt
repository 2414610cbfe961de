//! Laws of refusals, in the words of the table of refusals, and rows at the edges.
ghost use Rattle.ov_history_t.specs.Refusing.{BytesFillStores, LastEpochIsSpent, ListsAreRefused};
ghost use Rattle.ov_history_t.specs.Refusing.{ReadsAreRefused, RemovalsFreeBytes, UpdatesAreRefused};

/// To an update is answered the refusal of the lowest number among those that apply, each by its
/// words, and none where none applies.
pub fn an_update_has_the_lowest_refusal()
    ensures { UpdatesAreRefused }
{}

/// To a read and to a question for a list is answered the refusal of the lowest number among those
/// that apply, each by its words, and none where none applies.
pub fn a_question_has_the_lowest_refusal()
    ensures reads { ReadsAreRefused }
    ensures lists { ListsAreRefused }
{}

/// A file that makes a store exactly full fits, and one byte more doesn't.
pub fn bytes_fill_a_store()
    ensures { BytesFillStores }
{}

/// The bytes and the name of a file that is removed are free.
pub fn a_removal_frees_bytes_and_name()
    ensures { RemovalsFreeBytes }
{}

/// At the last epoch no update is taken.
pub fn the_last_epoch_is_spent()
    ensures { LastEpochIsSpent }
{}
