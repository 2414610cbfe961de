//! Rows of what is written of a history, and of what is wrong with an image.
ghost use Rattle.ov_history_t.specs.Images.{BookHasUpdates, HeaderHasFirst, HeaderHasSurfaceCheck};
ghost use Rattle.ov_history_t.specs.Images.{EitherIsThisUpdate, KeysHaveBaseCheck, UnbornBeginsAtZero, UnfitIsNotNext};

/// The bodies of a book are the spellings of all updates, with the last.
pub fn a_book_keeps_its_last_update()
    ensures { BookHasUpdates }
{}

/// A record is unfit only where the history doesn't go on with its update.
pub fn an_unfit_record_is_not_the_next_one()
    ensures { UnfitIsNotNext }
{}

/// The header of a store has the epoch at which the store began.
pub fn a_header_has_the_first_epoch()
    ensures { HeaderHasFirst }
{}

/// The header of a store has the check value of the surface master.
pub fn a_header_has_the_check_of_the_surface_master()
    ensures { HeaderHasSurfaceCheck }
{}

/// The holder of both masters opens a store with the check value of the base master.
pub fn keys_have_the_check_of_the_base_master()
    ensures { KeysHaveBaseCheck }
{}

/// What an image stands for and doesn't keep begins at epoch 0.
pub fn an_unborn_image_begins_at_epoch_zero()
    ensures { UnbornBeginsAtZero }
{}

/// An image that has the history or it with an update, and not the history, has that update.
pub fn one_of_two_histories_is_left()
    ensures { EitherIsThisUpdate }
{}
