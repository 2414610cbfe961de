//! Rows of both formats: which records a store of which has, and what a step record changes.
ghost use Rattle.ov_history_t.specs.Formats.{DamageMovesBehindTheStep, DamageStaysBeforeTheStep};
ghost use Rattle.ov_history_t.specs.Formats.{FirstFormatIsKept, LongerBodyIsNoStep};
ghost use Rattle.ov_history_t.specs.Formats.{NewStoresAreOfTheSecond, OneStepIsLeftOut};
ghost use Rattle.ov_history_t.specs.Formats.{RecordsFollowTheStep, RemovalsAreOfTheSecond};
ghost use Rattle.ov_history_t.specs.Formats.{ReplacementsAreOfTheSecond, ShortListsAreOfTheFirst};
ghost use Rattle.ov_history_t.specs.Formats.{StepChangesNothing, StepChangesTheForm};

/// A new store has the magic `OVERENC2`: the worked books of 79, 91 and 101 bytes keep nobody,
/// alice, and alice and bob.
pub fn new_stores_are_of_the_second_format()
    ensures { NewStoresAreOfTheSecond }
{}

/// A store of the first format with alice and bob keeps them, and with a step record behind them
/// still.
pub fn a_step_record_changes_nothing()
    ensures before { FirstFormatIsKept }
    ensures behind { StepChangesNothing }
{}

/// Behind the step record stands an enrolment, whose gate is further by the step record's bytes.
pub fn records_follow_a_step_record()
    ensures { RecordsFollowTheStep }
{}

/// A second step record is damage at its body, and so is one in a store of the second format.
pub fn one_step_record_is_left_out()
    ensures { OneStepIsLeftOut }
{}

/// A body that begins as that of a step record and goes on is damage at its first byte.
pub fn a_longer_body_is_no_step_record()
    ensures { LongerBodyIsNoStep }
{}

/// In a record of the first format no update is a removal: its kind byte is damage. In one of the
/// second it is a removal, which is refused where there is no such file.
pub fn a_removal_is_of_the_second_format()
    ensures { RemovalsAreOfTheSecond }
{}

/// In a record of the first format no update is a replacement: its kind byte is damage. In one of
/// the second it is a replacement, which is refused where no file has the name.
pub fn a_replacement_is_of_the_second_format()
    ensures { ReplacementsAreOfTheSecond }
{}

/// A step record moves the places of damage behind it by its bytes, and none before it.
pub fn a_step_record_moves_the_places_behind_it()
    ensures before { DamageStaysBeforeTheStep }
    ensures behind { DamageMovesBehindTheStep }
{}

/// A creation with its list in 32 bytes is a record of the first format, and damage in a store of
/// the second.
pub fn short_lists_are_of_the_first_format()
    ensures { ShortListsAreOfTheFirst }
{}

/// Behind a step record a creation has its list in 128 bytes, as in a store of the second format.
pub fn a_step_record_changes_the_form()
    ensures { StepChangesTheForm }
{}
