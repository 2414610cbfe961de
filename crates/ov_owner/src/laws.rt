//! The laws of an owner's talks, for the proofs of callers. The functions do nothing.
ghost use Rattle.ov_owner.specs.Laws.{OneUpdateAtMost, StaleEpochsRise, TalksAreShort};
ghost use Rattle.ov_owner.specs.Laws.{TalksAreProper, TalksAreSteps};

/// What an owner was answered is the machine's step of its command, at the history that the server
/// had when it answered the last ask, whatever others updated in between.
pub fn talks_are_steps()
    ensures { TalksAreSteps }
{}

/// The epochs of tries that were all stale rise.
pub fn stale_epochs_rise()
    ensures { StaleEpochsRise }
{}

/// A call changes a store that nobody else updates by its command alone, or not at all, however it
/// ends.
pub fn one_update_at_most()
    ensures { OneUpdateAtMost }
{}

/// The frames of a call to a store that nobody else updates are few and short, whatever the store's
/// files: no file is fetched or sent again, and none is sent but the one that is created, or that
/// replaces another.
pub fn talks_are_short()
    ensures { TalksAreShort }
{}

/// Of a server under the owner's masters that nobody else updates, no call gets a reply that it
/// takes for a wrong one, and each is settled with one try.
pub fn talks_are_proper()
    ensures { TalksAreProper }
{}
