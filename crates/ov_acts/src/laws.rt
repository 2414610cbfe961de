//! Laws of when an act is answered. The functions do nothing.
ghost use Rattle.ov_acts.specs.Laws.{KeyFilesAreEnough, LegalIsStore, LinesAreEnough};

/// The law of stores: each legal history, as its masters seal it, is a store over which acts are
/// answered.
pub fn legal_histories_are_stores()
    ensures { LegalIsStore }
{}

/// The law of files: an act has the right files where its key file is one of the masters, or its
/// user key line is one of a user who is there.
pub fn right_files_are_enough()
    ensures owners { KeyFilesAreEnough }
    ensures readers { LinesAreEnough }
{}
