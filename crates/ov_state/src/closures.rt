//! Closures over the catalogue of a history. The function does nothing.
ghost use Rattle.ov_state.specs.Standing.{ClosuresAreMatrix};

/// Whatever history a catalogue stands for, each user's closure over the published tokens is the
/// matrix.
pub fn closures_are_the_matrix()
    ensures { ClosuresAreMatrix }
{}
