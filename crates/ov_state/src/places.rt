//! Where the parts of an update are in its spelling. The function does nothing.
ghost use Rattle.ov_state.specs.Places.{PartsStandAtTheirPlace};

/// The place that a fault of parts names is that of the update's tokens, or of its access token,
/// in the spelling of the update.
pub fn parts_stand_at_their_place()
    ensures { PartsStandAtTheirPlace }
{}
