//! What puts come to. The functions do nothing.
ghost use Rattle.ov_blocks.specs.Laws.{ChangesGoOn, PutsChangeTheirRange, PutsStandThere};

/// The law of puts: the bytes that were put are those that stand in Blobs at their place, and
/// nothing but this range has changed.
pub fn what_is_put_stands_there()
    ensures there { PutsStandThere }
    ensures rest { PutsChangeTheirRange }
{}

/// The law of changes: two changes, one after the other, each within one range, are a change of
/// that range.
pub fn changes_go_on()
    ensures { ChangesGoOn }
{}
