//! What the counts of a load add up to. The function does nothing.
ghost use Rattle.ov_load.specs.Summary.{CountsAddUp};

/// The law of counts: whatever the history, the four counts that a load prints add up to its
/// commands.
pub fn the_counts_add_up_to_the_commands()
    ensures { CountsAddUp }
{}
