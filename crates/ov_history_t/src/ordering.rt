//! The law of the order in which one update adds its surface nodes.
ghost use Rattle.ov_history_t.specs.Ordering.{NewSetsAreInOrder, NewSetsAreNew, NewSetsAreWanted};

/// The surface nodes that an update adds for files have wanted sets that no earlier node has, in
/// the order of the files' numbers.
pub fn new_surfaces_are_in_the_order_of_files()
    ensures wanted { NewSetsAreWanted }
    ensures new { NewSetsAreNew }
    ensures order { NewSetsAreInOrder }
{}
