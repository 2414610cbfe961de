//! Laws of beginning a store. The function does nothing.
ghost use Rattle.ov_store.specs.Causes.{CausesAreOne};

/// The law of causes: why no store is begun on an image is one cause, under the same keys and the
/// same mode, unless the disk failed or memory was refused. So the order in which the causes are
/// tried is told by what is answered: a store that compared the mode first would answer otherwise.
pub fn causes_are_one()
    ensures { CausesAreOne }
{}
