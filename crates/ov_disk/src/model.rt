//! The law that joins the clauses of a disk to the model in words.
ghost use Rattle.ov_disk.specs.Model.{TornWritesAreTheModel};

/// Since a sync, writes that may each tear what those before them left make just the images of the
/// model: any bytes in the ranges that were written and past the old end, any length from the least
/// to the greatest, and the same bytes elsewhere. The order of the writes doesn't matter.
pub fn torn_writes_are_the_model()
    ensures { TornWritesAreTheModel }
{}
