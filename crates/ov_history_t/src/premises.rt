//! Rows of premises. A premise that nothing builds could be narrowed until the law behind it says
//! nothing; each row here builds one.
ghost use Rattle.ov_history_t.specs.Premises.{EachCoatIsAPad, ExtentsHaveTheirBlocks};
ghost use Rattle.ov_history_t.specs.Premises.{NamesThatAreNotEmptyName, PlacesBetweenAreWithin};
ghost use Rattle.ov_history_t.specs.Premises.{RootsHoldTheirOwnNode, SealedStepsAreTrue};
ghost use Rattle.ov_history_t.specs.Premises.{ShortBytesAreAnEnd, WhatOwnersSealIsTheirs};
ghost use Rattle.ov_history_t.specs.Premises.{WritesAtTheEndBeginInside};

/// Each file that is there is padded under the access key of its base node, and under the key of its
/// surface, where it has one.
pub fn each_coat_is_a_pad()
    ensures { EachCoatIsAPad }
{}

/// A replacement is named by any name that isn't empty.
pub fn names_that_are_not_empty_name()
    ensures { NamesThatAreNotEmptyName }
{}

/// Any update that an owner seals after a history is the owner's there.
pub fn what_owners_seal_is_theirs()
    ensures { WhatOwnersSealIsTheirs }
{}

/// An extent has each block from its first one on, and places between two others are within them.
pub fn places_in_a_range_are_its_own()
    ensures blocks { ExtentsHaveTheirBlocks }
    ensures places { PlacesBetweenAreWithin }
{}

/// A write at the end of an area begins inside it.
pub fn writes_at_the_end_begin_inside()
    ensures { WritesAtTheEndBeginInside }
{}

/// Fewer bytes than a length field has end a stream of frames.
pub fn short_bytes_are_an_end()
    ensures { ShortBytesAreAnEnd }
{}

/// Each user holds the access label of the user's own base node, over whatever base tokens there are.
pub fn roots_hold_their_own_node()
    ensures { RootsHoldTheirOwnNode }
{}

/// The tokens of two steps are true where each leads from the key of the label before it to its own.
pub fn sealed_steps_are_true()
    ensures { SealedStepsAreTrue }
{}
