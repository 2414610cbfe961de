//! The laws of the two coats, for the proofs of callers. The functions do nothing.
ghost use Rattle.ov_surface.specs.Laws.{BothComeOff, CoatsComeOff, CoatsCommute, CoatsKeepLength};
ghost use Rattle.ov_surface.specs.Laws.{CoatsTakeParts};

/// A surface coat that is laid and laid again comes off.
pub fn coats_come_off()
    ensures { CoatsComeOff }
{}

/// The two coats may be laid in either order.
pub fn coats_commute()
    ensures { CoatsCommute }
{}

/// Both coats of a file come off and leave the plaintext.
pub fn both_come_off()
    ensures { BothComeOff }
{}

/// A surface coat keeps the number of bytes.
pub fn coats_keep_length()
    ensures { CoatsKeepLength }
{}

/// The surface coat of a whole is that of its parts, each from its own place on.
pub fn coats_take_parts()
    ensures { CoatsTakeParts }
{}
