//! A row of files that are gone.
ghost use Rattle.ov_history_t.specs.Fading.{FilesFadeFromAStart};

/// What may be any of a file that is removed is so from a start behind its removal, and not from
/// one before it.
pub fn files_fade_from_a_start()
    ensures { FilesFadeFromAStart }
{}
