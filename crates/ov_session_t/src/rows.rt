//! Rows of settings files and of sessions.
ghost use Rattle.ov_session_t.specs.Rows.{LongestIsSettingsFile, NoMemoryIsAnswered};
ghost use Rattle.ov_session_t.specs.Rows.{WorkersAreFourOrGiven};

/// A settings file may have as many bytes as the longest.
pub fn the_longest_settings_file_is_one()
    ensures { LongestIsSettingsFile }
{}

/// The number of workers is 4 where its key is missing; 64 may be asked for, and 65 may not.
pub fn workers_are_four_or_given()
    ensures { WorkersAreFourOrGiven }
{}

/// Where memory was refused, the frame that is sent says so; a reply is sent as it is.
pub fn no_memory_is_answered_as_such()
    ensures { NoMemoryIsAnswered }
{}
