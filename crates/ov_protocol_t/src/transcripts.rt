//! Rows of transcripts and of servers.
ghost use Rattle.ov_protocol_t.specs.Transcripts.{AnswersByCheckValue, ChunksReachTheEnd};
ghost use Rattle.ov_protocol_t.specs.Transcripts.{RefusalsEnd, RemovalsAreShort};
ghost use Rattle.ov_protocol_t.specs.Transcripts.{RemovalsAreTwoRequests, ReplacementsAreShort};
ghost use Rattle.ov_protocol_t.specs.Transcripts.{ReplacementsAreTwoRequests, RevocationsAreTwoRequests};

/// After a refusal nothing more is asked for the command.
pub fn a_refusal_ends_a_command()
    ensures { RefusalsEnd }
{}

/// For a revocation two things are asked: the numbers that it needs, and the update.
pub fn a_revocation_asks_for_its_update_alone()
    ensures { RevocationsAreTwoRequests }
{}

/// For a removal two things are asked: the number of the file, and the update.
pub fn a_removal_asks_for_its_update_alone()
    ensures { RemovalsAreTwoRequests }
{}

/// What is sent for a removal has few bytes beside the name of the file.
pub fn the_frames_of_a_removal_are_short()
    ensures { RemovalsAreShort }
{}

/// For a replacement two things are asked: the plan of the file's list, and the update.
pub fn a_replacement_asks_for_its_update_alone()
    ensures { ReplacementsAreTwoRequests }
{}

/// What is sent for a replacement has few bytes beside the name of the file, the tokens of its node
/// and the new bytes.
pub fn the_frames_of_a_replacement_are_short()
    ensures { ReplacementsAreShort }
{}

/// A file is asked for in as many chunks as its bytes need, the last of which may be a short one.
pub fn each_byte_of_a_file_is_in_a_chunk()
    ensures { ChunksReachTheEnd }
{}

/// A server answers by the check value of the base master, and keeps the surface master to itself.
pub fn a_server_answers_by_its_check_value()
    ensures { AnswersByCheckValue }
{}
