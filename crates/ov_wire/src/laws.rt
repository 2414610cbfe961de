//! What holds of all frames.

ghost use Rattle.ov_wire.specs.AnswerForm.{AnswersAreReadAlike, AnswersFitFrames};
ghost use Rattle.ov_wire.specs.Laws.{BadAnswersArePlaced, BadRequestsArePlaced, FramesAreToldApart, RequestsFitFrames};

/// The law of frames: none behind its length field is the front of another's.
pub fn frames_are_told_apart()
    ensures { FramesAreToldApart }
{}

/// The law of requests: each with form fits a frame.
pub fn requests_fit_frames()
    ensures { RequestsFitFrames }
{}

/// The law of places in requests: what is named is the first field that no request goes on with, or
/// the end.
pub fn bad_requests_are_placed()
    ensures { BadRequestsArePlaced }
{}

/// The law of answers: each with form fits a frame.
pub fn answers_fit_frames()
    ensures { AnswersFitFrames }
{}

/// The law of reading answers: one with form is read as itself or not at all, whatever was asked.
pub fn answers_are_read_alike()
    ensures { AnswersAreReadAlike }
{}

/// The law of places in answers: what is named is the first field that no answer to the request
/// goes on with, or the end.
pub fn bad_answers_are_placed()
    ensures { BadAnswersArePlaced }
{}
