//! The laws of servers, for the proofs of callers. The functions do nothing.
ghost use Rattle.ov_protocol.specs.Laws.{AlikeAnswers, AlikeReplies};
ghost use Rattle.ov_protocol.specs.Laws.{EpochsGoOn, HiddenAnswers, HiddenReplies};
ghost use Rattle.ov_protocol.specs.Laws.{OneAnswer, OneReply, RepliesAreFrames};
ghost use Rattle.ov_protocol.specs.Laws.{RepliesAreRead, ServersGoOn, ServicesAreServed};

/// A server that serves a history has one answer to each request, and one reply to each frame: two
/// that show the same reply the same, and then show the same again. Where its stored bytes aren't
/// told, that is so but for the stored bytes that it gives: it gives as many.
pub fn one_answer()
    ensures answer { OneAnswer }
    ensures reply { OneReply }
    ensures alike { AlikeAnswers }
    ensures alike_replies { AlikeReplies }
{}

/// What a server answers and replies holds as well where its stored bytes aren't told.
pub fn bytes_may_be_hidden()
    ensures answers { HiddenAnswers }
    ensures replies { HiddenReplies }
{}

/// A server that serves a history shows just what follows from it. After a reply it serves the
/// history followed by what it made, at an epoch one higher for each update.
pub fn servers_go_on()
    ensures served { ServicesAreServed }
    ensures goes_on { ServersGoOn }
    ensures epochs { EpochsGoOn }
{}

/// A reply is one frame, and what is read of it, by the request that was sent, is the server's
/// answer to that request.
pub fn replies_are_read()
    ensures frames { RepliesAreFrames }
    ensures read { RepliesAreRead }
{}
