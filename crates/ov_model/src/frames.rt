//! The laws of updates in records and in frames, and of streams of frames. The functions do
//! nothing.
ghost use Rattle.ov_model.specs.Agreement.{FramesHoldSpellings, FramesTakeUpdates};
ghost use Rattle.ov_model.specs.Streams.{StreamsAreCutOneWay};

/// The law of spellings in frames: from any bytes, a frame's reader takes just the bytes that the
/// reader of updates reads, or names the same wrong one. Neither crate depends on the other.
pub fn frames_hold_spellings()
    ensures { FramesHoldSpellings }
{}

/// The law of updates in frames: what a record has for an update with form, a frame can have.
pub fn frames_take_updates()
    ensures { FramesTakeUpdates }
{}

/// The law of streams: bytes are cut into frames in one way only. So a decoder, whose frames and
/// rest are such a cut, gives the same frames in whatever pieces a stream comes.
pub fn streams_are_cut_one_way()
    ensures { StreamsAreCutOneWay }
{}
