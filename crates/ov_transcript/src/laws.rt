//! The laws of transcripts, for the proofs of callers. The functions do nothing.
ghost use Rattle.ov_transcript.specs.Laws.{FirstAnswersAreFronts, FirstAsksAreFronts};
ghost use Rattle.ov_transcript.specs.Laws.{GrantsSendNoBytes, QuestionsAreTranscripts};
ghost use Rattle.ov_transcript.specs.Laws.{ReadsAreFronts, ReadsAreTranscripts};
ghost use Rattle.ov_transcript.specs.Laws.{RefusalsAreTranscripts, ReplacementsSendNewBytes};
ghost use Rattle.ov_transcript.specs.Laws.{RunsHaveOneTranscript};
ghost use Rattle.ov_transcript.specs.Laws.{TalksAreFronts, TalksAreTranscripts};
ghost use Rattle.ov_transcript.specs.Laws.{TranscriptsAreShort, TranscriptsAreUnique};

/// What an owner's call asks and is replied is the transcript of its command, and a front of it
/// where a fault ends the call.
pub fn updates_are_transcribed()
    ensures whole { TalksAreTranscripts }
    ensures front { TalksAreFronts }
{}

/// The first request of a command and its reply are the transcript of a single question, and of
/// what is refused there, and a front of any other.
pub fn questions_are_transcribed()
    ensures whole { QuestionsAreTranscripts }
    ensures refused { RefusalsAreTranscripts }
    ensures answered { FirstAnswersAreFronts }
    ensures front { FirstAsksAreFronts }
{}

/// The question for a user's keys and the asks of a read with them are the transcript of the read,
/// and a front of it where a fault ends the read.
pub fn reads_are_transcribed()
    ensures whole { ReadsAreTranscripts }
    ensures front { ReadsAreFronts }
{}

/// A command has one transcript at a history, as do some commands, one after the other.
pub fn transcripts_are_unique()
    ensures one { TranscriptsAreUnique }
    ensures runs { RunsHaveOneTranscript }
{}

/// The transcript of a grant, a revocation or a removal is the same whatever the files' bytes are,
/// and that of a replacement has the new bytes and no others. The transcript of an update is short:
/// only a creation's and a replacement's are as long as the list and the new file.
pub fn transcripts_are_short()
    ensures same { GrantsSendNoBytes }
    ensures new_bytes { ReplacementsSendNewBytes }
    ensures short { TranscriptsAreShort }
{}
