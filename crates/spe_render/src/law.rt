//! What a printed text tells.

ghost use Rattle.spe_render.specs.Law.{TextTellsTranscripts};

/// Two lists of transcripts with the same text are the same list.
///
/// The function does nothing: its contract is the law, for a caller that calls it where it needs it.
pub fn text_tells_transcripts()
    ensures { TextTellsTranscripts }
{}
