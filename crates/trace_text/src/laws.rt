//! Laws of the definitions: each is the contract of a function that does nothing.
ghost use Rattle.trace_text.specs.{SpelledLinesAreRead, LinesAreSpelledAsRead, TheWordsTell};

/// The text of a line that a trace may have reads as that line.
#[tactic(auto, using(crate::proofs::Spelling::spelled_is_read))]
pub fn spelled_lines_are_read()
    ensures { SpelledLinesAreRead }
{}

/// Bytes that read as a line are its text, and no other bytes read as that line.
pub fn lines_are_spelled_as_read()
    ensures { LinesAreSpelledAsRead }
{}

/// The words of a line tell whether the line may come: the first one its kind, and their number the
/// version that a channel line is spelled in.
#[tactic(auto, using(crate::proofs::Judging::expected_is))]
pub fn the_words_tell()
    ensures { TheWordsTell }
{}
