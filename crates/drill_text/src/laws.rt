// What holds of the lines, as contracts of functions that do nothing: a caller has it by the call.
ghost use Rattle.drill_text.specs.Reading.{AreExact};
ghost use Rattle.drill_text.specs.Transcript as transcript;

/// Script lines are read exactly where they say a thing whose words are in their ranges, the
/// canonical one is read back, and none that isn't skipped holds a line end.
#[tactic(auto, using(crate::proofs::Scripts::lines_are_exact))]
pub fn script_is_exact()
    ensures { AreExact }
{}

/// The same of a transcript's lines: what one says, and with that the line, is known from its
/// text.
#[tactic(auto, using(crate::proofs::Transcripts::lines_are_exact))]
pub fn transcript_is_exact()
    ensures { transcript.AreExact }
{}
