// What holds of the lines, as the contract of a function that does nothing.
ghost use Rattle.words.specs.Lines.{AreExact};
ghost use Rattle.sample_words.specs.Script.{script};

/// Lines are read exactly where they spell what they say, the canonical ones are read back, and
/// none holds a line end.
#[tactic(auto, using(crate::specs::Script::script_is_exact))]
pub fn script_is_exact()
    ensures { AreExact script }
{}
