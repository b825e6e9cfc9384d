// What holds of every script, as the contract of a function that does nothing.
ghost use Rattle.piece_laws.specs.Pieces.{AreOfOctets};

/// Each piece that lines of a script bring to a connection is octets.
#[tactic(auto, using(crate::proofs::Pieces::lines_bring))]
pub fn pieces_are_octets()
    ensures { AreOfOctets }
{}
