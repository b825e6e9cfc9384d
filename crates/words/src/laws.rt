// What holds of every row, and of identifiers, as contracts of functions that do nothing: a caller
// has it of a row of its own by a call.
ghost use Rattle.std.specs.Prelude.{◌≡◌, List};
ghost use Rattle.sle_common.specs.declared.instance_id.InstancePart.{InstancePart};
ghost use Rattle.sle_common.specs.Identifier.{IsIdentifier};
ghost use Rattle.sle_common.specs.IdentifierText.{text_of};
ghost use Rattle.words.specs.Identifiers.{identifier};
ghost use Rattle.words.specs.Line.{IsExact, HasLines};

use crate::words_row::Words;

/// Lines of the row are read exactly where they spell a value that fits, the canonical one is read
/// back, and no line holds a line end.
#[tactic(auto, using(crate::specs::Line::exact))]
pub fn lines_are_exact<R: Words>()
    requires { HasLines R.kinds }
    ensures { IsExact R.kinds }
{}

/// What is written of an identifier is its text, and an identifier fits.
#[tactic(auto, using(crate::specs::Identifiers::writes_text, crate::specs::Identifiers::identifier_fits))]
pub fn identifiers_are_texts()
    ensures text { (parts : List InstancePart) → identifier.write parts ≡ text_of parts }
    ensures fits { (parts : List InstancePart) → IsIdentifier parts → identifier.Fits parts }
{}
