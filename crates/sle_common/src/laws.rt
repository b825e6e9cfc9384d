// What holds of the definitions, as contracts of functions that do nothing: a caller has a law by a
// call. That each shape is exact says `is_exact` of `ber_shape`.
ghost use Rattle.sle_common.specs.IdentifierText.{OneIdentifier};
ghost use Rattle.sle_common.specs.Agreement.{TextAndOctetsAgree};

/// A text is one identifier's alone.
pub fn one_identifier()
    ensures { OneIdentifier }
{}

/// A text of an identifier and its octets agree, however these are spelled.
pub fn text_and_octets_agree()
    ensures { TextAndOctetsAgree }
{}
