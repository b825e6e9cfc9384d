// What holds of every tree and every spelling.

ghost use Rattle.ber_core.specs.Reading.{FoundWhereSpelled, IntegerWhereSpelled, IntegerReadBack};
ghost use Rattle.ber_core.specs.Reading.{ElementReadBack, ContentIsInside, ContentIsOctets};
ghost use Rattle.ber_core.specs.Reading.{RestIsBehind};
ghost use Rattle.ber_core.specs.Whole.{ReadWhereSpelled, AllReadAreSpelled, AllSpelledAreRead};
ghost use Rattle.ber_core.specs.Length.{IsSlice};
ghost use Rattle.ber_core.specs.Longer.{FoundStays, TreeStays, CutWhereEndsBehind};
ghost use Rattle.ber_core.specs.Longer.{TreeCutWhereEndsBehind};
ghost use Rattle.ber_core.specs.Spelling.{CanonicalSpells, NoneBeginsAnother, OneTree};

/// The canonical spelling is one of the spellings.
pub fn canonical_spells()
    ensures { CanonicalSpells }
{}

/// No spelling begins another, so where one ends doesn't depend on what follows.
pub fn none_begins_another()
    ensures { NoneBeginsAnother }
{}

/// Octets spell one tree at most.
pub fn one_tree()
    ensures { OneTree }
{}

/// A reader finds an element's content exactly where the element is spelled, before the end of the
/// element around it and within the limit on nesting.
pub fn found_where_spelled()
    ensures { FoundWhereSpelled }
{}

/// A reader reads an INTEGER exactly from its octets, where it has at most 64 bits and is in the
/// range.
pub fn integer_where_spelled()
    ensures { IntegerWhereSpelled }
{}

/// What `Writer::integer` writes as content is read back.
pub fn integer_read_back()
    ensures { IntegerReadBack }
{}

/// What a writer writes as an element is found again, whatever follows.
pub fn element_read_back()
    ensures { ElementReadBack }
{}

/// Inside an element its content is left to read.
pub fn content_is_inside()
    ensures { ContentIsInside }
{}

/// The content of an element in octets is octets.
pub fn content_is_octets()
    ensures { ContentIsOctets }
{}

/// Behind an element what follows its spelling is left to read.
pub fn rest_is_behind()
    ensures { RestIsBehind }
{}

/// A reader's calls in a tree's order read it exactly where it is spelled, before the end of the
/// element around it and within the limit on nesting.
pub fn read_where_spelled()
    ensures { ReadWhereSpelled }
{}

/// The same for a list of trees: what is read was spelled, tree behind tree.
pub fn all_read_are_spelled()
    ensures { AllReadAreSpelled }
{}

/// What is spelled, tree behind tree, is read.
pub fn all_spelled_are_read()
    ensures { AllSpelledAreRead }
{}

/// Octets that come behind the input change nothing that was found, and no fault but Cut.
pub fn a_fault_stays()
    ensures found { FoundStays }
    ensures tree { TreeStays }
{}

/// Cut is exactly where the outermost element, its identifier and length included, ends behind the
/// input.
pub fn cut_where_it_ends_behind()
    ensures found { CutWhereEndsBehind }
    ensures tree { TreeCutWhereEndsBehind }
{}

/// The octets of a slice are octets, and fewer than 2 ^ 63.
pub fn slice(octets: &[u8])
    ensures { IsSlice octets.now }
{}
