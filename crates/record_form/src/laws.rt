// Laws of the octets of entries, each the contract of an empty function: a caller has the law by
// the call.
ghost use Rattle.record_form.specs.Reading.{AreOctets, ReadWhereSpelled, ReadBack};

/// An entry is read exactly where the octets of a storable one stand: each has one spelling.
pub fn read_where_spelled()
    ensures { ReadWhereSpelled }
{}

/// The octets of a storable entry are read back, whatever follows them.
pub fn read_back()
    ensures { ReadBack }
{}

/// The octets of a slice are octets.
pub fn slice(octets: &[u8])
    ensures { AreOctets octets.now }
{}
