// The attributes of a service instance identifier.
ghost use Rattle.std.specs.Prelude.{◌≡◌, ◌<◌, length};
ghost use Rattle.sle_common.specs.Attribute.{name_of, label_of};
ghost use Rattle.sle_common.specs.IdentifierOctets.{attribute_octets, attribute_of};

/// What a value of a service instance identifier names (CCSDS 911.1-B, annex A).
#[derive(Clone, Copy, Debug, PartialEq, Eq)]
pub enum Attribute {
    /// The service agreement.
    Sagr,
    /// The service package.
    Spack,
    /// The return link functional group.
    RslFg,
    /// The forward link functional group.
    FslFg,
    /// A service instance of return all frames.
    Raf,
    /// A service instance of return channel frames.
    Rcf,
    /// A service instance of return operational control fields.
    Rocf,
    /// A service instance of forward CLTU.
    Cltu,
}

impl Attribute {
    pub(crate) const ALL: [Attribute; 8] = [
        Attribute::Sagr,
        Attribute::Spack,
        Attribute::RslFg,
        Attribute::FslFg,
        Attribute::Raf,
        Attribute::Rcf,
        Attribute::Rocf,
        Attribute::Cltu,
    ];

    /// The name in a text.
    pub fn name(self) -> &'static str
        ensures { result.now ≡ name_of self }
    {
        match self {
            Attribute::Sagr => "sagr",
            Attribute::Spack => "spack",
            Attribute::RslFg => "rsl-fg",
            Attribute::FslFg => "fsl-fg",
            Attribute::Raf => "raf",
            Attribute::Rcf => "rcf",
            Attribute::Rocf => "rocf",
            Attribute::Cltu => "cltu",
        }
    }

    // The name and the `=` behind it.
    pub(crate) fn label(self) -> &'static [u8]
        ensures { result.now ≡ label_of self }
    {
        match self {
            Attribute::Sagr => b"sagr=",
            Attribute::Spack => b"spack=",
            Attribute::RslFg => b"rsl-fg=",
            Attribute::FslFg => b"fsl-fg=",
            Attribute::Raf => b"raf=",
            Attribute::Rcf => b"rcf=",
            Attribute::Rocf => b"rocf=",
            Attribute::Cltu => b"cltu=",
        }
    }

    /// The content octets of its OBJECT IDENTIFIER, 1.3.112.4.3.1.2 and an arc of its own (X.690
    /// 8.19).
    pub fn object_id(self) -> &'static [u8]
        ensures { result.now ≡ attribute_octets self }
    {
        match self {
            Attribute::Sagr => &[0x2b, 0x70, 4, 3, 1, 2, 52],
            Attribute::Spack => &[0x2b, 0x70, 4, 3, 1, 2, 53],
            Attribute::RslFg => &[0x2b, 0x70, 4, 3, 1, 2, 38],
            Attribute::FslFg => &[0x2b, 0x70, 4, 3, 1, 2, 14],
            Attribute::Raf => &[0x2b, 0x70, 4, 3, 1, 2, 22],
            Attribute::Rcf => &[0x2b, 0x70, 4, 3, 1, 2, 46],
            Attribute::Rocf => &[0x2b, 0x70, 4, 3, 1, 2, 49],
            Attribute::Cltu => &[0x2b, 0x70, 4, 3, 1, 2, 7],
        }
    }

    /// The attribute that has these content octets of an OBJECT IDENTIFIER, if one has.
    pub fn of_object_id(octets: &[u8]) -> Option<Attribute>
        ensures { result ≡ attribute_of octets.now }
    {
        for attribute in Attribute::ALL {
            if octets == attribute.object_id() {
                return Some(attribute);
            }
        }
        None
    }
}
