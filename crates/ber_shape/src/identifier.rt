ghost use Rattle.std.specs.Prelude.{◌≡◌};

/// The identifier of an element, where it is one octet (X.690 8.1.2).
pub trait Identifier {
    ghost use Rattle.std.specs.Prelude.{ℕ};

    ghost octet: { ℕ };

    fn octet() -> u8
        ensures { result ≡ octet };
}

/// The identifier that is this octet.
pub struct Octet<const OCTET: u8>;

impl<const OCTET: u8> Identifier for Octet<OCTET> {
    ghost octet = { OCTET };

    fn octet() -> u8
        ensures { result ≡ OCTET }
    {
        OCTET
    }
}
