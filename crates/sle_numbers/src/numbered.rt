// Values of a table of the standard, which have a number and a word each.
ghost use Rattle.std.specs.Prelude.{◌≡◌, List, ℕ, IfSome};
ghost use Rattle.sle_numbers.specs.Numbered.{AreNumbered, of_number};

/// Values of a table of the standard: a number below 128 and a word each. No two have the same
/// number.
pub trait Numbered: Copy + Drop + 'static {
    ghost number_of: { Self → ℕ };

    ghost word_of: { Self → List ℕ };

    ghost all: { List Self };

    ghost each: { AreNumbered number_of all };

    /// All values, in the table's order.
    fn values() -> &'static [Self]
        ensures { result.now ≡ all };

    /// The value's number.
    fn number(self) -> u8
        ensures { result ≡ number_of self };

    /// The value's word, as the standard's ASN.1 has it.
    fn word(self) -> &'static str
        ensures { result.now ≡ word_of self };

    /// The value of a number. It is none only where no value has the number, since by `each` all
    /// values are found by theirs. It goes over the table.
    #[tactic(auto, using(crate::specs::Numbered::has_number))]
    fn from_number(number: u8) -> Option<Self>
        ensures exact { result ≡ of_number number_of all number }
        ensures known { IfSome result (λ value. number_of value ≡ number) }
    {
        Self::values()
            .iter()
            .copied()
            .find(|value| value.number() == number)
    }
}
