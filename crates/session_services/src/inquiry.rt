// What a step asks the book, and wants of a look.
ghost use Rattle.std.specs.Prelude.{◌≡◌};
ghost use Rattle.session_services.specs.Inquiry.{only_asks, inquiry_of};

use frame_select::Want;
use station_book::Ask;

/// What a step asks the book, and wants of a look.
#[derive(Drop)]
pub struct Inquiry {
    /// What is asked of the book.
    pub ask: Ask,
    /// What is wanted of a look.
    pub want: Want,
}

impl Inquiry {
    /// One that wants nothing of a look.
    pub fn of(ask: Ask) -> Inquiry
        ensures { inquiry_of result ≡ only_asks ask }
    {
        Inquiry {
            ask,
            want: Want::Nothing,
        }
    }
}
