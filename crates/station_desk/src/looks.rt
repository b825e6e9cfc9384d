// Where looks are taken.
ghost use Rattle.std.specs.Prelude.{◌≡◌, IfOk, List};
ghost use Rattle.archive_terms.specs.Archive.{Entry, IsArchive};
ghost use Rattle.archive_terms.specs.Glimpse.{glimpse};
ghost use Rattle.frame_select.specs.Want.{want_of};
ghost use Rattle.frame_select.specs.Glimpse.{glimpse_of, as_said};

use frame_select::{Glimpse, Want};
use octet_core::Memory;
use station_book::Book;

/// Entries that can be looked at.
pub trait Looks {
    /// The entries in their order.
    ghost entries: { Self → List Entry };

    /// What a look at them gives. They are an archive.
    fn look(&self, want: &Want) -> Result<Glimpse, Memory>
        requires { IsArchive (entries self.now) }
        ensures { IfOk result (λ g. glimpse_of g
            ≡ as_said (glimpse (entries self.now) (want_of want.now))) };
}

/// The published entries of a station.
impl Looks for Book {
    ghost entries = { λ book. book.published };

    fn look(&self, want: &Want) -> Result<Glimpse, Memory> {
        Book::look(self, want)
    }
}
