// STARTs over the entries of a book.
ghost use Rattle.std.specs.Prelude.{◌≡◌, IfOk};
ghost use Rattle.archive_terms.specs.Archive.{IsArchive};
ghost use Rattle.cds_time.specs.declared.cds.Rest.TheVariants.{Micros};

use cds_time::{Cds, Rest};
use octet_core::Memory;
use record_form::{Entries, Entry};
use sle_numbers::RequestedFrameQuality;
use station_book::Book;
use station_config::Site;
use station_desk::Buffers;
use std::alloc::Global;
use std::test::Fail;

// The message of a buffer of the end of data alone (X.690, CCSDS 911.1-B annex A, CCSDS 913.1-B).
const END_OF_DATA: [u8; 16] = [1, 0, 0, 0, 0, 0, 0, 8, 0xa8, 6, 0xa1, 4, 0x80, 0, 0x83, 0];

// 20000 days, and so many milliseconds.
fn at(millis: u32) -> Cds
    ensures { result ≡ record { days = 20000; millis = millis; rest = Micros 0 } }
{
    Cds {
        days: 20_000,
        millis,
        rest: Rest::Micros(0),
    }
}

// A book of these entries, at a station without instances.
fn book_of(alloc: Global, entries: Entries) -> Result<Book, Memory>
    requires { IsArchive entries }
    ensures { IfOk result (λ book. book.published ≡ entries) }
{
    let Ok(site) = Site::parse(alloc, b"") else {
        return Err(Memory);
    };
    Book::new(alloc, &site, entries, 0)
}

#[test]
fn a_start_with_a_sealed_stop_hands_over_the_end_of_data(rt: HostRuntime) -> Result<(), Fail> {
    let alloc = rt.alloc();
    let mut entries = Entries::new(alloc);
    entries.push(Entry::Seal { at: at(3_000) })?;
    let book = book_of(alloc, entries)?;
    let mut buffers = Buffers::of_start(
        alloc,
        &book,
        &at(0),
        &at(3_000),
        RequestedFrameQuality::GoodFramesOnly,
    )?;
    assert_eq!(rt; buffers.advance()?, true);
    assert_eq!(rt; buffers.items().len(), 1);
    assert_eq!(rt; buffers.message()?.octets(), END_OF_DATA.as_slice());
    assert_eq!(rt; buffers.advance()?, false);
    Ok(())
}
