// The page of a script.
ghost use Rattle.std.specs.Prelude.{IfOk, map};
ghost use Rattle.line_table.specs.Table.{shown, HasTable};
ghost use Rattle.picture_page.specs.Content.{IsDocument};

use crate::input::Parts;
use crate::status::Status;
use lane_picture::{begin_page, put_lanes};
use line_table::end_with_table;
use octet_core::{Sink, Source};
use pass_reading::{Pass, read_pass};
use picture_page::{Page, Tag};
use std::alloc::{AllocError, Global};
use whole_input::read_input;

/// Writes the page of the script on the input.
pub fn show<I: Source, O: Sink>(alloc: Global, input: &mut I, output: &mut O) -> Status {
    let octets = match read_input(alloc, input) {
        Ok(octets) => octets,
        Err(fault) => return Status::of_input(fault),
    };
    match document_of(alloc, octets.as_slice()) {
        Ok(document) => match output.put_all(document.as_slice()) {
            Ok(()) => Status::Done,
            Err(_) => Status::WriteFault,
        },
        Err(status) => status,
    }
}

fn document_of(alloc: Global, input: &[u8]) -> Result<Vec<u8>, Status>
    ensures { IfOk result (λ document. IsDocument document.items) }
{
    let Some(parts) = Parts::of(alloc, input) else {
        return Err(Status::Usage);
    };
    let pass = read_pass(alloc, parts.script, parts.transcript)?;
    Ok(page_of(alloc, &pass)?)
}

// The page: the lanes, and below them the table.
fn page_of(alloc: Global, pass: &Pass) -> Result<Vec<u8>, AllocError>
    ensures document { IfOk result (λ document. IsDocument document.items) }
    ensures lines { IfOk result (λ document. HasTable document.items
        (map shown pass.now.rows.items)) }
{
    let mut page = Page::new(alloc);
    begin_page(b"A pass", &mut page);
    page.element(Tag::H1, &[], b"A pass");
    page.element(Tag::P, &[], READING);
    put_lanes(&pass.lanes.groups(), pass.lanes.columns(), &mut page);
    page.element(Tag::H2, &[], b"Lines");
    end_with_table(page, pass.rows.as_slice())
}

const READING: &[u8] =
    b"Each line of the script that says something is a column, in their order. A \
pointer over a mark tells its values. A time that is filled is a reading of the clock; the others are \
those of entries. What is dashed is missing, was refused, or is ordered for a call of the disk to come.";
