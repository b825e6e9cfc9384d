// The table of the script's lines, each beside what it led to.
ghost use Rattle.std.specs.Prelude.{map, ◌++◌, IfOk};
ghost use Rattle.picture_page.specs.Content.{IsDocument};
ghost use Rattle.picture_page.specs.Sheet.{Gains};
ghost use Rattle.line_table.specs.Table.{shown, names_text, four_names, fields_text, row_text, rows_text};
ghost use Rattle.line_table.specs.Table.{field, table_text, HasTable};

use crate::row::Row;
use itoa::Buffer;
use picture_page::{Attribute, Name, Page, Tag};
use std::alloc::AllocError;

/// Writes the table of these lines.
#[tactic(auto, using(picture_page::specs::Sheet::element_gains))]
pub fn put_table(rows: &[Row], page: &mut Page)
    ensures { Gains page.old page.new (table_text (map shown rows.now)) }
{
    page.begin(Tag::Table, &[Attribute::octets(Name::Class, b"lines")]);
    put_inside(rows, page);
    page.end();
}

/// The document of a page, with the table of these lines at its end.
#[tactic(auto, using(crate::proofs::Ending::has_table))]
pub fn end_with_table(page: Page, rows: &[Row]) -> Result<Vec<u8>, AllocError>
    ensures document { IfOk result (λ document. IsDocument document.items) }
    ensures lines { IfOk result (λ document. HasTable document.items (map shown rows.now)) }
{
    let mut page = page;
    put_table(rows, &mut page);
    page.into_document()
}

// The names of the table's columns, and the rows.
#[tactic(auto, using(picture_page::specs::Sheet::gains_then))]
fn put_inside(rows: &[Row], page: &mut Page)
    ensures { Gains page.old page.new (names_text ++ rows_text (map shown rows.now)) }
{
    put_names(page);
    put_rows(rows, page);
}

#[tactic(auto, using(picture_page::specs::Sheet::element_gains))]
fn put_names(page: &mut Page)
    ensures { Gains page.old page.new names_text }
{
    page.begin(Tag::Tr, &[]);
    put_four_names(page);
    page.end();
}

#[tactic(auto, using(picture_page::specs::Sheet::gains_then))]
fn put_four_names(page: &mut Page)
    ensures { Gains page.old page.new four_names }
{
    page.element(Tag::Th, &[], b"line");
    page.element(Tag::Th, &[], b"script");
    page.element(Tag::Th, &[], b"what it led to");
    page.element(Tag::Th, &[], b"in words");
}

#[tactic(auto, using(picture_page::specs::Sheet::gains_then, picture_page::specs::Sheet::gains_nothing))]
fn put_rows(rows: &[Row], page: &mut Page)
    ensures { Gains page.old page.new (rows_text (map shown rows.now)) }
{
    for row in rows {
        put_row(row, page);
    }
}

// A line's row: its number, itself, what it led to, and words on it.
#[tactic(auto, using(picture_page::specs::Sheet::element_gains))]
fn put_row(row: &Row, page: &mut Page)
    ensures { Gains page.old page.new (row_text (shown row.now)) }
{
    page.begin(
        Tag::Tr,
        &[
            Attribute::number(Name::Id, row.number),
            Attribute::octets(Name::Class, row.ran.class().as_bytes()),
        ],
    );
    put_fields(row, page);
    page.end();
}

#[tactic(auto, using(picture_page::specs::Sheet::gains_then))]
fn put_fields(row: &Row, page: &mut Page)
    ensures { Gains page.old page.new (fields_text (shown row.now)) }
{
    let mut buffer = Buffer::new();
    put_field("n", buffer.format(row.number).as_bytes(), page);
    put_field("l", row.line.as_slice(), page);
    put_field("s", row.said.as_slice(), page);
    put_field("w", row.words.as_slice(), page);
}

fn put_field(class: &str, octets: &[u8], page: &mut Page)
    ensures { Gains page.old page.new (field class.now octets.now) }
{
    page.element(
        Tag::Td,
        &[Attribute::octets(Name::Class, class.as_bytes())],
        octets,
    );
}
