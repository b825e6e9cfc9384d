// The parts of the page for people.
ghost use Rattle.std.specs.Prelude.{◌≡◌, OnOk, decimal, codes};
ghost use Rattle.picture_page.specs.Sheet.{Gains};
ghost use Rattle.status_view.specs.Parts.{class, cell, card_head, fact_parts, fact, count, fault_class};
ghost use Rattle.status_view.specs.Parts.{faults, age, size};

use crate::texts::{age_text, octets_text};
use itoa::Buffer;
use picture_page::{Attribute, Name, Page, Tag};
use std::alloc::{AllocError, Global};

// An element of this class with a text.
pub(crate) fn put_cell(tag: Tag, of: &str, octets: &[u8], page: &mut Page)
    ensures { Gains page.old page.new (cell tag of.now octets.now) }
{
    page.element(
        tag,
        &[Attribute::octets(Name::Class, of.as_bytes())],
        octets,
    );
}

// The head of a card.
#[tactic(auto, using(picture_page::specs::Sheet::gains_then))]
pub(crate) fn put_card_head(title: &str, first: &[u8], unit: &str, page: &mut Page)
    ensures { Gains page.old page.new (card_head title.now first.now unit.now) }
{
    put_cell(Tag::H2, "title", title.as_bytes(), page);
    put_cell(Tag::Div, "big", first, page);
    put_cell(Tag::Div, "unit", unit.as_bytes(), page);
}

#[tactic(auto, using(picture_page::specs::Sheet::gains_then))]
fn put_fact_parts(what: &str, of: &str, value: &[u8], page: &mut Page)
    ensures { Gains page.old page.new (fact_parts what.now of.now value.now) }
{
    put_cell(Tag::Span, "name", what.as_bytes(), page);
    put_cell(Tag::Span, of, value, page);
}

// A fact, whose value is of this class.
#[tactic(auto, using(picture_page::specs::Sheet::element_gains), unfolding(crate::specs::Parts::fact))]
pub(crate) fn put_fact(what: &str, of: &str, value: &[u8], page: &mut Page)
    ensures { Gains page.old page.new (fact what.now of.now value.now) }
{
    page.begin(Tag::Div, &[Attribute::octets(Name::Class, b"fact")]);
    put_fact_parts(what, of, value, page);
    page.end();
}

// A count.
#[tactic(auto, unfolding(crate::specs::Parts::count))]
pub(crate) fn put_count(what: &str, n: u64, page: &mut Page)
    ensures { Gains page.old page.new (count what.now n) }
{
    let mut buffer = Buffer::new();
    put_fact(what, "value", buffer.format(n).as_bytes(), page);
}

fn fault_class(n: u64) -> &'static str
    ensures { result.now ≡ fault_class n }
{
    if n == 0 { "value" } else { "value bad" }
}

// A count of what should never happen.
#[tactic(auto, unfolding(crate::specs::Parts::faults))]
pub(crate) fn put_faults(what: &str, n: u64, page: &mut Page)
    ensures { Gains page.old page.new (faults what.now n) }
{
    let mut buffer = Buffer::new();
    put_fact(what, fault_class(n), buffer.format(n).as_bytes(), page);
}

// How long ago a moment is.
#[tactic(auto, unfolding(crate::specs::Parts::age))]
pub(crate) fn put_age(
    alloc: Global,
    what: &str,
    at: u64,
    moment: u64,
    page: &mut Page,
) -> Result<(), AllocError>
    ensures { OnOk result (Gains page.old page.new (age what.now at moment)) }
{
    let text = age_text(alloc, at, moment)?;
    put_fact(what, "value", &text, page);
    Ok(())
}

// A number of octets.
#[tactic(auto, unfolding(crate::specs::Parts::size))]
pub(crate) fn put_size(alloc: Global, what: &str, n: u64, page: &mut Page) -> Result<(), AllocError>
    ensures { OnOk result (Gains page.old page.new (size what.now n)) }
{
    let text = octets_text(alloc, n)?;
    put_fact(what, "value", &text, page);
    Ok(())
}
