// The page for people.
ghost use Rattle.std.specs.Prelude.{◌≡◌, ◌++◌, OnOk, IfOk, codes};
ghost use Rattle.picture_page.specs.Content.{IsDocument};
ghost use Rattle.picture_page.specs.Sheet.{Gains};
ghost use Rattle.picture_page.specs.declared.tag.Tag.TheVariants as tag;
ghost use Rattle.status_view.specs.Parts.{box};
ghost use Rattle.status_view.specs.Page.{top, all_cards, users, link, links, style, style_part};
ghost use Rattle.status_view.specs.Page.{page_head, upper, lower, html, document, page_text};

use crate::cards::put_cards;
use crate::doors::put_table;
use crate::parts::put_cell;
use crate::style::STYLE;
use crate::verdict::{put_top_parts, put_verdict};
use picture_page::{Attribute, Meta, Name, Page, Tag};
use station_snapshot::Snapshot;
use std::alloc::{AllocError, Global};

// After how many seconds it is read anew.
const REFRESH: u32 = 5;

#[tactic(auto, unfolding(crate::specs::Page::style))]
fn style() -> &'static str
    ensures { result.now ≡ style }
{
    STYLE
}

fn put_style(page: &mut Page)
    ensures { Gains page.old page.new style_part }
{
    put_cell(Tag::Style, "all", style().as_bytes(), page);
}

#[tactic(auto, using(picture_page::specs::Sheet::gains_then))]
fn put_head_parts(page: &mut Page)
    ensures { Gains page.old page.new page_head }
{
    page.meta(Meta::Charset);
    page.meta(Meta::Viewport);
    page.meta(Meta::Refresh(REFRESH));
    put_cell(Tag::Title, "title", b"Ground station", page);
    put_style(page);
}

#[tactic(auto, using(picture_page::specs::Sheet::element_gains))]
fn put_head(page: &mut Page)
    ensures { Gains page.old page.new (box tag.Head (codes "head") page_head) }
{
    page.begin(Tag::Head, &[Attribute::octets(Name::Class, b"head")]);
    put_head_parts(page);
    page.end();
}

#[tactic(auto, using(picture_page::specs::Sheet::element_gains), unfolding(crate::specs::Page::top))]
fn put_top(alloc: Global, snapshot: &Snapshot, page: &mut Page) -> Result<(), AllocError>
    ensures { OnOk result (Gains page.old page.new (top snapshot.now)) }
{
    page.begin(Tag::Div, &[Attribute::octets(Name::Class, b"top")]);
    put_top_parts(alloc, snapshot, page)?;
    page.end();
    Ok(())
}

#[tactic(auto, using(picture_page::specs::Sheet::element_gains), unfolding(crate::specs::Page::all_cards))]
fn put_all_cards(alloc: Global, snapshot: &Snapshot, page: &mut Page) -> Result<(), AllocError>
    ensures { OnOk result (Gains page.old page.new (all_cards snapshot.now)) }
{
    page.begin(Tag::Div, &[Attribute::octets(Name::Class, b"cards")]);
    put_cards(alloc, snapshot, page)?;
    page.end();
    Ok(())
}

#[tactic(auto, using(picture_page::specs::Sheet::gains_then))]
fn put_upper(alloc: Global, snapshot: &Snapshot, page: &mut Page) -> Result<(), AllocError>
    ensures { OnOk result (Gains page.old page.new (upper snapshot.now)) }
{
    put_top(alloc, snapshot, page)?;
    put_verdict(alloc, snapshot, page)?;
    put_all_cards(alloc, snapshot, page)
}

#[tactic(auto, using(picture_page::specs::Sheet::element_gains), unfolding(crate::specs::Page::users))]
fn put_users(alloc: Global, snapshot: &Snapshot, page: &mut Page) -> Result<(), AllocError>
    ensures { OnOk result (Gains page.old page.new (users snapshot.now)) }
{
    page.begin(Tag::Div, &[Attribute::octets(Name::Class, b"users")]);
    put_table(alloc, snapshot, page)?;
    page.end();
    Ok(())
}

fn put_link(path: &str, page: &mut Page)
    ensures { Gains page.old page.new (link path.now) }
{
    page.element(
        Tag::A,
        &[Attribute::octets(Name::Href, path.as_bytes())],
        path.as_bytes(),
    );
}

#[tactic(auto, using(picture_page::specs::Sheet::gains_then))]
fn put_each_link(page: &mut Page)
    ensures { Gains page.old page.new (link (codes "/status.json") ++ link (codes "/metrics")
        ++ link (codes "/health")) }
{
    put_link("/status.json", page);
    put_link("/metrics", page);
    put_link("/health", page);
}

#[tactic(auto, using(picture_page::specs::Sheet::element_gains))]
fn put_links(page: &mut Page)
    ensures { Gains page.old page.new links }
{
    page.begin(Tag::P, &[Attribute::octets(Name::Class, b"links")]);
    put_each_link(page);
    page.end();
}

#[tactic(auto, using(picture_page::specs::Sheet::gains_then))]
fn put_lower(alloc: Global, snapshot: &Snapshot, page: &mut Page) -> Result<(), AllocError>
    ensures { OnOk result (Gains page.old page.new (lower snapshot.now)) }
{
    put_users(alloc, snapshot, page)?;
    put_links(page);
    Ok(())
}

#[tactic(auto, using(picture_page::specs::Sheet::gains_then))]
fn put_body_parts(alloc: Global, snapshot: &Snapshot, page: &mut Page) -> Result<(), AllocError>
    ensures { OnOk result (Gains page.old page.new (upper snapshot.now ++ lower snapshot.now)) }
{
    put_upper(alloc, snapshot, page)?;
    put_lower(alloc, snapshot, page)
}

#[tactic(auto, using(picture_page::specs::Sheet::element_gains))]
fn put_body(alloc: Global, snapshot: &Snapshot, page: &mut Page) -> Result<(), AllocError>
    ensures { OnOk result (Gains page.old page.new
        (box tag.Body (codes "page") (upper snapshot.now ++ lower snapshot.now))) }
{
    page.begin(Tag::Body, &[Attribute::octets(Name::Class, b"page")]);
    put_body_parts(alloc, snapshot, page)?;
    page.end();
    Ok(())
}

#[tactic(auto, using(picture_page::specs::Sheet::gains_then))]
fn put_html(alloc: Global, snapshot: &Snapshot, page: &mut Page) -> Result<(), AllocError>
    ensures { OnOk result (Gains page.old page.new (html snapshot.now)) }
{
    put_head(page);
    put_body(alloc, snapshot, page)
}

#[tactic(auto, using(picture_page::specs::Sheet::element_gains))]
fn put_document(alloc: Global, snapshot: &Snapshot, page: &mut Page) -> Result<(), AllocError>
    ensures { OnOk result (Gains page.old page.new (document snapshot.now)) }
{
    page.begin(Tag::Html, &[Attribute::octets(Name::Lang, b"en")]);
    put_html(alloc, snapshot, page)?;
    page.end();
    Ok(())
}

/// The page of a station that shows this.
#[tactic(auto, using(crate::proofs::Ending::document_is))]
pub fn page_text(alloc: Global, snapshot: &Snapshot) -> Result<Vec<u8>, AllocError>
    ensures octets { IfOk result (λ text. text.items ≡ page_text snapshot.now) }
    ensures nested { IfOk result (λ text. IsDocument text.items) }
{
    let mut page = Page::new(alloc);
    put_document(alloc, snapshot, &mut page)?;
    page.into_document()
}
