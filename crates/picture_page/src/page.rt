// A page that is written piece by piece.
ghost use Rattle.std.specs.Prelude.{◌≡◌, ◌++◌, [], ◌∷◌, Some, None, IfOk, OnOk, map, codes};
ghost use Rattle.std.specs.Prelude.{reverse};
ghost use Rattle.std.specs.List.{flat_map};
ghost use Rattle.picture_page.specs.Attributes.{said};
ghost use Rattle.picture_page.specs.Content.{start, finish, IsDocument, Nests};
ghost use Rattle.picture_page.specs.Escape.{escaped};
ghost use Rattle.picture_page.specs.Meta.{meta_text};
ghost use Rattle.picture_page.specs.Sheet.{Gains, Begins, Ends, Becomes, Finishes};

use crate::attribute::{Attribute, put_attributes};
use crate::escape::put_escaped;
use crate::meta::{Meta, put_meta};
use crate::tag::Tag;
use std::alloc::{AllocError, Global};
use std::marker::Model;

/// A page that is being written. Once memory was refused it takes nothing more. Contracts see its
/// octets and the elements that are open, the last one first; or none once memory was refused.
#[derive(Debug, Drop)]
pub struct Page {
    alloc: Global,
    octets: Vec<u8>,
    begun: Vec<Tag>,
    is_spent: bool,
}

impl Model for Page {
    ghost use Rattle.std.specs.Prelude.{◌≡◌, Option, Some, None, false, if◌then◌else◌, reverse};
    ghost use Rattle.picture_page.specs.Content.{Nests};
    ghost use Rattle.picture_page.specs.Sheet.{Sheet};

    ghost Value = { Option Sheet };

    ghost view = { λ page. if page.is_spent then None
        else Some (record { octets = page.octets.items; open_tags = reverse page.begun.items }) };

    ghost invariant = { λ page. page.is_spent ≡ false
        → Nests page.octets.items (reverse page.begun.items) };
}

impl Page {
    /// A page with nothing on it. It takes no memory.
    #[tactic(auto, using(crate::proofs::Nesting::nothing_nests))]
    pub fn new(alloc: Global) -> Page
        ensures { result ≡ Some (record { octets = []; open_tags = [] }) }
    {
        Page {
            alloc,
            octets: Vec::new(alloc),
            begun: Vec::new(alloc),
            is_spent: false,
        }
    }

    /// Appends octets as a text.
    #[tactic(auto, using(crate::proofs::Nesting::text_nests))]
    pub fn text(&mut self, octets: &[u8])
        ensures { Gains self.old self.new (escaped octets.now) }
    {
        if self.is_spent {
            return;
        }
        self.is_spent = put_escaped(octets, &mut self.octets).is_err();
    }

    /// Appends what the page says of itself to a browser. It belongs into its head.
    #[tactic(auto, using(crate::proofs::Nesting::meta_nests))]
    pub fn meta(&mut self, meta: Meta)
        ensures { Gains self.old self.new (meta_text meta) }
    {
        if self.is_spent {
            return;
        }
        self.is_spent = put_meta(meta, &mut self.octets).is_err();
    }

    /// Begins an element.
    #[tactic(auto, using(crate::proofs::Nesting::begun_nests, crate::proofs::Nesting::reversed_more))]
    pub fn begin(&mut self, tag: Tag, attributes: &[Attribute<'_>])
        ensures { Begins self.old self.new tag (start tag (map said attributes.now)) }
    {
        if self.is_spent {
            return;
        }
        self.is_spent = put_begun(tag, attributes, &mut self.octets, &mut self.begun).is_err();
    }

    /// Ends the element that was begun last, if one is open.
    #[tactic(auto, using(crate::proofs::Nesting::ended_nests, crate::proofs::Nesting::ended_is))]
    pub fn end(&mut self)
        ensures { Ends self.old self.new }
    {
        if self.is_spent {
            return;
        }
        self.is_spent = put_ended(&mut self.octets, &mut self.begun).is_err();
    }

    /// Appends an element that holds octets as a text alone.
    pub fn element(&mut self, tag: Tag, attributes: &[Attribute<'_>], octets: &[u8])
        ensures { Gains self.old self.new
            (start tag (map said attributes.now) ++ (escaped octets.now ++ finish tag)) }
    {
        self.begin(tag, attributes);
        self.text(octets);
        self.end();
    }

    /// The document: all elements that are open end. It is the spelling of a tree.
    #[tactic(auto, using(crate::proofs::Nesting::all_end))]
    pub fn into_document(self) -> Result<Vec<u8>, AllocError>
        ensures octets { IfOk result (λ document. Becomes self document.items) }
        ensures nested { IfOk result (λ document. IsDocument document.items) }
    {
        let Page {
            alloc,
            octets,
            begun,
            is_spent,
        } = self;
        if is_spent {
            return Err(AllocError);
        }
        let mut document = Vec::from_slice(alloc, DOCTYPE)?;
        document.extend_from_slice(octets.as_slice())?;
        put_finishes(begun, &mut document)?;
        Ok(document)
    }
}

const DOCTYPE: &[u8] = b"<!DOCTYPE html>\n";

// Appends the start of an element, which is open then.
fn put_begun(
    tag: Tag,
    attributes: &[Attribute<'_>],
    into: &mut Vec<u8>,
    begun: &mut Vec<Tag>,
) -> Result<(), AllocError>
    ensures octets { OnOk result (into.new.items
        ≡ into.old.items ++ start tag (map said attributes.now)) }
    ensures begun { OnOk result (begun.new.items ≡ begun.old.items ++ tag ∷ []) }
{
    put_start(tag, attributes, into)?;
    begun.push(tag)?;
    Ok(())
}

// Appends the end of the last open element, if there is one.
#[tactic(auto, using(crate::proofs::Nesting::popped_finishes))]
fn put_ended(into: &mut Vec<u8>, begun: &mut Vec<Tag>) -> Result<(), AllocError>
    ensures { OnOk result (Finishes into.old.items (reverse begun.old.items)
        into.new.items (reverse begun.new.items)) }
{
    match begun.pop() {
        Some(tag) => put_finish(tag, into),
        None => Ok(()),
    }
}

#[tactic(auto, unfolding(crate::specs::Content::start))]
fn put_start(tag: Tag, attributes: &[Attribute<'_>], into: &mut Vec<u8>) -> Result<(), AllocError>
    ensures { OnOk result (into.new.items
        ≡ into.old.items ++ start tag (map said attributes.now)) }
{
    into.extend_from_slice(b"<")?;
    into.extend_from_slice(tag.name().as_bytes())?;
    put_attributes(attributes, into)?;
    into.extend_from_slice(b">")
}

#[tactic(auto, unfolding(crate::specs::Content::finish))]
fn put_finish(tag: Tag, into: &mut Vec<u8>) -> Result<(), AllocError>
    ensures { OnOk result (into.new.items ≡ into.old.items ++ finish tag) }
{
    into.extend_from_slice(b"</")?;
    into.extend_from_slice(tag.name().as_bytes())?;
    into.extend_from_slice(b">")
}

// Appends the ends of elements, that of the last one first.
#[tactic(auto, using(crate::proofs::Nesting::finished_more))]
fn put_finishes(begun: Vec<Tag>, into: &mut Vec<u8>) -> Result<(), AllocError>
    ensures { OnOk result (into.new.items
        ≡ into.old.items ++ flat_map finish (reverse begun.items)) }
{
    let mut begun = begun;
    while let Some(tag) = begun.pop() {
        put_finish(tag, into)?;
    }
    Ok(())
}
