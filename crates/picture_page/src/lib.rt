// A page of HTML with pictures in SVG, written piece by piece.
//
// A `Page` takes texts, and begins and ends elements. Whatever is asked of it, in whatever order,
// what it becomes at its end is a document: `<!DOCTYPE html>`, and behind it the spelling of a tree
// of elements and texts (`specs/Content.antt`), so that each tag has its end in its place. A text
// and an attribute's value stand in it as `escaped` says (`specs/Escape.antt`): no octet of them
// begins or ends a tag, an attribute or a reference, and the page has none but those of ASCII.
//
// Tags and names of attributes are those of two enums, which have no script, no link to another
// place and nothing that is loaded. Each call costs what it writes.
#![tactic(auto)]

mod attribute;
mod escape;
mod meta;
mod page;
mod tag;

pub use attribute::{Attribute, Name, Value};
pub use meta::Meta;
pub use page::Page;
pub use tag::Tag;
