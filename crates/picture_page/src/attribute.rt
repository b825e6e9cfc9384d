// The attributes of elements.
ghost use Rattle.std.specs.Prelude.{◌≡◌, ◌++◌, [], ◌∷◌, OnOk, codes, decimal, map};
ghost use Rattle.std.specs.List.{flat_map};
ghost use Rattle.picture_page.specs.Attributes.{attribute_name, attribute_text, said, value_of};
ghost use Rattle.picture_page.specs.Escape.{escaped};

use crate::escape::put_escaped;
use itoa::Buffer;
use std::alloc::AllocError;

/// The name of an attribute.
#[derive(Clone, Copy, Debug, PartialEq, Eq)]
pub enum Name {
    Class,
    Id,
    Lang,
    /// Where a link leads. A value that begins with `#` is a place of the page itself.
    Href,
    Role,
    ViewBox,
    X,
    Y,
    Width,
    Height,
    Cx,
    Cy,
    R,
    /// The lines of a path.
    D,
}

impl Name {
    /// How the attribute is named.
    pub fn name(self) -> &'static str
        ensures { result.now ≡ attribute_name self }
    {
        match self {
            Name::Class => "class",
            Name::Id => "id",
            Name::Lang => "lang",
            Name::Href => "href",
            Name::Role => "role",
            Name::ViewBox => "viewBox",
            Name::X => "x",
            Name::Y => "y",
            Name::Width => "width",
            Name::Height => "height",
            Name::Cx => "cx",
            Name::Cy => "cy",
            Name::R => "r",
            Name::D => "d",
        }
    }
}

/// What an attribute is.
#[derive(Clone, Copy, Debug)]
pub enum Value<'a> {
    Octets(&'a [u8]),
    Number(u32),
}

/// An attribute with its value.
#[derive(Clone, Copy, Debug)]
pub struct Attribute<'a> {
    pub name: Name,
    pub value: Value<'a>,
}

impl<'a> Attribute<'a> {
    /// An attribute that is octets.
    pub fn octets(name: Name, octets: &'a [u8]) -> Attribute<'a>
        ensures { said result ≡ record { name = name; octets = octets.now } }
    {
        Attribute {
            name,
            value: Value::Octets(octets),
        }
    }

    /// An attribute that is a number, in decimal digits.
    pub fn number(name: Name, number: u32) -> Attribute<'a>
        ensures { said result ≡ record { name = name; octets = decimal number } }
    {
        Attribute {
            name,
            value: Value::Number(number),
        }
    }
}

/// Appends attributes, each behind a blank.
pub fn put_attributes(attributes: &[Attribute<'_>], into: &mut Vec<u8>) -> Result<(), AllocError>
    ensures { OnOk result (into.new.items
        ≡ into.old.items ++ flat_map attribute_text (map said attributes.now)) }
{
    for attribute in attributes {
        put_attribute(attribute, into)?;
    }
    Ok(())
}

fn put_attribute(attribute: &Attribute<'_>, into: &mut Vec<u8>) -> Result<(), AllocError>
    ensures { OnOk result (into.new.items
        ≡ into.old.items ++ attribute_text (said attribute.now)) }
{
    into.extend_from_slice(b" ")?;
    into.extend_from_slice(attribute.name.name().as_bytes())?;
    into.extend_from_slice(b"=\"")?;
    put_value(&attribute.value, into)?;
    into.extend_from_slice(b"\"")
}

fn put_value(value: &Value<'_>, into: &mut Vec<u8>) -> Result<(), AllocError>
    ensures { OnOk result (into.new.items ≡ into.old.items ++ escaped (value_of value.now)) }
{
    match value {
        Value::Octets(octets) => put_escaped(octets, into),
        Value::Number(number) => {
            let mut buffer = Buffer::new();
            put_escaped(buffer.format(*number).as_bytes(), into)
        }
    }
}
