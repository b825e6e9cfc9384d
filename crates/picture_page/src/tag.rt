// The elements of a page.
ghost use Rattle.std.specs.Prelude.{◌≡◌};
ghost use Rattle.picture_page.specs.Content.{tag_name};

/// An element of HTML or of SVG that holds texts or elements. None of them loads or runs anything.
#[derive(Clone, Copy, Debug, PartialEq, Eq)]
pub enum Tag {
    Html,
    Head,
    /// A document's title; in a picture, what a pointer over its parent is told.
    Title,
    Style,
    Body,
    H1,
    H2,
    P,
    Div,
    Span,
    Table,
    Tr,
    Th,
    Td,
    A,
    Svg,
    G,
    Rect,
    Circle,
    Path,
    /// A text of a picture.
    Text,
}

impl Tag {
    /// How the element is named.
    pub fn name(self) -> &'static str
        ensures { result.now ≡ tag_name self }
    {
        match self {
            Tag::Html => "html",
            Tag::Head => "head",
            Tag::Title => "title",
            Tag::Style => "style",
            Tag::Body => "body",
            Tag::H1 => "h1",
            Tag::H2 => "h2",
            Tag::P => "p",
            Tag::Div => "div",
            Tag::Span => "span",
            Tag::Table => "table",
            Tag::Tr => "tr",
            Tag::Th => "th",
            Tag::Td => "td",
            Tag::A => "a",
            Tag::Svg => "svg",
            Tag::G => "g",
            Tag::Rect => "rect",
            Tag::Circle => "circle",
            Tag::Path => "path",
            Tag::Text => "text",
        }
    }
}
