// What a page says of itself to a browser.
ghost use Rattle.std.specs.Prelude.{◌≡◌, ◌++◌, OnOk};
ghost use Rattle.picture_page.specs.Meta.{between, meta_text};
ghost use Rattle.picture_page.specs.declared.meta.Meta.TheVariants as Meta;

use itoa::Buffer;
use std::alloc::AllocError;

/// What a page says of itself to a browser: an element without content, in its head.
#[derive(Clone, Copy, Debug, PartialEq, Eq)]
pub enum Meta {
    /// It is in UTF-8.
    Charset,
    /// It is as wide as the device.
    Viewport,
    /// It is read anew after so many seconds.
    Refresh(u32),
}

// Appends the element.
pub(crate) fn put_meta(meta: Meta, into: &mut Vec<u8>) -> Result<(), AllocError>
    ensures { OnOk result (into.new.items ≡ into.old.items ++ meta_text meta) }
{
    match meta {
        Meta::Charset => into.extend_from_slice(b"<meta charset=\"utf-8\">"),
        Meta::Viewport => into.extend_from_slice(
            b"<meta name=\"viewport\" content=\"width=device-width, initial-scale=1\">",
        ),
        Meta::Refresh(seconds) => put_refresh(seconds, into),
    }
}

fn put_refresh(seconds: u32, into: &mut Vec<u8>) -> Result<(), AllocError>
    ensures { OnOk result (into.new.items ≡ into.old.items ++ meta_text (Meta.Refresh seconds)) }
{
    let mut buffer = Buffer::new();
    let before = "<meta http-equiv=\"refresh\" content=\"";
    put_between(before, buffer.format(seconds), "\">", into)
}

// Appends a text between two others.
#[tactic(auto, unfolding(crate::specs::Meta::between))]
fn put_between(before: &str, text: &str, after: &str, into: &mut Vec<u8>) -> Result<(), AllocError>
    ensures { OnOk result (into.new.items
        ≡ into.old.items ++ between before.now text.now after.now) }
{
    into.extend_from_slice(before.as_bytes())?;
    into.extend_from_slice(text.as_bytes())?;
    into.extend_from_slice(after.as_bytes())
}
