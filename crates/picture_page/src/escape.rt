// Octets as a page has them.
ghost use Rattle.std.specs.Prelude.{◌≡◌, ◌++◌, ◌<◌, OnOk, [], ◌∷◌};
ghost use Rattle.picture_page.specs.Escape.{escaped, shown, digit, is_plain, is_markup};

use std::alloc::AllocError;

/// Appends octets as `escaped` has them.
pub fn put_escaped(octets: &[u8], into: &mut Vec<u8>) -> Result<(), AllocError>
    ensures { OnOk result (into.new.items ≡ into.old.items ++ escaped octets.now) }
{
    for octet in octets {
        put_octet(*octet, into)?;
    }
    Ok(())
}

fn put_octet(octet: u8, into: &mut Vec<u8>) -> Result<(), AllocError>
    ensures { OnOk result (into.new.items ≡ into.old.items ++ shown octet) }
{
    if is_markup(octet) {
        return into.extend_from_slice(&[
            b'&',
            b'#',
            b'x',
            digit(octet / 16),
            digit(octet % 16),
            b';',
        ]);
    }
    if is_plain(octet) {
        into.push(octet)?;
        return Ok(());
    }
    into.extend_from_slice(&[b'\\', b'x', digit(octet / 16), digit(octet % 16)])
}

// Whether a page's own syntax may begin with this octet, or end.
fn is_markup(octet: u8) -> bool
    ensures { result ≡ is_markup octet }
{
    octet == b'&' || octet == b'<' || octet == b'>' || octet == b'"' || octet == b'\''
}

// Whether an octet stands for itself: a line end, or a printed character but the backslash.
fn is_plain(octet: u8) -> bool
    ensures { result ≡ is_plain octet }
{
    octet == b'\n' || (octet >= b' ' && octet <= b'~' && octet != b'\\')
}

// A hexadecimal digit.
fn digit(value: u8) -> u8
    requires { value < 16 }
    ensures { result ≡ digit value }
{
    if value < 10 {
        b'0' + value
    } else {
        b'a' - 10 + value
    }
}
