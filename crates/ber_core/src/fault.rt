// Why octets in the place of an element are refused.
use std::error::Error;
use std::fmt;

/// The first fault of octets in the place of an element, in reading order. A place counts from the
/// first octet that the reader was given.
#[derive(Clone, Copy, Debug, PartialEq, Eq)]
pub enum BerFault {
    /// The input ends inside the outermost element, which begins here.
    Cut { place: usize },
    /// The element that begins here has another identifier; its first octet is `found`.
    WrongTag { place: usize, found: u8 },
    /// The length here isn't definite, or not of at most 8 octets, or passes the element around it;
    /// or an octet is missing or too many here.
    BadLength { place: usize },
    /// The content that begins here breaks the rules of its type or is out of its range.
    BadContent { place: usize },
    /// The INTEGER content that begins here has more than 64 bits.
    Wide { place: usize },
}

impl fmt::Display for BerFault {
    fn fmt<W: fmt::Write>(&self, f: &mut fmt::Formatter<W>) -> fmt::Result {
        match self {
            BerFault::Cut { place } => write!(f, "cut inside the element at octet {place}"),
            BerFault::WrongTag { place, found } => {
                write!(
                    f,
                    "another identifier at octet {place}, beginning with {found:#04x}"
                )
            }
            BerFault::BadLength { place } => write!(f, "no fitting length at octet {place}"),
            BerFault::BadContent { place } => write!(f, "no content of its type at octet {place}"),
            BerFault::Wide { place } => write!(f, "an INTEGER of over 64 bits at octet {place}"),
        }
    }
}

impl Error for BerFault {}
