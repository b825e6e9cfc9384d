// What the last line of an output says.

use explain_words::Text;
use std::alloc::{AllocError, Global};
use words::{Fixed, FixedText, Last, Long, Number, Octet, Then, Unread, read_line};

/// What a line says that ends an output.
#[derive(Clone, Copy, Debug)]
pub enum Ending {
    /// A line without a number: what it says in words.
    Plain(&'static str),
    /// `bad line N`: the script ran up to this line.
    BadLine { line: u32 },
    /// `bad site N C`: this line of the configuration is refused, for the cause 1 to 6.
    BadSite { line: u32, cause: u8 },
    /// `archive refused P`: from this octet on the file isn't an archive's.
    ArchiveRefused { place: u64 },
}

impl Ending {
    /// How a line ends an output, if it does.
    pub fn of(alloc: Global, line: &[u8]) -> Result<Option<Ending>, AllocError> {
        match plain(line) {
            Some(words) => Ok(Some(Ending::Plain(words))),
            None => bad_line(alloc, line),
        }
    }
}

// What the lines say that have no number.
const PLAIN: [(&[u8], &str); 5] = [
    (
        b"read fault",
        "the input couldn't be read, and nothing of it ran",
    ),
    (
        b"input too long",
        "the script has over 16777216 octets, and nothing of it ran",
    ),
    (
        b"disk fault",
        "the archive's file couldn't be opened, made, locked, read or written",
    ),
    (b"made", "a new archive file was made"),
    (b"usage", "no command has these words"),
];

fn plain(line: &[u8]) -> Option<&'static str> {
    for (text, words) in &PLAIN {
        if line == *text {
            return Some(words);
        }
    }
    None
}

fn bad_line(alloc: Global, line: &[u8]) -> Result<Option<Ending>, AllocError> {
    match read_line::<BadLine>(alloc, line) {
        Ok((_, (_, line))) => Ok(Some(Ending::BadLine { line })),
        Err(Unread::Bad) => bad_site(alloc, line),
        Err(Unread::Memory) => Err(AllocError),
    }
}

fn bad_site(alloc: Global, line: &[u8]) -> Result<Option<Ending>, AllocError> {
    match read_line::<BadSite>(alloc, line) {
        Ok((_, (_, (line, cause)))) => Ok(Some(Ending::BadSite { line, cause })),
        Err(Unread::Bad) => archive_refused(alloc, line),
        Err(Unread::Memory) => Err(AllocError),
    }
}

fn archive_refused(alloc: Global, line: &[u8]) -> Result<Option<Ending>, AllocError> {
    match read_line::<ArchiveRefused>(alloc, line) {
        Ok((_, (_, place))) => Ok(Some(Ending::ArchiveRefused { place })),
        Err(Unread::Bad) => Ok(None),
        Err(Unread::Memory) => Err(AllocError),
    }
}

/// Appends what the last line of an output says.
pub fn put_ending(ending: &Ending, text: &mut Text) {
    match ending {
        Ending::Plain(words) => text.title(words),
        Ending::BadLine { line } => text.counted(
            "line ",
            i128::from(*line),
            " of the script is bad: it ran up to there",
        ),
        Ending::BadSite { line, cause } => {
            text.counted(
                "line ",
                i128::from(*line),
                " of the configuration is refused",
            );
            text.field("cause", cause_of(*cause));
        }
        Ending::ArchiveRefused { place } => text.counted(
            "from octet ",
            i128::from(*place),
            " on the file isn't an archive's",
        ),
    }
}

// Why a line of a configuration is refused, 1 to 6.
fn cause_of(cause: u8) -> &'static str {
    match cause {
        1 => "no line begins with its first word",
        2 => "its form has another number of words",
        3 => "one of its words is malformed or out of range",
        4 => "an earlier line gives the setting, the name or the identifier",
        5 => "no line before it names its owner as a peer",
        _ => "it is a thirty-third peer, a thirty-third instance or a second cltu",
    }
}

type Any32 = Number<0, 4_294_967_295>;

type BadLine = Then<Fixed<Bad>, Then<Fixed<Line>, Last<Any32>>>;

type BadSite = Then<Fixed<Bad>, Then<Fixed<SiteWord>, Then<Any32, Last<Octet<1, 6>>>>>;

type ArchiveRefused = Then<Fixed<Archive>, Then<Fixed<Refused>, Last<Long<0, MOST>>>>;

const MOST: u64 = 18_446_744_073_709_551_615;

struct Bad;

impl FixedText for Bad {
    ghost use Rattle.std.specs.Prelude.{codes};

    ghost TEXT = { codes "bad" };

    fn text() -> &'static [u8] {
        b"bad"
    }
}

struct Line;

impl FixedText for Line {
    ghost use Rattle.std.specs.Prelude.{codes};

    ghost TEXT = { codes "line" };

    fn text() -> &'static [u8] {
        b"line"
    }
}

struct SiteWord;

impl FixedText for SiteWord {
    ghost use Rattle.std.specs.Prelude.{codes};

    ghost TEXT = { codes "site" };

    fn text() -> &'static [u8] {
        b"site"
    }
}

struct Archive;

impl FixedText for Archive {
    ghost use Rattle.std.specs.Prelude.{codes};

    ghost TEXT = { codes "archive" };

    fn text() -> &'static [u8] {
        b"archive"
    }
}

struct Refused;

impl FixedText for Refused {
    ghost use Rattle.std.specs.Prelude.{codes};

    ghost TEXT = { codes "refused" };

    fn text() -> &'static [u8] {
        b"refused"
    }
}
