// A transcript with a mark before what each line led to.
ghost use Rattle.std.specs.Prelude.{◌≡◌};
ghost use Rattle.pass_reading.specs.Lines.{without_end};

use words::split_part;

// The line of the transcript that marks where what a line led to begins.
const MARK: &[u8] = b"refused 3";

// What is left of such a transcript.
#[derive(Clone, Copy, Debug)]
pub struct Marked<'a> {
    left: &'a [u8],
}

impl<'a> Marked<'a> {
    pub(crate) fn new(transcript: &'a [u8]) -> Marked<'a> {
        Marked { left: transcript }
    }

    // Takes the mark that is next, if one is.
    pub(crate) fn take_mark(&mut self) -> bool {
        let (line, behind) = split_part(b'\n', self.left);
        if line != MARK {
            return false;
        }
        self.left = behind.unwrap_or(&[]);
        true
    }

    // Takes the lines up to the next mark.
    pub(crate) fn take_said(&mut self) -> &'a [u8] {
        self.take(said_length(self.left))
    }

    // Takes one line, also one like a mark.
    pub(crate) fn take_line(&mut self) -> &'a [u8] {
        let (line, _) = split_part(b'\n', self.left);
        self.take(line.len().saturating_add(1))
    }

    fn take(&mut self, length: usize) -> &'a [u8] {
        let (front, behind) = self.left.split_at(length.min(self.left.len()));
        self.left = behind;
        front
    }
}

// How long the lines before the next mark are, with their ends.
fn said_length(transcript: &[u8]) -> usize {
    let mut length = 0usize;
    for line in transcript.split(|octet| *octet == b'\n') {
        if line == MARK {
            return length;
        }
        length = length.saturating_add(line.len()).saturating_add(1);
    }
    length
}

// A text's lines, without the end of the last one.
#[tactic(auto, using(crate::proofs::Lines::ended_is, crate::proofs::Lines::other_is))]
pub(crate) fn without_end(text: &[u8]) -> &[u8]
    ensures { result.now ≡ without_end text.now }
{
    match text.split_last() {
        Some((last, front)) if *last == b'\n' => front,
        _ => text,
    }
}
