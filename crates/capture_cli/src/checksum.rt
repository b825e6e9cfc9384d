// The checksum of the Internet's headers (RFC 1071).

/// The sum of 16-bit words so far, with the carries added in.
#[derive(Clone, Copy, Debug, PartialEq, Eq)]
pub struct Checksum(u16);

impl Checksum {
    /// The sum of nothing.
    pub fn new() -> Checksum {
        Checksum(0)
    }

    /// Adds octets, two to a word; an odd last one is the upper half of its word.
    pub fn add(self, octets: &[u8]) -> Checksum {
        let mut sum = self;
        for pair in octets.chunks(2) {
            sum = match pair {
                [upper, lower] => sum.add_word(u16::from_be_bytes([*upper, *lower])),
                [upper] => sum.add_word(u16::from_be_bytes([*upper, 0])),
                _ => sum,
            };
        }
        sum
    }

    fn add_word(self, word: u16) -> Checksum {
        let (sum, is_carried) = self.0.overflowing_add(word);
        Checksum(if is_carried { sum.wrapping_add(1) } else { sum })
    }

    /// What the header's field holds: the complement.
    pub fn octets(self) -> [u8; 2] {
        (!self.0).to_be_bytes()
    }
}
