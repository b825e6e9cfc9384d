// When a double yields.

use std::thread;

/// Numbers drawn from a seed, by which a double yields and rests. Of the seed 0 it does neither.
#[derive(Clone, Copy, Debug)]
pub struct Pace {
    drawn: u64,
}

impl Pace {
    /// The pace of a seed.
    pub fn new(seed: u64) -> Pace {
        Pace { drawn: seed }
    }

    // The next number, below 4, by a linear congruential generator (Knuth's MMIX).
    fn draw(&mut self) -> u64 {
        self.drawn = self
            .drawn
            .wrapping_mul(6_364_136_223_846_793_005)
            .wrapping_add(1_442_695_040_888_963_407);
        self.drawn >> 62
    }

    /// Yields up to three times, and says whether the double is to rest at this call, as at one
    /// of four.
    pub fn rests(&mut self) -> bool {
        if self.drawn == 0 {
            return false;
        }
        for _ in 0..self.draw() {
            thread::yield_now();
        }
        self.draw() == 0
    }
}
