ghost use Rattle.std.specs.Prelude.{◌≡◌, ◌≤◌};
ghost use Rattle.isp1_auth.specs.Numbers.{first_number, next_number};

use std::marker::Model;

/// The greatest number that credentials hold (CCSDS 913.1-B: INTEGER of 0 to 2147483647).
pub const GREATEST_NUMBER: u32 = 2_147_483_647;

/// The numbers of a session's credentials, one for each. They are this product's own: a linear
/// congruential generator, which makes credentials differ and hides nothing.
#[derive(Debug, Drop)]
pub struct RandomNumbers {
    latest: u32,
}

impl Model for RandomNumbers {
    ghost use Rattle.std.specs.Prelude.{ℕ};

    ghost Value = { ℕ };

    ghost view = { λ numbers. numbers.latest };
}

impl RandomNumbers {
    /// The numbers of a session, by the program's draw and the session's door.
    pub fn new(draw: u32, door: u32) -> RandomNumbers
        ensures { result ≡ first_number draw door }
    {
        let sum = u64::from(draw) + u64::from(door);
        RandomNumbers {
            latest: (sum % MODULUS) as u32,
        }
    }

    /// The number of the next credentials.
    pub fn next_number(&mut self) -> u32
        ensures exact { result ≡ next_number self.old }
        ensures kept { self.new ≡ result }
        ensures small { result ≤ GREATEST_NUMBER }
    {
        let product = FACTOR * u64::from(self.latest) + INCREMENT;
        self.latest = (product % MODULUS) as u32;
        self.latest
    }
}

const MODULUS: u64 = GREATEST_NUMBER as u64 + 1;

const FACTOR: u64 = 1_103_515_245;

const INCREMENT: u64 = 12_345;
