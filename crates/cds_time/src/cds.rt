// Times by their fields, and the moments that they name.
ghost use Rattle.std.specs.Prelude.{◌≡◌, ◌+◌, ◌*◌, ◌/◌, ◌<◌, ◌≤◌, ◌++◌, length, take, drop, Some};
ghost use Rattle.std.specs.Prelude.{IfSome, IsTrue};
ghost use Rattle.std.specs.Duration.{as_nanos};
ghost use Rattle.cds_time.specs.Moment.{moment_of, octets_of, of_micro_octets, of_pico_octets};
ghost use Rattle.cds_time.specs.Moment.{is_micros, in_micros};
ghost use Rattle.cds_time.specs.Unix.{of_unix_time};

use std::time::Duration;

/// The days that a CDS time can name: those that two octets count.
pub const DAYS: u128 = 65_536;

/// The milliseconds of a day. CDS time has no leap second.
pub const MILLIS_A_DAY: u64 = 86_400_000;

/// The microseconds of a millisecond.
pub const MICROS_A_MILLI: u64 = 1_000;

/// The picoseconds of a microsecond.
pub const PICOS_A_MICRO: u128 = 1_000_000;

/// The picoseconds of a millisecond.
pub const PICOS_A_MILLI: u128 = 1_000_000_000;

/// The picoseconds of a day.
pub const PICOS_A_DAY: u128 = MILLIS_A_DAY as u128 * PICOS_A_MILLI;

/// The days from 1958-01-01 to 1970-01-01: twelve years, and the leap days of 1960, 1964 and 1968.
pub const DAYS_TO_1970: u128 = 4_383;

const PICOS_A_NANO: u128 = 1_000;

/// The first moment past the last day that a CDS time can name, in picoseconds.
pub const MOMENT_END: u128 = DAYS * PICOS_A_DAY;

/// The part of a CDS time below the millisecond, in the form that it stands in.
#[derive(Clone, Copy, Debug, PartialEq, Eq)]
pub enum Rest {
    /// Microseconds, two octets, in range to 999.
    Micros(u16),
    /// Picoseconds, four octets, in range to 999,999,999.
    Picos(u32),
}

/// A CDS time (CCSDS 301.0-B, epoch 1958-01-01): its fields as they stand, in range or not.
#[derive(Clone, Copy, Debug, PartialEq, Eq)]
pub struct Cds {
    /// Days since 1958-01-01.
    pub days: u16,
    /// Milliseconds of the day, in range to 86,399,999.
    pub millis: u32,
    /// What is left below the millisecond.
    pub rest: Rest,
}

impl Cds {
    /// 1958-01-01T00:00:00, the moment 0.
    pub const EPOCH: Cds = Cds {
        days: 0,
        millis: 0,
        rest: Rest::Micros(0),
    };

    /// The moment that the time names, or none where a field is out of its range.
    pub fn moment(&self) -> Option<u128>
        ensures exact { result ≡ moment_of self.now }
        ensures below { IfSome result (λ moment. moment < MOMENT_END) }
    {
        let millis = u64::from(self.millis);
        if millis >= MILLIS_A_DAY {
            return None;
        }
        let picos = self.rest.picos()?;
        let millis = u64::from(self.days) * MILLIS_A_DAY + millis;
        Some(u128::from(millis) * PICOS_A_MILLI + picos)
    }

    /// The time in these 8 octets: days 2, milliseconds 4, microseconds 2.
    pub fn from_micro(octets: &[u8; 8]) -> Cds
        ensures fields { result ≡ of_micro_octets octets.now }
        ensures octets { octets_of result ≡ octets.now }
    {
        let [d0, d1, m0, m1, m2, m3, u0, u1] = *octets;
        Cds {
            days: u16::from_be_bytes([d0, d1]),
            millis: u32::from_be_bytes([m0, m1, m2, m3]),
            rest: Rest::Micros(u16::from_be_bytes([u0, u1])),
        }
    }

    /// The time in these 10 octets: days 2, milliseconds 4, picoseconds 4.
    pub fn from_pico(octets: &[u8; 10]) -> Cds
        ensures fields { result ≡ of_pico_octets octets.now }
        ensures octets { octets_of result ≡ octets.now }
    {
        let [d0, d1, m0, m1, m2, m3, p0, p1, p2, p3] = *octets;
        Cds {
            days: u16::from_be_bytes([d0, d1]),
            millis: u32::from_be_bytes([m0, m1, m2, m3]),
            rest: Rest::Picos(u32::from_be_bytes([p0, p1, p2, p3])),
        }
    }

    /// Writes the time's octets at the head of `into`, and answers how many: 8 or 10 by the form.
    pub fn put(&self, into: &mut [u8; 10]) -> usize
        ensures length { result ≡ length (octets_of self.now) }
        ensures octets { into.new ≡ octets_of self.now ++ drop result into.old }
    {
        let [d0, d1] = self.days.to_be_bytes();
        let [m0, m1, m2, m3] = self.millis.to_be_bytes();
        match self.rest {
            Rest::Micros(micros) => {
                let [u0, u1] = micros.to_be_bytes();
                into[..8].copy_from_slice(&[d0, d1, m0, m1, m2, m3, u0, u1]);
                8
            }
            Rest::Picos(picos) => {
                let [p0, p1, p2, p3] = picos.to_be_bytes();
                into[..10].copy_from_slice(&[d0, d1, m0, m1, m2, m3, p0, p1, p2, p3]);
                10
            }
        }
    }

    /// The time of a moment in the microsecond form, rounded down to the microsecond.
    pub fn of_moment(moment: u128) -> Cds
        requires { moment < MOMENT_END }
        ensures exact { result ≡ in_micros moment }
        ensures rounded { moment_of result ≡ Some (moment / PICOS_A_MICRO * PICOS_A_MICRO) }
        ensures form { IsTrue (is_micros result.rest) }
    {
        let micros = (moment / PICOS_A_MICRO) as u64;
        let millis = micros / MICROS_A_MILLI;
        Cds {
            days: (millis / MILLIS_A_DAY) as u16,
            millis: (millis % MILLIS_A_DAY) as u32,
            rest: Rest::Micros((micros % MICROS_A_MILLI) as u16),
        }
    }

    /// The time of a Unix time (POSIX, Seconds Since the Epoch: days of 86,400 seconds since
    /// 1970-01-01 UTC), rounded down to the microsecond, or none past the last day of CDS time.
    pub fn of_unix_time(since_1970: Duration) -> Option<Cds>
        ensures { result ≡ of_unix_time (as_nanos since_1970) }
    {
        let moment = DAYS_TO_1970 * PICOS_A_DAY + since_1970.as_nanos() * PICOS_A_NANO;
        (moment < MOMENT_END).then(|| Cds::of_moment(moment))
    }
}

impl Rest {
    ghost use Rattle.std.specs.Prelude.{if◌then◌else◌, None};
    ghost use Rattle.cds_time.specs.Moment.{picos_of, is_within_milli};

    // The picoseconds, or none where they don't lie within a millisecond.
    fn picos(self) -> Option<u128>
        ensures { result ≡ (if is_within_milli self then Some (picos_of self) else None) }
    {
        let picos = match self {
            Rest::Micros(micros) => u128::from(micros) * PICOS_A_MICRO,
            Rest::Picos(picos) => u128::from(picos),
        };
        (picos < PICOS_A_MILLI).then_some(picos)
    }
}
