// CDS times (CCSDS 301.0-B, day segmented code, epoch 1958-01-01) and the moments that they name.
//
// A moment is a `u128`: the picoseconds since 1958-01-01T00:00:00. A `Cds` holds the fields as they
// stand in its octets, in range or not, and `Cds::moment` says which moment they name, if any. The
// `laws` say that octets and fields give each other. A `Clock` gives readings: `MemoryClock` those
// of a list, `SystemClock` the times of the machine's Unix time, which a `UnixTime` shows.
//
// No call takes memory, and each costs the same whatever its values.
#![tactic(auto)]

mod cds;
mod clock;
pub mod laws;
mod memory_clock;
mod system_clock;
mod unix_time;

pub use cds::{
    Cds, DAYS, DAYS_TO_1970, MICROS_A_MILLI, MILLIS_A_DAY, MOMENT_END, PICOS_A_DAY, PICOS_A_MICRO,
    PICOS_A_MILLI, Rest,
};
pub use clock::Clock;
pub use memory_clock::MemoryClock;
pub use system_clock::SystemClock;
pub use unix_time::{MachineTime, UnixTime};
