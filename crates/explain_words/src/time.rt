// Times as ISO 8601 has them.
ghost use Rattle.std.specs.Prelude.{◌≡◌, pos, ◌+ℤ◌};
ghost use Rattle.jiff_core.specs.Date.{epoch_day};

use crate::text::Text;
use cds_time::{Cds, Rest};
use jiff_core::civil::Date;

// From -9999-01-01, where `jiff_core` begins to count, to 1958-01-01.
const DAYS_TO_1958: u32 = 4_367_204;

// The date of a day that is counted from 1958-01-01.
fn date_of(days: u16) -> Date
    ensures { epoch_day result +ℤ pos 4383 ≡ pos days }
{
    Date::from_days_since_min(DAYS_TO_1958 + u32::from(days))
}

/// Appends a field that is a time: by the day of the month, and by that of the year; or its fields,
/// where they name none.
pub fn put_time(name: &str, at: &Cds, text: &mut Text) {
    text.begin(name);
    if at.moment().is_some() {
        put_moment(at, text);
    } else {
        put_no_moment(at, text);
    }
    text.end();
}

/// Appends a field that is a time where one is known.
pub fn put_when(name: &str, at: &Option<Cds>, text: &mut Text) {
    match at {
        Some(at) => put_time(name, at, text),
        None => text.field(name, "undefined"),
    }
}

fn put_moment(at: &Cds, text: &mut Text) {
    let date = date_of(at.days);
    text.put_number(i128::from(date.year));
    text.put("-");
    text.put_padded(u32::from(date.month), 1);
    text.put("-");
    text.put_padded(u32::from(date.day), 1);
    put_clock(at, text);
    text.put(" (day ");
    text.put_number(i128::from(date.year));
    text.put("-");
    text.put_padded(u32::from(date.day_of_year()), 2);
    text.put(")");
}

// Appends the time of the day.
fn put_clock(at: &Cds, text: &mut Text) {
    let seconds = at.millis / 1_000;
    text.put("T");
    text.put_padded(seconds / 3_600, 1);
    text.put(":");
    text.put_padded(seconds / 60 % 60, 1);
    text.put(":");
    text.put_padded(seconds % 60, 1);
    text.put(".");
    text.put_padded(at.millis % 1_000, 2);
    match at.rest {
        Rest::Micros(micros) => text.put_padded(u32::from(micros), 2),
        Rest::Picos(picos) => text.put_padded(picos, 8),
    }
    text.put("Z");
}

fn put_no_moment(at: &Cds, text: &mut Text) {
    text.put("no time: day ");
    text.put_number(i128::from(at.days));
    text.put(", millisecond ");
    text.put_number(i128::from(at.millis));
    match at.rest {
        Rest::Micros(micros) => {
            text.put(", microsecond ");
            text.put_number(i128::from(micros));
        }
        Rest::Picos(picos) => {
            text.put(", picosecond ");
            text.put_number(i128::from(picos));
        }
    }
}
