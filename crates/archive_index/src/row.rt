// A row of a sorted list, and the search among rows.
ghost use Rattle.std.specs.Prelude.{◌≡◌, ◌+◌, ◌*◌, ◌<◌, ◌≤◌, ◌^◌, ℕ, List, length, slice_get, Some, IfSome};
ghost use Rattle.archive_index.specs.Rows.{IsFirstFrom, IsRising, IsThrough, row_before};

use crate::shelf::Shelf;
use crate::steps::Steps;
use std::sync::ledger::Ledger;

/// What a sorted list keeps of an entry: its place, its moment, and how many frames were lost up to
/// and including it.
#[derive(Clone, Copy, Debug, PartialEq, Eq)]
pub struct Row {
    pub moment: u128,
    pub place: u64,
    pub lost: u64,
}

// A number past the rows names this one.
const NO_ROW: Row = Row {
    moment: 0,
    place: 0,
    lost: 0,
};

impl Row {
    ghost use Rattle.archive_index.specs.Rows.{reaches};

    // Whether it is at a place or after it, at a moment or later.
    pub(crate) fn reaches(&self, place: u64, moment: u128) -> bool
        ensures { result ≡ reaches place moment self.now }
    {
        place <= self.place && moment <= self.moment
    }
}

/// Where rows begin to reach a place and a moment: how many don't, the last of these, and the first
/// that does.
#[derive(Clone, Copy, Debug)]
pub(crate) struct Spot {
    pub(crate) count: u64,
    pub(crate) before: Option<Row>,
    pub(crate) behind: Option<Row>,
}

// Finds the first row at a place or after it, at a moment or later.
pub(crate) fn first_from<L: Ledger>(
    rows: &Shelf<Row>,
    place: u64,
    moment: u128,
    steps: &mut Steps<L>,
) -> Spot
    ensures within { result.count ≤ length rows.now }
    ensures before { result.before ≡ row_before rows.now result.count }
    ensures behind { result.behind ≡ slice_get rows.now result.count }
    ensures first { IsRising rows.now → IsFirstFrom place moment rows.now result.count }
    ensures steps { (b : ℕ) → length rows.now < 2 ^ b → steps.new ≤ steps.old + b }
{
    let mut low = 0;
    let mut high = rows.length();
    let mut before = None;
    let mut behind = None;
    while low < high {
        let middle = low + (high - low) / 2;
        let row = *rows.read(middle, steps);
        if row.reaches(place, moment) {
            high = middle;
            behind = Some(row);
        } else {
            low = middle + 1;
            before = Some(row);
        }
    }
    Spot {
        count: low,
        before,
        behind,
    }
}

// The row that a list of numbers names at a place.
pub(crate) fn named_row<L: Ledger>(
    rows: &Shelf<Row>,
    numbers: &Shelf<u64>,
    place: u64,
    steps: &mut Steps<L>,
) -> Row
    requires { place < length numbers.now }
    ensures row { (named : List Row) → IsThrough rows.now numbers.now named
        → slice_get named place ≡ Some result }
    ensures steps { steps.new ≤ steps.old + 2 }
{
    let number = *numbers.read(place, steps);
    if number >= rows.length() {
        return NO_ROW;
    }
    *rows.read(number, steps)
}

// The row at a place of a list, if there is one.
pub(crate) fn row_in<L: Ledger>(rows: &Shelf<Row>, place: u64, steps: &mut Steps<L>) -> Option<Row>
    ensures row { result ≡ slice_get rows.now place }
    ensures room { IfSome result (λ _. place + 1 < 2 ^ 64) }
    ensures steps { steps.new ≤ steps.old + 1 }
{
    if place >= rows.length() {
        return None;
    }
    Some(*rows.read(place, steps))
}

// The row that a list of numbers names at a place, if there is one.
pub(crate) fn row_among<L: Ledger>(
    rows: &Shelf<Row>,
    numbers: &Shelf<u64>,
    place: u64,
    steps: &mut Steps<L>,
) -> Option<Row>
    ensures row { (named : List Row) → IsThrough rows.now numbers.now named
        → result ≡ slice_get named place }
    ensures room { IfSome result (λ _. place + 1 < 2 ^ 64) }
    ensures steps { steps.new ≤ steps.old + 2 }
{
    if place >= numbers.length() {
        return None;
    }
    Some(named_row(rows, numbers, place, steps))
}

// Finds the first of the rows that a list of numbers names at a place or after it, at a moment or
// later.
pub(crate) fn first_named<L: Ledger>(
    rows: &Shelf<Row>,
    numbers: &Shelf<u64>,
    place: u64,
    moment: u128,
    steps: &mut Steps<L>,
) -> u64
    ensures within { result ≤ length numbers.now }
    ensures first { (named : List Row) → IsThrough rows.now numbers.now named → IsRising named
        → IsFirstFrom place moment named result }
    ensures steps { (b : ℕ) → length numbers.now < 2 ^ b → steps.new ≤ steps.old + 2 * b }
{
    let mut low = 0;
    let mut high = numbers.length();
    while low < high {
        let middle = low + (high - low) / 2;
        if named_row(rows, numbers, middle, steps).reaches(place, moment) {
            high = middle;
        } else {
            low = middle + 1;
        }
    }
    low
}
