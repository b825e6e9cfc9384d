// A picture of lanes: what happened, in columns of one order, in a lane for each thing it happened
// to.
//
// A `Lane` holds marks, each in a column or over some, with a text that stands on it and one that a
// pointer over it is told. `begin_page` begins a page with its style, and `put_lanes` draws lanes
// below one another, with their names beside them. The page holds what its calls are given, and is
// made of these elements alone, whose tags and escapes `picture_page` promises; nothing is promised
// of places and looks. Drawing goes over each mark once.
#![tactic(auto)]

mod drawing;
mod lane;
mod look;
mod page;
mod place;

pub use drawing::put_lanes;
pub use lane::{Lane, Mark};
pub use look::Look;
pub use page::begin_page;
