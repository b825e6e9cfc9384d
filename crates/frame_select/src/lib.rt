// Which frames of the archive a START asks for, what a session wants of a look at the archive, and
// what the look gives.
//
// Contracts see a selection, a want and a glimpse as `archive_terms` has them (`selection_of`,
// `want_of`, `glimpse_of`), and an item as a picked entry at its place with its continuity
// (`item_of`). An item doesn't say how many frames were lost before its own: its continuity does.
//
// Only `Items` takes memory, for its list; octets are shared and not copied.
#![tactic(auto)]

mod channel;
mod filter;
mod glimpse;
mod item;
mod items;
mod locks;
mod selection;
mod want;

pub use channel::channel_of;
pub use filter::Filter;
pub use glimpse::Glimpse;
pub use item::Item;
pub use items::Items;
pub use locks::Locks;
pub use selection::{Selection, admits};
pub use want::Want;
