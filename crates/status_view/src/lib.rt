// The page of a running station for people, as a function of a snapshot.
//
// `page_text` is a document of `picture_page`: the verdict first, with each trouble in words and what to
// do, then a card each for the entries, the archive, the telecommands and the station, then a table of
// the doors. Counts are exact; ages, sizes and the time of the day are texts for people. What it says is
// `page_text` of `specs/Page.antt`. It has no script, loads nothing, and is read anew each five seconds.
//
// A page costs a walk over the snapshot, and twice the memory of its octets.
#![tactic(auto)]

mod cards;
mod doors;
mod page;
mod parts;
mod style;
mod texts;
mod verdict;

pub use page::page_text;
pub use style::STYLE;
