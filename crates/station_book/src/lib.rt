// The book of all that a station's workers share: the published entries with their index, the
// forward service's queue, which door has which instance, which workers are gone, and the latest
// moment.
//
// The definition in `specs/History.antt` says what one thread gets that makes calls of the book
// one after the other: an event names a call, its moment and its whole reply, each reply is what
// the replay of the events before it gives, and a list is legal where that holds of all. `Book`
// does exactly that, call by call: `new`, `peek`, `front`, `look`, `publish`, `answer`, `quit`, `take`,
// `done`, `interrupted`, `uplink`, `gone`, `all_gone`, `view`. Under the lock of `turn_lock` a
// book stands for the list of its events (`StandsFor<Event>`), and an `Event` names a call by what
// determines it. `laws` has what holds of every legal history, lawful radiation among it.
//
// `look` and `answer` cost what they give, and a search in the index: their reads of entries and
// rows are at most six for each item and eight for each binary digit of the number of entries, and
// eight more (`look_counted`, `answer_counted`). They share the octets of what they give. `publish`
// costs what it is handed. All other calls take constant time but for the number of instances and
// what a stop discards.
#![tactic(auto)]

mod book;
mod book_parts;
mod event;
mod extend;
pub mod laws;
mod limits;
mod publish_fault;
mod service_kind;
mod site;

pub use archive_index::Steps;
pub use book::Book;
pub use book_parts::BookParts;
pub use cltu_queue::{Ask, BookReply};
pub use event::{Event, Opening, Station};
pub use publish_fault::PublishFault;
pub use service_kind::ServiceKind;
