// What the book told.
use cltu_queue::{Notice, UplinkView};
use frame_select::Glimpse;
use station_book::BookReply;

/// The book's reply to what was asked, the look, the notice that is to be told, and the forward
/// service's numbers.
#[derive(Drop)]
pub struct Replied {
    /// The book's reply.
    pub reply: BookReply,
    /// The look.
    pub glimpse: Glimpse,
    /// The notice that is to be told.
    pub notice: Option<Notice>,
    /// The forward service's numbers.
    pub view: UplinkView,
}
