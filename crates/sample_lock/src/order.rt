// What a clerk asks of the account, and what it is told.

use octet_core::Octets;

/// An amount that comes in or goes out.
#[derive(Clone, Copy, Debug, PartialEq, Eq)]
pub enum Posting {
    Deposit(u64),
    Withdrawal(u64),
}

/// A posting and the note beside it. The account takes both in.
#[derive(Drop)]
pub struct Order {
    pub posting: Posting,
    pub note: Octets,
}

/// What the account says to an order.
#[derive(Drop)]
pub enum Reply {
    /// The balance after it.
    Booked { balance: u64 },
    /// The order is handed back: the balance would fall below 0 or rise above 2^64 - 1, or the
    /// account has no room for another note.
    Refused { order: Order },
}
