// The account, and what one thread does with it.
ghost use Rattle.std.specs.Prelude.{◌≡◌, IfOk};
ghost use Rattle.sample_lock.specs.Ledger.{opened, posted, after, reply_to};

use crate::booking::Booking;
use crate::order::{Order, Posting, Reply};
use octet_core::{Memory, Octets};
use std::alloc::Global;
use std::marker::Model;
use turn_lock::StandsFor;

/// What an account is opened with: a balance, and room for so many notes.
#[derive(Clone, Copy, Debug, PartialEq, Eq)]
pub struct Opening {
    pub balance: u64,
    pub room: usize,
}

/// A balance, and the notes of all orders that were booked.
#[derive(Drop)]
pub struct Account {
    opening: Opening,
    balance: u64,
    latest: u64,
    notes: Vec<Octets>,
}

impl Model for Account {
    ghost use Rattle.std.specs.Prelude.{◌≤◌, vec_len, vec_capacity};
    ghost use Rattle.sample_lock.specs.State.{State};

    ghost Value = { State };

    ghost view = { λ a. record {
      opening = a.opening;
      balance = a.balance;
      latest = a.latest;
      notes = a.notes.items;
    } };

    ghost invariant = { λ a. (vec_len a.notes ≤ a.opening.room)
        × (a.opening.room ≤ vec_capacity a.notes) };
}

impl StandsFor<Booking> for Account {
    ghost use Rattle.sample_lock.specs.Ledger.{StandsAs};

    ghost origin = { λ a. a.opening };

    ghost stands = { StandsAs };
}

impl Account {
    /// An account with the opening's balance, no booking and room for the opening's count of notes:
    /// all the memory that it ever takes. The error is that there was none.
    pub fn new(alloc: Global, opening: Opening) -> Result<Account, Memory>
        ensures { IfOk result (λ a. a ≡ opened opening) }
    {
        Ok(Account {
            opening,
            balance: opening.balance,
            latest: 0,
            notes: Vec::with_capacity(alloc, opening.room)?,
        })
    }

    /// What is in the account after the orders that were booked.
    pub fn balance(&self) -> u64
        ensures { result ≡ self.now.balance }
    {
        self.balance
    }

    /// The notes of the orders that were booked, the first one first.
    pub fn notes(&self) -> &[Octets]
        ensures { result.now ≡ self.now.notes }
    {
        self.notes.as_slice()
    }

    /// Books the order, or hands it back. It takes no memory.
    pub fn answer(&mut self, reading: u64, order: Order) -> Reply
        ensures account { self.new ≡ after self.old reading order }
        ensures reply { result ≡ reply_to self.old order }
    {
        if reading > self.latest {
            self.latest = reading;
        }
        if self.notes.len() == self.opening.room {
            return Reply::Refused { order };
        }
        let Some(balance) = balance_after(self.balance, order.posting) else {
            return Reply::Refused { order };
        };
        self.balance = balance;
        self.notes.push_reserved(order.note);
        Reply::Booked { balance }
    }
}

/// The balance after a posting, if it can be made.
fn balance_after(balance: u64, posting: Posting) -> Option<u64>
    ensures { result ≡ posted balance posting }
{
    match posting {
        Posting::Deposit(amount) => balance.checked_add(amount),
        Posting::Withdrawal(amount) => balance.checked_sub(amount),
    }
}
