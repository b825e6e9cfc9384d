ghost use Rattle.std.specs.Prelude.{◌≡◌, length, vec_len, IfOk};

use super::*;
use octet_core::Octets;
use std::alloc::Global;
use std::collections::VecDeque;
use std::hint;
use std::process::Abort;
use std::sync::Wait;
use std::sync::atomic::{AtomicU64, Ordering};
use std::test::*;
use std::thread::Threads;
use turn_lock::{Pass, Turns};

/// Orders in memory, and the replies to them. It tells the replies as long as it has memory for
/// them.
#[derive(Drop)]
struct Tray {
    orders: VecDeque<Order>,
    replies: Vec<Reply>,
    tells: bool,
}

impl Counter for Tray {
    ghost use Rattle.std.specs.Prelude.{Some, None, if◌then◌else◌};

    ghost answers = { λ t. None };

    ghost replies = { λ t. if t.tells then Some t.replies.items else None };

    fn next(&mut self) -> Option<Order> {
        self.orders.pop_front()
    }

    fn take(&mut self, reply: Reply) {
        if self.replies.push(reply).is_err() {
            self.tells = false;
        }
    }
}

/// Orders in memory, of which each is given once so many replies were taken at all desks of the
/// count. It doesn't tell.
#[derive(Drop)]
struct Waiting<'a> {
    orders: VecDeque<Order>,
    taken: &'a AtomicU64,
    next: u64,
}

impl<'a> Counter for Waiting<'a> {
    ghost use Rattle.std.specs.Prelude.{None};

    ghost answers = { λ w. None };

    ghost replies = { λ w. None };

    fn next(&mut self) -> Option<Order> {
        let order = self.orders.pop_front()?;
        for _look in 0..u64::MAX {
            if self.taken.load(Ordering::SeqCst) >= self.next {
                break;
            }
            hint::spin_loop();
        }
        self.next = self.next.saturating_add(2);
        Some(order)
    }

    fn take(&mut self, _reply: Reply) {
        self.taken.fetch_add(1, Ordering::SeqCst);
    }
}

/// A clock that goes on by 1. It tells its readings as long as it has memory for them.
#[derive(Drop)]
struct Ticks {
    next: u64,
    given: Vec<u64>,
    tells: bool,
}

impl Clock for Ticks {
    ghost use Rattle.std.specs.Prelude.{Some, None, if◌then◌else◌};

    ghost readings = { λ c. if c.tells then Some c.given.items else None };

    fn read(&mut self) -> u64 {
        let reading = self.next;
        if self.given.push(reading).is_err() {
            self.tells = false;
        }
        self.next = reading.saturating_add(1);
        reading
    }
}

fn order_of(alloc: Global, posting: Posting, note: &[u8]) -> Result<Order, octet_core::Memory> {
    Ok(Order {
        posting,
        note: Octets::copy_of(alloc, note)?,
    })
}

/// A post with these postings, each with a note of two octets.
fn post_of(alloc: Global, postings: &[Posting]) -> Result<Post<Tray, Ticks>, octet_core::Memory> {
    let mut orders = VecDeque::new(alloc);
    for posting in postings {
        orders.push_back(order_of(alloc, *posting, &[7, 9])?)?;
    }
    Ok(Post {
        counter: Tray {
            orders,
            replies: Vec::new(alloc),
            tells: true,
        },
        clock: Ticks {
            next: 10,
            given: Vec::new(alloc),
            tells: true,
        },
    })
}

fn booked_at(post: &Post<Tray, Ticks>, place: usize) -> Option<u64> {
    match post.counter.replies.get(place) {
        Some(Reply::Booked { balance }) => Some(*balance),
        _ => None,
    }
}

fn count_booked(post: &Post<Tray, Ticks>) -> usize {
    post.counter
        .replies
        .iter()
        .filter(|reply| matches!(reply, Reply::Booked { .. }))
        .count()
}

#[test]
fn five_clerks_share_an_account(rt: HostRuntime) -> Result<(), Fail> {
    let mut posts = Vec::new(rt.alloc());
    for _place in 0u8..5 {
        posts.push(post_of(rt.alloc(), &[Posting::Deposit(3); 20])?)?;
    }
    assert_eq!(rt; posts.len(), 5);
    let opening = Opening {
        balance: 1000,
        room: 70,
    };
    let account = Account::new(rt.alloc(), opening)?;
    let (account, _) = run_desks(&rt, rt.alloc(), account, posts.as_mut_slice(), 25)?;
    assert_eq!(rt; account.balance(), 1210);
    assert_eq!(rt; account.notes().len(), 70);
    let mut booked = 0usize;
    let mut replied = 0usize;
    for post in &posts {
        booked = booked.saturating_add(count_booked(post));
        replied = replied.saturating_add(post.counter.replies.len());
        assert!(rt; post.counter.orders.is_empty() && post.clock.given.len() == 20);
    }
    assert_eq!(rt; booked, 70);
    assert_eq!(rt; replied, 100);
    Ok(())
}

/// A post whose first order waits for so many replies, and each further one for two more.
fn waiting_post_of<'a>(
    alloc: Global,
    taken: &'a AtomicU64,
    next: u64,
) -> Result<Post<Waiting<'a>, Ticks>, octet_core::Memory> {
    let Post { counter, clock } = post_of(alloc, &[Posting::Deposit(1); 20])?;
    Ok(Post {
        counter: Waiting {
            orders: counter.orders,
            taken,
            next,
        },
        clock,
    })
}

// Each desk waits until the other one's last order was replied to: the clerks work side by side,
// and none keeps its turn while its desk waits. Else the test doesn't end.
#[test]
fn two_clerks_serve_desks_that_wait_for_each_other(rt: HostRuntime) -> Result<(), Fail> {
    let taken = AtomicU64::new(0);
    let mut posts = [
        waiting_post_of(rt.alloc(), &taken, 1)?,
        waiting_post_of(rt.alloc(), &taken, 0)?,
    ];
    let opening = Opening {
        balance: 0,
        room: 40,
    };
    let account = Account::new(rt.alloc(), opening)?;
    let (account, _) = run_desks(&rt, rt.alloc(), account, &mut posts, 20)?;
    assert_eq!(rt; (account.balance(), taken.load(Ordering::SeqCst)), (40, 40));
    Ok(())
}

#[test]
fn one_clerk_stops_when_its_turns_are_spent(rt: HostRuntime) -> Result<(), Fail> {
    let mut posts = Vec::new(rt.alloc());
    posts.push(post_of(
        rt.alloc(),
        &[
            Posting::Withdrawal(3),
            Posting::Withdrawal(3),
            Posting::Deposit(4),
            Posting::Deposit(1),
        ],
    )?)?;
    assert_eq!(rt; posts.len(), 1);
    let account = Account::new(
        rt.alloc(),
        Opening {
            balance: 5,
            room: 9,
        },
    )?;
    let (account, _) = run_desks(&rt, rt.alloc(), account, posts.as_mut_slice(), 3)?;
    assert_eq!(rt; account.balance(), 6);
    let post = posts.get(0).ok_or("no post")?;
    assert_eq!(rt; booked_at(post, 0), Some(2));
    assert_eq!(rt; booked_at(post, 1), None);
    assert_eq!(rt; booked_at(post, 2), Some(6));
    assert_eq!(rt; post.counter.replies.len(), 3);
    assert_eq!(rt; post.counter.orders.len(), 1);
    Ok(())
}

#[test]
fn hands_back_what_cannot_be_booked(rt: HostRuntime) -> Result<(), Fail> {
    let opening = Opening {
        balance: u64::MAX,
        room: 1,
    };
    let mut account = Account::new(rt.alloc(), opening)?;
    let Reply::Refused { order } = account.answer(
        1,
        order_of(rt.alloc(), Posting::Deposit(1), &[1, 2, 3])?,
    ) else {
        panic!(rt; "the balance would rise above the greatest")
    };
    assert!(rt; order.note.as_slice() == [1, 2, 3].as_slice());
    let reply = account.answer(2, order_of(rt.alloc(), Posting::Withdrawal(1), &[4])?);
    assert!(rt;
        matches!(
            reply,
            Reply::Booked {
                balance: 18446744073709551614
            }
        )
    );
    let reply = account.answer(3, order_of(rt.alloc(), Posting::Withdrawal(1), &[5])?);
    assert!(rt; matches!(reply, Reply::Refused { .. }));
    Ok(())
}

#[test]
fn serves_posts_at_seats_of_its_caller(rt: HostRuntime) -> Result<(), Fail> {
    let account = Account::new(
        rt.alloc(),
        Opening {
            balance: 0,
            room: 9,
        },
    )?;
    let (lock, mut pass): (Turns<Account, Booking>, Pass<Booking>) = Turns::new(
        rt.alloc(),
        account,
        4,
    )?;
    let other = lock.split(&mut pass, 1)?;
    let mut seats = [
        Seat { pass, spent: false },
        Seat {
            pass: other,
            spent: false,
        },
    ];
    let mut posts = [
        post_of(rt.alloc(), &[Posting::Deposit(2); 2])?,
        post_of(rt.alloc(), &[Posting::Deposit(2); 2])?,
    ];
    serve_posts(&rt, &lock, &mut seats, &mut posts, 5);
    assert!(rt; !seats[0].spent && seats[1].spent);
    assert_eq!(rt; seats[0].pass.left(), 1);
    assert_eq!(rt; count_booked(&posts[0]), 2);
    assert_eq!(rt; count_booked(&posts[1]), 1);
    Ok(())
}
