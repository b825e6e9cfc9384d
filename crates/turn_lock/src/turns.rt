// The lock.
ghost use Rattle.std.specs.Prelude.{◌≡◌, ◌≢◌, ℕ, ◌+◌, ◌-◌, ◌^◌, ◌<◌, ◌≤◌, [], ◌∷◌, ◌++◌, IfOk};
ghost use Rattle.std.specs.Prelude.{IfErr, IsOk, IsOkAnd, MatchResult, IsSome, Some, None};
ghost use mathlib.Core.List.{IsPrefix};
ghost use Rattle.turn_lock.specs.PassState.{lock_of, pass_state};
ghost use Rattle.turn_lock.specs.Own.{mark, own_with, AllStand, MakeUp};
ghost use Rattle.turn_lock.specs.Rule.{own_lists, with_added};
ghost use Rattle.turn_lock.specs.Steps.{entering, finding, Takes, HasTaken, seeing, adding};
ghost use Rattle.turn_lock.specs.Steps.{resting, giving, given, given_back, both, lent, longer};
ghost use Rattle.turn_lock.specs.Steps.{list_of, IsSameSeat, IsSeatOf};
ghost use Rattle.turn_lock.specs.declared.pass.Standing.TheVariants.{Ready, InTurn, Closed};

use crate::event::{HistoryEvent, Names, StandsFor};
use crate::guard::Guard;
use crate::lock_fault::LockFault;
use crate::pass::Pass;
use crate::steps::{
    Add, Close, Draw, End, Give, Learn, Lend, Look, Naming, See, Share, Stub, Unite,
};
use crate::turn::Turn;
use crate::view::{Law, Start, View};
use atomic_table::{Badge, Seat, Shared, Table};
use std::alloc::Global;
use std::hint;
use std::marker::{Brand, Model};
use std::snapshot::Snapshot;
use std::sync::Wait;

/// The word from which tickets are drawn.
const TICKET: usize = 0;

/// The word with the ticket that is served.
const SERVING: usize = 1;

/// The word that counts the events of the history.
const COUNT: usize = 2;

/// How often a thread looks again before it sleeps.
const SPINS: u32 = 100;

type Words<T, E> = Shared<Option<T>, View<E>, Start<T>, Law>;

type Place<T, E> = Seat<Option<T>, View<E>>;

/// A lock over a value. Threads share it by reference where the value may go from one to another.
#[derive(Drop)]
pub struct Turns<T: StandsFor<E>, E: HistoryEvent> {
    table: Table<Option<T>, View<E>, Start<T>, Law, Global>,
    keeper: Guard<View<E>>,
}

impl<T: StandsFor<E>, E: HistoryEvent> Model for Turns<T, E> {
    ghost use Rattle.std.specs.Prelude.{◌≡◌, ◌^◌, ◌≤◌, [], ◌∷◌};
    ghost use Rattle.turn_lock.specs.PassState.{Lock, IsKeeper};

    ghost Value = { Lock E.Origin };

    ghost view = { λ l. record {
      table = l.table.shared.table_id;
      origin = T.origin l.table.shared.key.value.value;
      turns = l.table.shared.key.turns;
    } };

    ghost invariant = { λ l. (l.table.shared.table_id.words ≡ 3)
        × (l.table.shared.table_id.slots ≡ 1) × (l.table.shared.key.turns ≤ 2 ^ 62)
        × IsKeeper l.keeper.badge l.table.shared.table_id (T.origin l.table.shared.key.value.value)
        l.table.shared.key.turns };
}

/// Draws a ticket for a turn.
fn draw<T: StandsFor<E>, E: HistoryEvent>(words: &Words<T, E>, seat: &mut Place<T, E>) -> u64
    requires table { IsSeatOf words.now.table_id seat.old
        × (words.now.key.turns ≤ 2 ^ 62) }
    requires ready { (seat.old.me.0.ticket ≡ None) × (seat.old.me.0.kept ≡ None)
        × (0 < seat.old.me.0.left) }
    ensures seat { IsSameSeat seat.old seat.new }
    ensures drawn { seat.new.me ≡ (entering seat.old.me.0 result, seat.old.me.1) }
{
    words.fetch_add::<Draw>(seat, TICKET, 1)
}

/// Spins for a short time, and says whether another ticket is served by then.
fn has_moved<T: StandsFor<E>, E: HistoryEvent>(words: &Words<T, E>, serving: u64) -> bool
    requires { words.now.table_id.words ≡ 3 }
{
    for _ in 0..SPINS {
        if words.peek(SERVING) != serving {
            return true;
        }
        hint::spin_loop();
    }
    false
}

/// Reads which ticket is served, and takes the value where it is the seat's.
fn look<T: StandsFor<E>, E: HistoryEvent>(
    words: &Words<T, E>,
    seat: &mut Place<T, E>,
    ticket: u64,
) -> u64
    requires table { IsSeatOf words.now.table_id seat.old }
    requires waits { (seat.old.me.0.ticket ≡ Some ticket) × (seat.old.me.0.kept ≡ None) }
    ensures seat { IsSameSeat seat.old seat.new }
    ensures takes { result ≡ ticket
        → Takes T.origin T.stands seat.old.me.0 seat.old.me seat.new.me }
    ensures stays { result ≢ ticket → seat.new.me ≡ seat.old.me }
{
    words.load::<Look>(seat, SERVING)
}

/// Waits for the ticket of the seat, and takes the value.
fn wait_for<T: StandsFor<E>, E: HistoryEvent, R: Wait>(
    rt: &R,
    words: &Words<T, E>,
    seat: &mut Place<T, E>,
    ticket: u64,
)
    requires table { IsSeatOf words.now.table_id seat.old }
    requires waits { (seat.old.me.0.ticket ≡ Some ticket) × (seat.old.me.0.kept ≡ None) }
    ensures seat { IsSameSeat seat.old seat.new }
    ensures takes { Takes T.origin T.stands seat.old.me.0 seat.old.me seat.new.me }
{
    for _ in rt.forever() {
        let serving = look(words, seat, ticket);
        if serving == ticket {
            return;
        }
        if !has_moved(words, serving) {
            words.park(rt, SERVING, (serving % (1 << 32)) as u32);
        }
    }
    unreachable!()
}

/// Draws a ticket, waits for it, and takes the value out of the slot.
fn take_turn<T: StandsFor<E>, E: HistoryEvent, R: Wait>(
    rt: &R,
    words: &Words<T, E>,
    seat: &mut Place<T, E>,
) -> T
    requires table { IsSeatOf words.now.table_id seat.old
        × (words.now.key.turns ≤ 2 ^ 62) }
    requires ready { (seat.old.me.0.ticket ≡ None) × (seat.old.me.0.kept ≡ None)
        × (0 < seat.old.me.0.left) }
    ensures seat { IsSameSeat seat.old seat.new }
    ensures value { HasTaken T.origin T.stands seat.old.me seat.new.me result }
{
    let ticket = draw(words, seat);
    wait_for(rt, words, seat, ticket);
    words.exchange(seat, 0, None).unwrap()
}

/// Cuts turns off a seat, for a new one.
fn cut<N: Share, T: StandsFor<E>, E: HistoryEvent>(
    words: &Words<T, E>,
    seat: &mut Place<T, E>,
    turns: u64,
) -> Place<T, E>
    requires table { IsSeatOf words.now.table_id seat.old }
    requires ready { IsSome seat.old.me.0.origin }
    requires turns { (turns ≡ N.turns) × (turns ≤ seat.old.me.0.left) }
    ensures seat { IsSameSeat seat.old seat.new
        × (seat.new.me ≡ (giving seat.old.me.0 turns, seat.old.me.1)) }
    ensures new { (result.table_id ≡ seat.old.table_id)
        × (result.me ≡ (given seat.old.me.0 turns, [])) }
{
    words.split_seat::<Give<N>>(seat)
}

/// A seat that has no turns, and keeps the lock in mind.
fn stub<T: StandsFor<E>, E: HistoryEvent>(
    words: &Words<T, E>,
    seat: &mut Place<T, E>,
) -> Badge<View<E>>
    requires table { IsSeatOf words.now.table_id seat.old }
    requires ready { IsSome seat.old.me.0.origin }
    ensures seat { IsSameSeat seat.old seat.new
        × (seat.new.me ≡ seat.old.me) }
    ensures stub { (result.table_id ≡ seat.old.table_id)
        × (result.views ≡ given seat.old.me.0 0 ∷ []) }
{
    words.split_seat::<Stub>(seat).into_badge()
}

/// Takes in another seat.
fn unite<T: StandsFor<E>, E: HistoryEvent>(
    words: &Words<T, E>,
    seat: &mut Place<T, E>,
    other: Place<T, E>,
)
    requires table { IsSeatOf words.now.table_id seat.old
        × IsSeatOf words.now.table_id other }
    requires ready { (seat.old.me.0.ticket ≡ None) × (seat.old.me.0.kept ≡ None)
        × IsSome seat.old.me.0.origin }
    requires other { (other.me.0.ticket ≡ None) × (other.me.0.kept ≡ None) × (other.me.1 ≡ []) }
    ensures seat { IsSameSeat seat.old seat.new }
    ensures both { seat.new.me ≡ (both seat.old.me.0 other.me.0, seat.old.me.1) }
    ensures few { seat.new.me.0.left + seat.new.me.0.entered ≤ seat.new.me.0.turns + 1 }
    ensures begins { IsPrefix seat.old.me.0.seen seat.new.me.0.seen
        × IsPrefix other.me.0.seen seat.new.me.0.seen }
{
    words.join_seat::<Unite>(seat, other);
    words.load::<Learn>(seat, TICKET);
}

/// Takes in the turn that closes the lock.
fn borrow_last<T: StandsFor<E>, E: HistoryEvent>(
    words: &Words<T, E>,
    seat: &mut Place<T, E>,
    keeper: Place<T, E>,
)
    requires table { IsSeatOf words.now.table_id seat.old
        × IsSeatOf words.now.table_id keeper }
    requires ready { (seat.old.me.0.ticket ≡ None) × (seat.old.me.0.kept ≡ None)
        × IsSome seat.old.me.0.origin }
    requires keeper { (keeper.me.0.ticket ≡ None) × (keeper.me.0.kept ≡ None) × (keeper.me.1 ≡ [])
        × (own_lists keeper.me.0 ≡ [] ∷ []) }
    ensures seat { IsSameSeat seat.old seat.new }
    ensures lent { seat.new.me ≡ (lent seat.old.me.0 keeper.me.0, seat.old.me.1) }
{
    words.join_seat::<Lend>(seat, keeper);
}

/// Enters the last turn and takes the value, if all turns so far were entered by the seat. Says how
/// many there were.
fn take_last<T: StandsFor<E>, E: HistoryEvent>(
    words: &Words<T, E>,
    seat: &mut Place<T, E>,
    turns_entered: u64,
) -> u64
    requires table { IsSeatOf words.now.table_id seat.old }
    requires ready { (seat.old.me.0.ticket ≡ None) × (seat.old.me.0.kept ≡ None)
        × IsSome seat.old.me.0.origin }
    requires turns { (0 < seat.old.me.0.left) × (seat.old.me.0.entered ≡ turns_entered)
        × (turns_entered < 2 ^ 63) }
    ensures seat { IsSameSeat seat.old seat.new }
    ensures takes { result ≡ turns_entered
        → Takes T.origin T.stands (entering (finding seat.old.me.0 result) result) seat.old.me
        seat.new.me × MakeUp (given_back seat.new.me.0) (own_lists seat.old.me.0) }
    ensures stays { result ≢ turns_entered
        → (seat.new.me ≡ (finding seat.old.me.0 result, seat.old.me.1))
        × (turns_entered < result) × (seat.old.me.0.left + result ≤ seat.old.me.0.turns + 1) }
{
    words.compare_exchange::<Close>(seat, TICKET, turns_entered, turns_entered + 1)
}

/// Sees the history.
fn see<T: StandsFor<E>, E: HistoryEvent>(words: &Words<T, E>, seat: &mut Place<T, E>)
    requires table { IsSeatOf words.now.table_id seat.old }
    requires holds { IsSome seat.old.me.0.origin × IsSome seat.old.me.0.kept }
    ensures seat { IsSameSeat seat.old seat.new }
    ensures sees { seat.new.me ≡ (seeing seat.old.me.0 (given_back seat.old.me.0), seat.old.me.1) }
    ensures prefix { IsPrefix seat.old.me.0.seen (given_back seat.old.me.0) }
    ensures own { AllStand (given_back seat.old.me.0) (own_lists seat.old.me.0) }
{
    words.load::<See>(seat, COUNT);
}

/// Adds an event to the history.
fn add<N: Naming<E>, T: StandsFor<E>, E: HistoryEvent>(words: &Words<T, E>, seat: &mut Place<T, E>)
    requires table { IsSeatOf words.now.table_id seat.old
        × (words.now.key.turns ≤ 2 ^ 62) }
    requires holds { IsSome seat.old.me.0.kept × (seat.old.me.0.added ≡ None) }
    requires event { IsSome N.event }
    ensures seat { IsSameSeat seat.old seat.new }
    ensures adds { seat.new.me ≡ (
      adding seat.old.me.0 (list_of seat.old.me.0.kept) N.event,
      seat.old.me.1,
    ) }
    ensures own { AllStand seat.new.me.0.seen (own_lists seat.new.me.0) }
{
    words.fetch_add::<Add<N>>(seat, COUNT, 1);
}

/// Gives the value back, serves the next ticket, and wakes all who wait. It wakes also where no
/// further ticket seems to be drawn, so that no order of two threads' steps can lose a wakeup.
fn end_turn<T: StandsFor<E>, E: HistoryEvent>(words: &Words<T, E>, seat: &mut Place<T, E>, value: T)
    requires table { IsSeatOf words.now.table_id seat.old
        × (words.now.key.turns ≤ 2 ^ 62) }
    requires holds { (seat.old.me.1 ≡ (0, None) ∷ []) × IsSome seat.old.me.0.kept }
    requires value { (seat.old.me.0.origin ≡ Some (T.origin value))
        × T.stands value (given_back seat.old.me.0) }
    ensures seat { IsSameSeat seat.old seat.new }
    ensures rests { seat.new.me ≡ (resting seat.old.me.0, []) }
{
    let out = words.exchange(seat, 0, Some(value));
    let None = out else { unreachable!() };
    words.fetch_add::<End>(seat, SERVING, 1);
    words.wake_all(SERVING);
}

impl<T: StandsFor<E>, E: HistoryEvent> Turns<T, E> {
    /// Opens a turn. It waits until all turns that were entered before have ended.
    pub fn enter<R: Wait>(&self, rt: &R, pass: &mut Pass<E>) -> Turn<T, E>
        requires lock { pass.old.lock ≡ Some self.now }
        requires ready { pass.old.standing ≡ Ready }
        requires left { 0 < pass.old.left }
        ensures pass { pass.new ≡ record pass.old {
          standing = InTurn;
          left = pass.old.left - 1;
          entered = pass.old.entered + 1;
        } }
        ensures turn { result.pass ≡ pass.new }
        ensures origin { T.origin result.value ≡ self.now.origin }
        ensures value { T.stands result.value result.list }
        ensures seen { IsPrefix pass.old.seen result.list }
    {
        let mut seat = pass.take().into_seat::<Option<T>>();
        pass.begin(stub(&self.table.shared, &mut seat));
        let value = take_turn(rt, &self.table.shared, &mut seat);
        Turn { seat, value }
    }

    /// Ends a turn that added an event. The caller names it in its proof.
    pub fn commit(&self, pass: &mut Pass<E>, turn: Turn<T, E>)
        ghost event: { E }
        requires lock { pass.old.lock ≡ Some self.now }
        requires turn { turn.pass ≡ pass.old }
        requires origin { T.origin turn.value ≡ self.now.origin }
        requires value { T.stands turn.value (turn.list ++ event ∷ []) }
        ensures pass { pass.new ≡ record pass.old {
          standing = Ready;
          seen = turn.list ++ event ∷ [];
          own = pass.old.own ++ mark turn.list event ∷ [];
        } }
        ensures own { AllStand pass.new.seen (pass.new.own ∷ pass.new.joined) }
    {
        self.commit_named::<Brand>(pass, turn);
    }

    /// Ends a turn that added the event that a value names, as `commit` does.
    pub fn commit_by<N: Names<E>>(&self, pass: &mut Pass<E>, turn: Turn<T, E>, by: &N)
        requires lock { pass.old.lock ≡ Some self.now }
        requires turn { turn.pass ≡ pass.old }
        requires origin { T.origin turn.value ≡ self.now.origin }
        requires value { T.stands turn.value (turn.list ++ N.named by.now ∷ []) }
        ensures pass { pass.new ≡ record pass.old {
          standing = Ready;
          seen = turn.list ++ N.named by.now ∷ [];
          own = pass.old.own ++ mark turn.list (N.named by.now) ∷ [];
        } }
        ensures own { AllStand pass.new.seen (pass.new.own ∷ pass.new.joined) }
    {
        self.commit_as(pass, turn, by);
    }

    fn commit_as<N: Names<E>>(&self, pass: &mut Pass<E>, turn: Turn<T, E>, _by: &N)
        ghost event: { E }
        requires named { event ≡ N.named _by.now }
        requires lock { pass.old.lock ≡ Some self.now }
        requires turn { turn.pass ≡ pass.old }
        requires origin { T.origin turn.value ≡ self.now.origin }
        requires value { T.stands turn.value (turn.list ++ event ∷ []) }
        ensures pass { pass.new ≡ record pass.old {
          standing = Ready;
          seen = turn.list ++ event ∷ [];
          own = pass.old.own ++ mark turn.list event ∷ [];
        } }
        ensures own { AllStand pass.new.seen (pass.new.own ∷ pass.new.joined) }
    {
        self.commit(pass, turn);
    }

    fn commit_named<N: Naming<E>>(&self, pass: &mut Pass<E>, turn: Turn<T, E>)
        requires lock { pass.old.lock ≡ Some self.now }
        requires turn { turn.pass ≡ pass.old }
        requires origin { T.origin turn.value ≡ self.now.origin }
        requires event { IsSome N.event }
        requires value { T.stands turn.value (with_added turn.list N.event) }
        ensures pass { pass.new ≡ record pass.old {
          standing = Ready;
          seen = with_added turn.list N.event;
          own = own_with pass.old.own turn.list N.event;
        } }
        ensures own { AllStand pass.new.seen (pass.new.own ∷ pass.new.joined) }
    {
        let Turn { mut seat, value } = turn;
        add::<N, T, E>(&self.table.shared, &mut seat);
        end_turn(&self.table.shared, &mut seat, value);
        pass.rest(seat.into_badge());
    }

    /// Ends a turn that added no event.
    pub fn leave(&self, pass: &mut Pass<E>, turn: Turn<T, E>)
        requires lock { pass.old.lock ≡ Some self.now }
        requires turn { turn.pass ≡ pass.old }
        requires origin { T.origin turn.value ≡ self.now.origin }
        requires value { T.stands turn.value turn.list }
        ensures pass { pass.new ≡ record pass.old { standing = Ready; seen = turn.list } }
        ensures own { AllStand pass.new.seen (pass.new.own ∷ pass.new.joined) }
    {
        let Turn { mut seat, value } = turn;
        see(&self.table.shared, &mut seat);
        end_turn(&self.table.shared, &mut seat, value);
        pass.rest(seat.into_badge());
    }

    /// Gives turns of the pass to a new one. It takes no memory, and is never refused.
    pub fn split(&self, pass: &mut Pass<E>, turns: u64) -> Result<Pass<E>, LockFault>
        requires lock { pass.old.lock ≡ Some self.now }
        requires ready { pass.old.standing ≡ Ready }
        requires turns { turns ≤ pass.old.left }
        ensures pass { pass.new ≡ record pass.old { left = pass.old.left - turns } }
        ensures ok { IsOkAnd result (λ r. (r.lock ≡ Some self.now) × (r.standing ≡ Ready)
            × (r.left ≡ turns) × (r.entered ≡ 0)) }
        ensures seen { IsOkAnd result (λ r. (r.seen ≡ pass.old.seen) × (r.found ≡ pass.old.found)
            × (r.own ≡ []) × (r.joined ≡ [])) }
    {
        let mut seat = pass.take().into_seat::<Option<T>>();
        let other = cut::<Brand, T, E>(&self.table.shared, &mut seat, turns);
        *pass = Pass::over(seat.into_badge(), pass.left() - turns, pass.entered());
        Ok(Pass::over(other.into_badge(), turns, 0))
    }

    /// Gives the turns of the other pass, those left and those entered, to this one.
    pub fn join(&self, pass: &mut Pass<E>, mut other: Pass<E>)
        requires lock { (pass.old.lock ≡ Some self.now) × (other.lock ≡ Some self.now) }
        requires ready { (pass.old.standing ≡ Ready) × (other.standing ≡ Ready) }
        ensures both { pass.new ≡ record pass.old {
          left = pass.old.left + other.left;
          entered = pass.old.entered + other.entered;
          seen = longer pass.old.seen other.seen;
          joined = pass.old.joined ++ other.own ∷ other.joined;
        } }
        ensures begins { IsPrefix pass.old.seen pass.new.seen × IsPrefix other.seen pass.new.seen }
    {
        let mut seat = pass.take().into_seat::<Option<T>>();
        let given = other.take().into_seat::<Option<T>>();
        unite(&self.table.shared, &mut seat, given);
        let left = pass.left() + other.left();
        let entered = pass.entered() + other.entered();
        *pass = Pass::over(seat.into_badge(), left, entered);
    }
}

impl<T: StandsFor<E> + Drop, E: HistoryEvent> Turns<T, E> {
    /// A lock over the value, and the pass that has all its turns, at most 2^62.
    pub fn new(alloc: Global, value: T, turns: u64) -> Result<(Turns<T, E>, Pass<E>), LockFault>
        requires turns { (1 ≤ turns) × (turns ≤ 2 ^ 62) }
        requires empty { T.stands value [] }
        ensures lock { IfOk result (λ r. (r.0.origin ≡ T.origin value) × (r.0.turns ≡ turns)) }
        ensures pass { IfOk result (λ r. (r.1.lock ≡ Some r.0) × (r.1.standing ≡ Ready)
            × (r.1.left ≡ turns) × (r.1.entered ≡ 0)) }
        ensures fresh { IfOk result (λ r. (r.1.found ≡ 0) × (r.1.seen ≡ []) × (r.1.own ≡ [])
            × (r.1.joined ≡ [])) }
    {
        let about = Start {
            value: Snapshot::of(&value),
            turns,
        };
        let mut slots = Vec::with_capacity(alloc, 1)?;
        slots.push_reserved(Some(value));
        let Ok((table, mut seat)) = Table::new(alloc, &[0, 0, 0], slots, &about) else {
            return Err(LockFault::Memory);
        };
        let keeper = cut::<Brand, T, E>(&table.shared, &mut seat, 1);
        let keeper = Guard::new(keeper.into_badge());
        let pass = Pass::over(seat.into_badge(), turns, 0);
        Ok((Turns { table, keeper }, pass))
    }

    /// Gives the value out, if all turns were entered by the pass and those joined into it. Else
    /// another pass that entered a turn is outside: it hands both back, and contracts see in
    /// `found` how many turns had been entered by any pass. A pass that entered none may be
    /// outside.
    pub fn close(self, mut pass: Pass<E>) -> Result<(T, Pass<E>), (Turns<T, E>, Pass<E>)>
        requires lock { pass.lock ≡ Some self }
        requires ready { pass.standing ≡ Ready }
        ensures ok { IfOk result (λ r.
            (r.1 ≡ record pass { standing = Closed; found = pass.entered; seen = r.1.seen })
            × (T.origin r.0 ≡ self.origin)) }
        ensures seen { IfOk result (λ r. T.stands r.0 r.1.seen × IsPrefix pass.seen r.1.seen) }
        ensures own { IfOk result (λ r. MakeUp r.1.seen (r.1.own ∷ r.1.joined)) }
        ensures err { IfErr result (λ r. (r.0 ≡ self) × (r.1 ≡ record pass { found = r.1.found })
            × (pass.entered < r.1.found) × (pass.left + r.1.found ≤ self.turns)) }
        ensures whole { pass.left + pass.entered ≡ self.turns → IsOk result }
    {
        let Turns { table, keeper } = self;
        let (left, entered) = (pass.left(), pass.entered());
        let mut seat = pass.take().into_seat::<Option<T>>();
        let last = keeper.into_badge().into_seat::<Option<T>>();
        borrow_last(&table.shared, &mut seat, last);
        let found = take_last(&table.shared, &mut seat, entered);
        if found != entered {
            let keeper = cut::<Brand, T, E>(&table.shared, &mut seat, 1);
            let keeper = Guard::new(keeper.into_badge());
            let pass = Pass::over(seat.into_badge(), left, entered);
            return Err((Turns { table, keeper }, pass));
        }
        let value = table.shared.exchange(&mut seat, 0, None).unwrap();
        see(&table.shared, &mut seat);
        pass.close(stub(&table.shared, &mut seat));
        Ok((value, pass))
    }
}
