// The second call of a round.
ghost use Rattle.std.specs.Prelude.{◌≡◌, ◌<◌, IfOk, OnOk, OnErr, Some, not, IsTrue, IsFalse};
ghost use Rattle.cds_time.specs.declared.cds.TheConstants.{MOMENT_END};
ghost use Rattle.isp1_tml.specs.Feeding.{next_of as next_held, after_next as after_given};
ghost use Rattle.isp1_tml.specs.Given.{content_of};
ghost use Rattle.return_core.specs.Item.{are_of_archive};
ghost use Rattle.station_config.specs.Validity.{IsSite};
ghost use Rattle.station_book.specs.History.{after, moment_at, replay};
ghost use Rattle.cltu_queue.specs.declared.ask.Ask.TheVariants.{Nothing};
ghost use Rattle.session_services.specs.Inquiry.{call_of, answer_of, reply_in, inquiry_of, replied_of};
ghost use Rattle.session_services.specs.Inquiry.{only_asks};
ghost use Rattle.session_services.specs.Served.{unserved};
ghost use Rattle.session_core.specs.ServiceSteps.{is_active};
ghost use Rattle.session_core.specs.SessionState.{feeder_after, asked, told_now, told_by};
ghost use Rattle.session_core.specs.SessionState.{kept_after, own_events, Acts};
ghost use Rattle.session_core.specs.Lists.{GoesStep};
ghost use Rattle.session_core.specs.Outcome.{has_ended, Spends, Repeats};
ghost use Rattle.session_core.specs.Steps.{inquiry_entered, acted, with_want};
ghost use Rattle.session_core.specs.Steps.{message_ask, with_message, idle_ask, next_ask};
ghost use Rattle.session_core.specs.Steps.{with_next, has_message, is_idle, with_none, bare_step};

use crate::bind_places::places_of;
use crate::ended::Ended;
use crate::handling::{said_ask, service_made, stays_running};
use crate::listening::holds_message;
use crate::session::Session;
use crate::standing::Standing;
use crate::user_message::UserMessage;
use frame_select::Want;
use isp1_tml::{Feeder, Message, laws};
use octet_core::Memory;
use return_core::laws::looks_are_of_archive;
use session_services::{Inquiry, Replied};
use station_book::{Ask, Book};
use station_config::Site;
use std::alloc::Global;

// Asks the book once.
fn ask_book(book: &mut Book, door: u32, reading: u128, inquiry: &Inquiry) -> Result<Replied, Memory>
    requires { reading < MOMENT_END }
    ensures after { OnOk result (book.new
        ≡ after book.old (call_of door reading (inquiry_of inquiry.now))) }
    ensures reply { IfOk result (λ told. replied_of told
        ≡ reply_in (answer_of book.old door (moment_at book.old reading)
        (inquiry_of inquiry.now))) }
    ensures look { IfOk result (λ told. IsTrue (are_of_archive told.glimpse.items)) }
    ensures err { OnErr result (book.new ≡ book.old) }
{
    looks_are_of_archive();
    let (reply, glimpse, notice) = book.answer(door, reading, &inquiry.ask, &inquiry.want)?;
    Ok(Replied {
        reply,
        glimpse,
        notice,
        view: book.view(),
    })
}

// Whose step it is, and the reading of the clock at which it asks.
#[derive(Clone, Copy)]
struct Asking<'a> {
    alloc: Global,
    site: &'a Site,
    door: u32,
    reading: u128,
}

// Handles a message: judges it, asks the book, and does what follows.
fn handle(
    standing: &mut Standing,
    book: &mut Book,
    asking: Asking<'_>,
    message: Message<'_>,
) -> Result<Replied, Memory>
    requires site { IsSite asking.site.now }
    requires reading { asking.reading < MOMENT_END }
    requires now { standing.old.moment ≡ moment_at book.old asking.reading }
    requires moment { standing.old.moment < MOMENT_END }
    ensures acts { IfOk result (λ told. Acts asking.entry.door asking.entry.reading book.old
        book.new standing.old standing.new
        (message_ask asking.entry.site.now standing.old (content_of message.entry)
        standing.old.moment)
        (with_message asking.entry.site.now standing.old (content_of message.entry))
        (replied_of told)) }
    ensures look { IfOk result (λ told. IsTrue (are_of_archive told.glimpse.items)) }
    ensures err { OnErr result (book.new ≡ book.old) }
{
    let Asking {
        alloc,
        site,
        door,
        reading,
    } = asking;
    let service = standing.service(site);
    let said = UserMessage::of(service, standing.association.state(), message);
    let step = standing.judge(site, &said);
    let places = places_of(site, &said, step);
    let made = service_made(alloc, site, places.instance)?;
    let asked = said_ask(alloc, &standing.service, &said, step, places)?;
    let ask = standing.with_want(stays_running(&said, step), asked);
    let reply = ask_book(book, door, reading, &ask)?;
    standing.conclude(site, &said, step, places, made, &reply);
    Ok(reply)
}

// What an idle round asks.
fn idle_ask(standing: &Standing) -> Inquiry
    ensures { inquiry_of result ≡ idle_ask standing.now }
{
    Inquiry::of(if standing.is_blocked() {
        Ask::Quiet
    } else {
        Ask::Nothing
    })
}

// Handles the next message, if there is one.
fn take_message(
    feeder: &mut Feeder,
    standing: &mut Standing,
    book: &mut Book,
    asking: Asking<'_>,
) -> Result<Replied, Memory>
    requires site { IsSite asking.site.now }
    requires reading { asking.reading < MOMENT_END }
    requires now { standing.old.moment ≡ moment_at book.old asking.reading }
    requires moment { standing.old.moment < MOMENT_END }
    ensures feeder { OnOk result (feeder.new ≡ after_given feeder.old) }
    ensures acts { IfOk result (λ told. Acts asking.entry.door asking.entry.reading book.old
        book.new standing.old standing.new
        (next_ask asking.entry.site.now standing.old (next_held feeder.old) standing.old.moment)
        (with_next asking.entry.site.now standing.old (next_held feeder.old))
        (replied_of told)) }
    ensures look { IfOk result (λ told. IsTrue (are_of_archive told.glimpse.items)) }
    ensures err { OnErr result (book.new ≡ book.old) }
{
    match feeder.next_message() {
        Err(fault) => {
            let ask = Inquiry::of(Ask::Nothing);
            let told = ask_book(book, asking.door, asking.reading, &ask)?;
            standing.end(Ended::Broken(fault));
            Ok(told)
        }
        Ok(None) => {
            let ask = standing.with_want(!standing.has_closed(), Inquiry::of(Ask::Nothing));
            let told = ask_book(book, asking.door, asking.reading, &ask)?;
            standing.end_if_closed();
            Ok(told)
        }
        Ok(Some(message)) => handle(standing, book, asking, message),
    }
}

// Asks the book once, and handles the next message where the round isn't idle.
fn act(
    feeder: &mut Feeder,
    standing: &mut Standing,
    book: &mut Book,
    asking: Asking<'_>,
) -> Result<Replied, Memory>
    requires site { IsSite asking.site.now }
    requires reading { asking.reading < MOMENT_END }
    requires now { standing.old.moment ≡ moment_at book.old asking.reading }
    requires moment { standing.old.moment < MOMENT_END }
    ensures feeder { OnOk result (feeder.new ≡ feeder_after standing.old feeder.old) }
    ensures acts { IfOk result (λ told. Acts asking.entry.door asking.entry.reading book.old
        book.new standing.old standing.new
        (inquiry_entered asking.entry.site.now standing.old (next_held feeder.old))
        (acted asking.entry.site.now standing.old (next_held feeder.old))
        (replied_of told)) }
    ensures look { IfOk result (λ told. IsTrue (are_of_archive told.glimpse.items)) }
    ensures err { OnErr result (book.new ≡ book.old) }
{
    if standing.is_idle() {
        let ask = idle_ask(standing);
        return ask_book(book, asking.door, asking.reading, &ask);
    }
    take_message(feeder, standing, book, asking)
}

// Asks the book nothing, and wants nothing of it.
fn ask_nothing(book: &mut Book, door: u32, reading: u128) -> Result<(), Memory>
    requires { reading < MOMENT_END }
    ensures after { OnOk result (book.new
        ≡ after book.old (call_of door reading (only_asks Nothing))) }
    ensures err { OnErr result (book.new ≡ book.old) }
{
    let _told = book.answer(door, reading, &Ask::Nothing, &Want::Nothing)?;
    Ok(())
}

// Ends a session by its stream's fault, or by a close, where no message is held.
fn take_none(feeder: &mut Feeder, standing: &mut Standing)
    requires { IsFalse (has_message (next_held feeder.old)) }
    ensures feeder { feeder.new ≡ after_given feeder.old }
    ensures standing { standing.new ≡ with_none standing.old (next_held feeder.old) }
{
    match feeder.next_message() {
        Err(fault) => standing.end(Ended::Broken(fault)),
        Ok(_) => standing.end_if_closed(),
    }
}

// The step of a session with no service that holds no message, as the most rounds are: nothing is
// made that the book has no use for.
impl Session {
    // Whether it is such a step.
    fn is_bare(&self) -> bool
        ensures service { IsTrue result → self.now.standing.service ≡ unserved }
        ensures active { IsTrue result → IsFalse (is_active self.now.standing.association) }
        ensures idle { IsTrue result → IsFalse (is_idle self.now.standing) }
        ensures none { IsTrue result → IsFalse (has_message (next_held self.now.feeder)) }
    {
        self.standing.is_bare() && !holds_message(&self.feeder)
    }

    // Takes it.
    fn rest(&mut self, book: &mut Book, reading: u128) -> Result<(), Memory>
        requires reading { reading < MOMENT_END }
        requires none { IsFalse (has_message (next_held self.old.feeder)) }
        ensures book { OnOk result (book.new
            ≡ after book.old (call_of self.old.door reading (only_asks Nothing))) }
        ensures kept { OnOk result (self.new ≡ record self.old {
          feeder = after_given self.old.feeder;
          standing =
              bare_step self.old.standing (next_held self.old.feeder)
              (moment_at book.old reading);
        }) }
        ensures err { OnErr result (book.new ≡ book.old) }
    {
        self.standing.enter(book.peek(reading));
        ask_nothing(book, self.door, reading)?;
        take_none(&mut self.feeder, &mut self.standing);
        self.standing.look_at_timer();
        self.standing.put_heartbeat();
        Ok(())
    }
}

impl Session {
    // The step of any session that hasn't ended. It stands apart, so that one with no service
    // doesn't pay for the room that a service's answers take.
    #[inline(never)]
    fn advance(&mut self, site: &Site, book: &mut Book, reading: u128) -> Result<(), Memory>
        requires site { IsSite site.now }
        requires reading { reading < MOMENT_END }
        ensures book { OnOk result (book.new ≡ after book.old
            (call_of self.old.door reading (asked site.now self.old book.old reading))) }
        ensures kept { OnOk result (self.new
            ≡ kept_after site.now self.old (Some (told_now site.now self.old book.old reading))) }
        ensures err { OnErr result (book.new ≡ book.old) }
    {
        if self.standing.is_out_of_turn() {
            return Err(Memory);
        }
        self.standing.enter(book.peek(reading));
        let asking = Asking {
            alloc: self.alloc,
            site,
            door: self.door,
            reading,
        };
        let was_active = self.standing.is_active();
        let told = act(&mut self.feeder, &mut self.standing, book, asking)?;
        self.standing.look_at_timer();
        self.standing.block.holds_small_messages();
        self.standing.put_unasked(site, &told);
        self.standing.serve(site, was_active, told.glimpse);
        Ok(())
    }

    // The step of a session that hasn't ended.
    fn go_on(&mut self, site: &Site, book: &mut Book, reading: u128) -> Result<(), Memory>
        requires site { IsSite site.now }
        requires reading { reading < MOMENT_END }
        ensures book { OnOk result (book.new ≡ after book.old
            (call_of self.old.door reading (asked site.now self.old book.old reading))) }
        ensures kept { OnOk result (self.new
            ≡ kept_after site.now self.old (Some (told_now site.now self.old book.old reading))) }
        ensures err { OnErr result (book.new ≡ book.old) }
    {
        if self.is_bare() {
            return self.rest(book, reading);
        }
        self.advance(site, book, reading)
    }

    // The step of any session. Want of memory spends it.
    fn take_step(&mut self, site: &Site, book: &mut Book, reading: u128) -> Result<(), Memory>
        requires site { IsSite site.now }
        requires reading { reading < MOMENT_END }
        ensures book { OnOk result (book.new
            ≡ replay book.old (own_events site.now self.old book.old reading)) }
        ensures kept { OnOk result (self.new
            ≡ kept_after site.now self.old (told_by site.now self.old book.old reading)) }
        ensures memory { Spends result book.old book.new self.old self.new }
        ensures ended { IsTrue (has_ended self.old)
            → Repeats result book.old book.new self.old self.new }
    {
        if self.standing.is_over() {
            return Ok(());
        }
        if self.standing.is_spent() {
            return Err(Memory);
        }
        let Ok(()) = self.go_on(site, book, reading) else {
            self.standing.spend();
            return Err(Memory);
        };
        Ok(())
    }

    /// The second call of a round, at a reading of the clock: it handles at most one message, and
    /// asks the book once, unless the session has ended. Want of memory leaves the book, and spends
    /// the session: each later step wants memory too, and the link isn't called any more.
    pub fn step(&mut self, site: &Site, book: &mut Book, reading: u128) -> Result<(), Memory>
        requires site { IsSite site.now }
        requires reading { reading < MOMENT_END }
        ensures lists { OnOk result (GoesStep site.now reading book.old book.new self.old
            self.new) }
        ensures memory { Spends result book.old book.new self.old self.new }

        // After an end the book isn't asked.
        ensures ended { IsTrue (has_ended self.old)
            → Repeats result book.old book.new self.old self.new }
    {
        laws::is_worked_out();
        laws::any_pieces();
        self.take_step(site, book, reading)
    }
}
