// The doors of a station, at which users are connected.
ghost use Rattle.std.specs.Prelude.{◌≡◌, ℕ, ◌<◌, [], ◌∷◌, ◌++◌, Some, None, IfOk, OnOk, OnErr};
ghost use Rattle.std.specs.Prelude.{slice_get, slice_set, replicate};
ghost use Rattle.archive_terms.specs.Archive.{IsArchive};
ghost use Rattle.cds_time.specs.declared.cds.TheConstants.{MOMENT_END};
ghost use Rattle.record_form.specs.Entry.{entry_of};
ghost use Rattle.station_book.specs.History.{after};
ghost use Rattle.station_book.specs.State.{publish};
ghost use Rattle.station_config.specs.Validity.{IsSite};
ghost use Rattle.station_config.specs.declared.site.Site.{Site};
ghost use Rattle.drill_text.specs.Reading.{Fits};
ghost use Rattle.station_links.specs.Connected.{Connected};
ghost use Rattle.station_law.specs.Doors.{Doors as Exchange, anew, rounds_of};
ghost use Rattle.station_law.specs.Doors.{act_of, opens, act};
ghost use Rattle.station_law.specs.Standing.{Match, IsOpen, AreDoors, IsAsked, IsObeyed};
ghost use Rattle.station_law.specs.Standing.{HasRan, IsActed, there, is_free, AreLeft, HasGone};
ghost use Rattle.station_uplink.specs.Standing.{HasTurned, IsUplink};
ghost use Rattle.station_uplink.specs.Turns.{Uplink as Sent, turned};

use crate::said::SaidAt;
use drill_text::ScriptLine;
use octet_core::Memory;
use record_form::{Entries, Entry};
use script_store::{push, share};
use station_book::{Book, PublishFault};
use station_config::Site;
use station_links::{Connection, Turn};
use station_uplink::{Turn as UplinkTurn, Turned, Uplink};
use std::alloc::Global;
use std::marker::Model;
use std::mem;

// How many doors there are, the desk's among them.
const DOORS: usize = 17;

/// A station's site and book, and the connection at each door, if one is there.
#[derive(Drop)]
pub struct Doors {
    alloc: Global,
    site: Site,
    book: Book,
    connections: [Option<Connection>; DOORS],
}

impl Model for Doors {
    ghost use Rattle.station_config.specs.Validity.{IsSite};
    ghost use Rattle.station_law.specs.Standing.{DoorsSeen};

    ghost Value = { DoorsSeen };

    ghost view = { λ d. record {
      site = d.site;
      book = d.book;
      connections = d.connections;
    } };

    ghost invariant = { λ d. IsSite d.site };
}

// Which connection a line asks something of, and how many rounds of it it makes.
#[derive(Clone, Copy, Debug, PartialEq, Eq)]
struct Turns {
    c: u32,
    rounds: u32,
}

impl Doors {
    /// A site with an empty archive, and no connection.
    pub fn new(alloc: Global, site: Site) -> Result<Doors, Memory>
        requires { IsSite site }
        ensures { IfOk result (λ doors. AreDoors doors (anew site [])) }
    {
        let book = Book::new(alloc, &site, Entries::new(alloc), 0)?;
        Ok(Doors {
            alloc,
            site,
            book,
            connections: nobody(),
        })
    }

    /// The book is made new over an archive, and no connection is left.
    pub fn renew(&mut self, archive: Entries) -> Result<(), Memory>
        requires { IsArchive archive }
        ensures renewed { OnOk result (AreDoors self.new (anew self.old.site archive)) }
        ensures refused { OnErr result (self.new ≡ self.old) }
    {
        self.book = Book::new(self.alloc, &self.site, archive, 0)?;
        self.connections = nobody();
        Ok(())
    }

    /// The book.
    pub fn book(&self) -> &Book
        ensures { result.now ≡ self.now.book }
    {
        &self.book
    }

    /// Publishes an entry to the book.
    pub fn publish(&mut self, entry: &Entry) -> Result<(), Memory>
        ensures published { OnOk result (self.new ≡ record self.old {
          book = after self.old.book (publish (entry_of entry.now ∷ []));
        }) }
        ensures refused { OnErr result (self.new ≡ self.old) }
    {
        let mut batch = Entries::new(self.alloc);
        push(&mut batch, share(entry)?)?;
        match self.book.publish(batch) {
            Err((PublishFault::Memory, _)) => Err(Memory),
            Err((PublishFault::Foreign, _)) | Ok(()) => Ok(()),
        }
    }

    /// Does a turn of the uplink on the book, at a reading of the clock.
    pub fn turn(&mut self, uplink: &mut Uplink, turn: UplinkTurn, reading: u128) -> Turned
        requires { reading < MOMENT_END }
        ensures turned { (u : Sent) → IsUplink uplink.old u
            → HasTurned result (turned self.old.book reading u turn) self.old.book self.new.book
            uplink.new u }
        ensures rest { self.new ≡ record self.old { book = self.new.book } }
        ensures published { self.new.book.published ≡ self.old.book.published }
    {
        uplink.turn(&mut self.book, turn, reading)
    }

    /// Does what a line says at the doors, at a reading of the clock, and answers what is said of
    /// its connection; or nothing, where it is none of these lines or in a wrong state. Want of
    /// memory ends all: then the line's connection may be lost, and the site is as it was.
    pub fn act(&mut self, line: &ScriptLine, reading: u128) -> Result<Option<SaidAt>, Memory>
        requires fits { Fits line.now }
        requires reading { reading < MOMENT_END }
        ensures acted { IfOk result (λ said. (d : Exchange) → AreDoors self.old d
            → IsActed said d (act d reading line.now) self.new) }
        ensures refused { OnErr result (self.new.site ≡ self.old.site) }
    {
        if let ScriptLine::Open { c } = line {
            return self.open(*c, reading);
        }
        let Some(turns) = turns_of(line) else {
            return Ok(None);
        };
        let Some(mut connection) = self.put_at(turns.c, None) else {
            return Ok(None);
        };
        obey(self.alloc, &mut connection, line)?;
        self.go_on(turns, connection, reading)
    }

    // So many rounds of the connection that was at a door, at a reading of the clock.
    fn go_on(
        &mut self,
        turns: Turns,
        connection: Connection,
        reading: u128,
    ) -> Result<Option<SaidAt>, Memory>
        requires { reading < MOMENT_END }
        ensures gone { IfOk result (λ said. (d : Exchange) (l : Connected)
            → AreLeft self.old d turns.c → IsOpen d.site turns.c connection l
            → HasGone said d turns.c (rounds_of d.site turns.c reading turns.rounds d.book (Some l))
            self.new) }
        ensures refused { OnErr result (self.new.site ≡ self.old.site) }
    {
        let Turns { c, rounds } = turns;
        let turn = rounds_of(
            self.alloc,
            &self.site,
            &mut self.book,
            connection,
            rounds,
            reading,
        )?;
        self.put_at(c, turn.connection);
        Ok(Some(SaidAt {
            c,
            lines: turn.said,
        }))
    }

    // Puts a connection or none at a door, if there is such a door, and answers the one that was
    // there.
    fn put_at(&mut self, c: u32, connection: Option<Connection>) -> Option<Connection>
        ensures before { result ≡ there (slice_get self.old.connections c) }
        ensures after { self.new ≡ record self.old {
          connections = slice_set self.old.connections c connection;
        } }
    {
        put_at(&mut self.connections, c, connection)
    }

    // Whether there is such a door, with no connection at it.
    fn is_free(&self, c: u32) -> bool
        ensures { result ≡ is_free (slice_get self.now.connections c) }
    {
        matches!(self.connections.get(c as usize), Some(None))
    }

    // Opens a connection at a reading of the clock, unless it is open.
    fn open(&mut self, c: u32, reading: u128) -> Result<Option<SaidAt>, Memory>
        ensures opened { IfOk result (λ said. (d : Exchange) → AreDoors self.old d
            → IsActed said d (opens d reading c (slice_get d.connections c)) self.new) }
        ensures refused { OnErr result (self.new ≡ self.old) }
    {
        if !self.is_free(c) {
            return Ok(None);
        }
        let connection = Connection::new(self.alloc, c, reading)?;
        self.put_at(c, Some(connection));
        Ok(Some(SaidAt {
            c,
            lines: Vec::new(self.alloc),
        }))
    }
}

// Puts a connection or none at one of the doors, if there is such a door, and answers the one that
// was there.
fn put_at(
    doors: &mut [Option<Connection>],
    c: u32,
    connection: Option<Connection>,
) -> Option<Connection>
    ensures before { result ≡ there (slice_get doors.old c) }
    ensures after { doors.new ≡ slice_set doors.old c connection }
{
    let door = c as usize;
    if door >= doors.len() {
        return None;
    }
    mem::replace(&mut doors[door], connection)
}

// No connection is at any door.
fn nobody() -> [Option<Connection>; DOORS]
    ensures { result ≡ replicate 17 None }
{
    [
        None, None, None, None, None, None, None, None, None, None, None, None, None, None, None,
        None, None,
    ]
}

// What a line asks of a connection, unless it is none of these lines.
fn turns_of(line: &ScriptLine) -> Option<Turns>
    ensures { Match IsAsked result (act_of line.now) }
{
    match line {
        ScriptLine::Piece { c, .. } => Some(Turns { c: *c, rounds: 1 }),
        ScriptLine::Ask { c, .. } => Some(Turns { c: *c, rounds: 1 }),
        ScriptLine::Shut { c } => Some(Turns { c: *c, rounds: 1 }),
        ScriptLine::Break { c } => Some(Turns { c: *c, rounds: 1 }),
        ScriptLine::Round { c, n } => Some(Turns { c: *c, rounds: *n }),
        ScriptLine::Stall { c, .. } => Some(Turns { c: *c, rounds: 0 }),
        _ => None,
    }
}

// What a line says comes to a connection, or is ordered at its link.
fn obey(alloc: Global, connection: &mut Connection, line: &ScriptLine) -> Result<(), Memory>
    requires { Fits line.now }
    ensures { OnOk result (IsObeyed connection.old connection.new (act_of line.now)) }
{
    match line {
        ScriptLine::Piece { octets, .. } => connection.arrive(octets.clone()?)?,
        ScriptLine::Ask { ask, .. } => connection.ask(alloc, ask)?,
        ScriptLine::Shut { .. } => connection.shut(),
        ScriptLine::Break { .. } => connection.break_poll(),
        ScriptLine::Stall { n, .. } => connection.stall(*n),
        _ => {}
    }
    Ok(())
}

// So many rounds of a connection, as long as it is there.
fn rounds_of(
    alloc: Global,
    site: &Site,
    book: &mut Book,
    connection: Connection,
    rounds: u32,
    reading: u128,
) -> Result<Turn, Memory>
    requires site { IsSite site.now }
    requires reading { reading < MOMENT_END }
    ensures ran { IfOk result (λ turn. (c : ℕ) (l : Connected) → IsOpen site.now c connection l
        → HasRan site.now c (rounds_of site.now c reading rounds book.old (Some l)) book.old
        book.new turn.said.items turn.connection) }
{
    let mut said = Vec::new(alloc);
    let mut there = connection;
    for _ in 0..rounds {
        let turn = there.round(alloc, site, book, reading)?;
        let Turn {
            said: mut more,
            connection,
        } = turn;
        said.append(&mut more)?;
        match connection {
            Some(connection) => there = connection,
            None => {
                return Ok(Turn {
                    said,
                    connection: None,
                });
            }
        }
    }
    Ok(Turn {
        said,
        connection: Some(there),
    })
}
