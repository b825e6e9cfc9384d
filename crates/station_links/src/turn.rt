// A round of a connection.
ghost use Rattle.std.specs.Prelude.{◌≡◌, ◌<◌, IfOk, OnErr};
ghost use Rattle.cds_time.specs.declared.cds.TheConstants.{MOMENT_END};
ghost use Rattle.station_config.specs.Validity.{IsSite};
ghost use Rattle.station_book.specs.History.{replay};
ghost use Rattle.session_core.specs.Lists.{Began};
ghost use Rattle.station_links.specs.Connected.{Connected};
ghost use Rattle.station_links.specs.Lives.{Lives, Turned, Leaves};
ghost use Rattle.station_links.specs.Rounds.{round_of, quits, left_by};

use crate::connection::Connection;
use crate::link_line::{LinkLine, end_of, lines_of, put_drop, put_end};
use crate::steered::make_round;
use drill_text::EndWord;
use octet_core::Memory;
use session_core::laws;
use station_book::Book;
use station_config::Site;
use std::alloc::Global;
use std::marker::Brand;

/// What a round said, and the connection behind it, if it is there still.
#[derive(Drop)]
pub struct Turn {
    pub said: Vec<LinkLine>,
    pub connection: Option<Connection>,
}

// A connection that ended quits its door.
fn quit_door(book: &mut Book, c: u32, end: Option<EndWord>)
    ensures { book.new ≡ replay book.old (quits c book.old end) }
{
    if end.is_some() {
        book.quit(c);
    }
}

// What is left of a connection: one that ended isn't there any more.
fn left_by(end: Option<EndWord>, connection: Connection) -> Option<Connection>
    ensures { result ≡ left_by end connection }
{
    match end {
        None => Some(connection),
        Some(_) => None,
    }
}

impl Connection {
    /// One round, at a reading of the clock. Where the connection ends, it quits its door and isn't
    /// there any more. Want of memory ends all.
    pub fn round(
        self,
        alloc: Global,
        site: &Site,
        book: &mut Book,
        reading: u128,
    ) -> Result<Turn, Memory>
        requires site { IsSite site.now }
        requires reading { reading < MOMENT_END }
        ensures round { IfOk result (λ turn. (b : Began) (l : Connected) → b.site ≡ site.now
            → Lives b self l
            → Turned b (round_of b.site b.door l book.old reading) book.old book.new
            turn.said.items turn.connection) }
        ensures memory { OnErr result (Leaves book.old book.new) }
    {
        laws::one_round_more();
        let Connection {
            c,
            mut session,
            link,
        } = self;
        let (spoken, mut link) = make_round::<Brand>(&mut session, link, site, book, reading)?;
        let Some(calls) = link.take_told() else {
            return Err(Memory);
        };
        let mut said = lines_of(alloc, &calls)?;
        let end = end_of(spoken);
        put_drop(&mut said, end, session.dropped())?;
        put_end(&mut said, end)?;
        quit_door(book, c, end);
        let connection = left_by(end, Connection { c, session, link });
        Ok(Turn { said, connection })
    }
}
