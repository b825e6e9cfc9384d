// A session's rounds in small: an instance of the service over a queue, which is all that there is
// of a book.
ghost use Rattle.std.specs.Prelude.{◌<◌};
ghost use Rattle.cds_time.specs.declared.cds.TheConstants.{MOMENT_END};
ghost use Rattle.fcltu_service.specs.Returns.{return_of, ReturnFits};

use ber_core::Writer;
use ber_shape::Pdu;
use cltu_queue::{Ask, BookReply, CltuFault, Notice, Queue};
use fcltu_service::{CltuInvocation, CltuReturn, Fcltu, notify, status_report};
use octet_core::Memory;
use sle_common::Credentials;
use std::alloc::Global;
use std::test::Fail;

/// 20000/0/0 as a moment: 1,728,000,000 seconds, in picoseconds.
pub const DAY: u128 = 1_728_000_000_000_000_000_000;

/// A station whose one instance is bound. The clock is in picoseconds since `DAY`.
#[derive(Drop)]
pub struct Station {
    pub alloc: Global,
    pub queue: Queue,
    pub service: Fcltu,
    pub clock: u64,
}

// The room of a queue, and the longest CLTU.
pub type Limits = (u32, u32);

// The canonical spelling of a PDU.
fn written<'a, P: Pdu<'a>>(alloc: Global, pdu: &P) -> Result<Vec<u8>, Fail>
    requires { P.Members.shape.Fits (P.Members.seen pdu.now) }
{
    let mut writer = Writer::new(alloc, pdu.length())?;
    pdu.encode(&mut writer);
    Ok(Vec::from_slice(alloc, writer.octets())?)
}

// The canonical spelling of a return.
fn returned(alloc: Global, pdu: &CltuReturn<'_>) -> Result<Vec<u8>, Fail>
    requires { ReturnFits (return_of pdu.now) }
{
    let mut writer = Writer::new(alloc, pdu.length())?;
    pdu.encode(&mut writer);
    Ok(Vec::from_slice(alloc, writer.octets())?)
}

// What a queue replies to an ask at a moment.
fn reply(queue: &mut Queue, ask: &Ask, now: u128) -> Result<BookReply, Memory>
    requires { now < MOMENT_END }
{
    match ask {
        Ask::CltuStart { first } => Ok(start(queue, *first, now)),
        Ask::CltuTransfer { cltu } if queue.is_started() => match queue.transfer(cltu, now) {
            Ok(room) => Ok(BookReply::Taken { room }),
            Err(CltuFault::Refused { diagnostic, room }) => {
                Ok(BookReply::Rejected { diagnostic, room })
            }
            Err(CltuFault::Memory) => Err(Memory),
        },
        Ask::CltuStop if queue.is_started() => {
            queue.stop();
            Ok(BookReply::Stopped)
        }
        Ask::CltuTransfer { .. } | Ask::CltuStop => Ok(BookReply::Lost),
        _ => Ok(BookReply::Nothing),
    }
}

fn start(queue: &mut Queue, first: u32, now: u128) -> BookReply {
    if queue.is_started() {
        return BookReply::Lost;
    }
    match queue.start(first) {
        Ok(()) => BookReply::Started { now },
        Err(diagnostic) => BookReply::StartRefused { diagnostic },
    }
}

impl Station {
    pub fn new(alloc: Global, limits: Limits) -> Result<Station, Fail> {
        let (room, longest) = limits;
        Ok(Station {
            alloc,
            queue: Queue::new(alloc, room, longest)?,
            service: Fcltu::new(60),
            clock: 0,
        })
    }

    pub fn now(&self) -> u128
        ensures { result < MOMENT_END }
    {
        DAY + u128::from(self.clock)
    }

    // The notice that is told in a round, once its ask was replied to.
    fn notice(&mut self) -> Option<Notice> {
        if self.queue.is_started() {
            self.queue.notice()
        } else {
            None
        }
    }

    /// What a round with this invocation has offered: a return, a status report, a notice.
    pub fn round(&mut self, invocation: &CltuInvocation<'_>) -> Result<Vec<u8>, Fail> {
        let now = self.now();
        let ask = self.service.prepare(self.alloc, invocation)?;
        let reply = reply(&mut self.queue, &ask, now)?;
        let notice = self.notice();
        let answer = self.service.conclude(invocation, &reply, now);
        let mut octets = Vec::new(self.alloc);
        if let Some(pdu) = answer.returned(Credentials::Unused, 0) {
            octets.extend_from_slice(&returned(self.alloc, &pdu)?)?;
        }
        self.put_report(&mut octets, now)?;
        if let Some(notice) = notice {
            let pdu = notify(Credentials::Unused, notice);
            octets.extend_from_slice(&written(self.alloc, &pdu)?)?;
        }
        Ok(octets)
    }

    // The status report, where one is due.
    fn put_report(&mut self, octets: &mut Vec<u8>, now: u128) -> Result<(), Fail>
        requires { now < MOMENT_END }
    {
        if self.service.report(now) {
            let pdu = status_report(Credentials::Unused, self.queue.view());
            octets.extend_from_slice(&written(self.alloc, &pdu)?)?;
        }
        Ok(())
    }
}

/// A return of STOP with credentials, and the greatest number of an invocation.
pub fn signed_return(alloc: Global, credentials: &[u8; 8]) -> Result<Vec<u8>, Fail> {
    let answer = Fcltu::new(60).conclude(&CltuInvocation::Stop, &BookReply::Stopped, DAY);
    match answer.returned(Credentials::Used(credentials), u16::MAX) {
        Some(pdu) => returned(alloc, &pdu),
        None => Ok(Vec::new(alloc)),
    }
}
