// The uplink of a station.
ghost use Rattle.std.specs.Prelude.{◌≡◌, ◌<◌, None};
ghost use Rattle.cds_time.specs.declared.cds.TheConstants.{MOMENT_END};
ghost use Rattle.station_book.specs.History.{after};
ghost use Rattle.station_book.specs.State.{State, take};
ghost use Rattle.station_uplink.specs.Turns.{Uplink as Sent, silent, found, taken_by};
ghost use Rattle.station_uplink.specs.Turns.{sends, done_by, turned};
ghost use Rattle.station_uplink.specs.Standing.{IsUplink, HasDone, HasTurned};
ghost use Rattle.station_uplink.specs.declared.turned.Turned.TheVariants.{Says};

use crate::aloft::Aloft;
use crate::turn::Turn;
use crate::turned::Turned;
use crate::uplink_line::UplinkLine;
use antenna_core::{Antenna, AntennaSim};
use cltu_queue::Taken;
use octet_core::Octets;
use station_book::Book;
use std::alloc::Global;
use std::marker::Model;

/// A station's antenna in memory, with what is in the air.
#[derive(Debug, Drop)]
pub struct Uplink {
    antenna: AntennaSim,
    in_air: Option<Aloft>,
}

impl Model for Uplink {
    ghost use Rattle.std.specs.Prelude.{◌≡◌, [], false};
    ghost use Rattle.station_uplink.specs.Standing.{Seen};

    ghost Value = { Seen };

    ghost view = { λ u. record { told = u.antenna.told; in_air = u.in_air } };

    ghost invariant = { λ u. (u.antenna.is_broken ≡ false)
        × (u.antenna.failing.failing ≡ []) };
}

impl Uplink {
    /// Nothing was sent yet.
    pub fn new(alloc: Global) -> Uplink
        ensures { IsUplink result silent }
    {
        Uplink {
            antenna: AntennaSim::new(alloc, Vec::new(alloc)),
            in_air: None,
        }
    }

    /// What is in the air is gone, as with the power.
    pub fn lose_air(&mut self)
        ensures { self.new ≡ record self.old { in_air = None } }
    {
        self.in_air = None;
    }

    /// Does a turn on the book, at a reading of the clock.
    pub fn turn(&mut self, book: &mut Book, turn: Turn, reading: u128) -> Turned
        requires { reading < MOMENT_END }
        ensures turned { (u : Sent) → IsUplink self.old u
            → HasTurned result (turned book.old reading u turn) book.old book.new self.new u }
        ensures published { book.new.published ≡ book.old.published }
    {
        match turn {
            Turn::Take { fail } => Turned::Says(self.take(book, reading, fail)),
            Turn::Done => self.done(book, reading),
            Turn::Uplink { production, status } => {
                book.uplink(production, status, reading);
                Turned::Quiet
            }
        }
    }

    // Takes what may radiate, and sends it unless that is to fail.
    fn take(&mut self, book: &mut Book, reading: u128, fail: bool) -> UplinkLine
        requires { reading < MOMENT_END }
        ensures taken { (u : Sent) → IsUplink self.old u
            → HasDone (Says result) (taken_by book.old reading fail u (found book.old reading))
            book.old book.new self.new }
        ensures published { book.new.published ≡ book.old.published }
    {
        match book.take(reading) {
            Taken::Idle => UplinkLine::Idle,
            Taken::Waits { .. } => UplinkLine::Waits,
            Taken::Expired { id } => UplinkLine::Expired { id },
            Taken::Radiate { run, id, octets } => {
                self.radiate(book, Aloft { run, id }, octets, reading, fail)
            }
        }
    }

    // Sends what was taken. Where the send fails, its radiation is interrupted.
    fn radiate(
        &mut self,
        book: &mut Book,
        aloft: Aloft,
        octets: Octets,
        reading: u128,
        fail: bool,
    ) -> UplinkLine
        requires { reading < MOMENT_END }
        ensures sent { (b : State) (u : Sent) → book.old ≡ after b (take reading)
            → IsUplink self.old u → HasDone (Says result) (sends fail b reading u aloft octets)
            b book.new self.new }
        ensures published { book.new.published ≡ book.old.published }
    {
        if fail {
            self.antenna.break_send();
        }
        match self.antenna.send(octets.as_slice()) {
            Ok(()) => {
                self.in_air = Some(aloft);
                UplinkLine::Radiated {
                    id: aloft.id,
                    octets,
                }
            }
            Err(_) => {
                self.in_air = None;
                book.interrupted(aloft.run, aloft.id, reading);
                UplinkLine::Failed { id: aloft.id }
            }
        }
    }

    // What is in the air was radiated.
    fn done(&mut self, book: &mut Book, reading: u128) -> Turned
        requires { reading < MOMENT_END }
        ensures done { (u : Sent) → IsUplink self.old u
            → HasTurned result (done_by book.old reading u u.in_air)
            book.old book.new self.new u }
        ensures published { book.new.published ≡ book.old.published }
    {
        let Some(aloft) = self.in_air else {
            return Turned::Wrong;
        };
        book.done(aloft.run, aloft.id, reading);
        self.in_air = None;
        Turned::Quiet
    }
}
