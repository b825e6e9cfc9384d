ghost use Rattle.std.specs.Prelude.{◌≡◌};
ghost use Rattle.return_pdu.specs.declared.notification.Notification.TheVariants.{Loss};

use crate::lock_loss::LockLoss;
use crate::number_range::{GREATEST, LEAST};
use ber_core::{BerFault, Reader, Writer, element_length, integer_length};
use ber_shape::{Element, read_within, size_within, write_within};
use cds_time::Cds;
use sle_numbers::LockStatus;

/// What a station tells between frames (CCSDS 911.1-B, annex A).
#[derive(Clone, Copy, Debug, PartialEq, Eq)]
pub enum Notification {
    /// The frame synchroniser lost its lock: when, and the statuses of the other locks.
    Loss {
        at: Cds,
        carrier: LockStatus,
        subcarrier: LockStatus,
        symbol: LockStatus,
    },
    /// The production status: running 0, interrupted 1, halted 2; any INTEGER of at most 64 bits,
    /// signed or unsigned, is read.
    Production(i128),
    /// Frames that waited too long were given up.
    Backlog,
    /// All frames that were asked for were given.
    EndOfData,
}

impl<'a> Element<'a> for Notification {
    ghost use Rattle.std.specs.Prelude.{refl};
    ghost use Rattle.return_pdu.specs.declared.notification.Notification.{Notification};
    ghost use Rattle.return_pdu.specs.Notification.{notification};

    type Value = Notification;

    ghost Seen = { Notification };

    ghost shape = { notification };

    ghost is_shallow = { refl };

    ghost seen = { λ notice. notice };

    fn read(reader: &mut Reader<'a>) -> Result<Notification, BerFault> {
        if reader.next_is(&[0x81]) {
            let status = reader.integer(&[0x81], LEAST, GREATEST)?;
            return Ok(Notification::Production(status));
        }
        if reader.next_is(&[0x82]) {
            reader.null(&[0x82])?;
            return Ok(Notification::Backlog);
        }
        if reader.next_is(&[0x83]) {
            reader.null(&[0x83])?;
            return Ok(Notification::EndOfData);
        }
        let loss = read_within::<LockLoss>(&[0xa0], reader)?;
        Ok(notice_of(loss))
    }

    #[tactic(auto, using(ber_core::specs::Parts::lengths))]
    fn size(value: &Notification) -> usize {
        match *value {
            Notification::Loss {
                at,
                carrier,
                subcarrier,
                symbol,
            } => size_within::<LockLoss>(&[0xa0], &lock_loss(at, carrier, subcarrier, symbol)),
            Notification::Production(status) => element_length(&[0x81], integer_length(status)),
            Notification::Backlog => element_length(&[0x82], 0),
            Notification::EndOfData => element_length(&[0x83], 0),
        }
    }

    fn write(value: &Notification, writer: &mut Writer) {
        match *value {
            Notification::Loss {
                at,
                carrier,
                subcarrier,
                symbol,
            } => {
                let loss = lock_loss(at, carrier, subcarrier, symbol);
                write_within::<LockLoss>(&[0xa0], &loss, writer)
            }
            Notification::Production(status) => writer.integer(&[0x81], status),
            Notification::Backlog => writer.null(&[0x82]),
            Notification::EndOfData => writer.null(&[0x83]),
        }
    }
}

fn notice_of(loss: LockLoss) -> Notification
    ensures { result ≡ Loss loss.at loss.carrier loss.subcarrier loss.symbol }
{
    Notification::Loss {
        at: loss.at,
        carrier: loss.carrier,
        subcarrier: loss.subcarrier,
        symbol: loss.symbol,
    }
}

fn lock_loss(at: Cds, carrier: LockStatus, subcarrier: LockStatus, symbol: LockStatus) -> LockLoss
    ensures { result ≡ record {
      at = at;
      carrier = carrier;
      subcarrier = subcarrier;
      symbol = symbol;
    } }
{
    LockLoss {
        at,
        carrier,
        subcarrier,
        symbol,
    }
}
