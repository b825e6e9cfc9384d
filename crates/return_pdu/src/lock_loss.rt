use ber_core::{BerFault, Reader, Writer};
use ber_shape::{Element, Members};
use cds_time::Cds;
use sle_common::{InTable, Time};
use sle_numbers::LockStatus;

type Lock = InTable<LockStatus>;

/// The loss of a lock, with the statuses of the other ones.
#[derive(Clone, Copy)]
pub(crate) struct LockLoss {
    pub at: Cds,
    pub carrier: LockStatus,
    pub subcarrier: LockStatus,
    pub symbol: LockStatus,
}

impl<'a> Members<'a> for LockLoss {
    ghost use Rattle.std.specs.Prelude.{refl};
    ghost use Rattle.return_pdu.specs.declared.lock_loss.LockLoss.{LockLoss};
    ghost use Rattle.return_pdu.specs.Notification.{loss_fields};

    type Value = LockLoss;

    ghost Seen = { LockLoss };

    ghost shape = { loss_fields };

    ghost is_shallow = { refl };

    ghost seen = { λ loss. loss };

    fn read(reader: &mut Reader<'a>) -> Result<LockLoss, BerFault> {
        Ok(LockLoss {
            at: Time::read(reader)?,
            carrier: Lock::read(reader)?,
            subcarrier: Lock::read(reader)?,
            symbol: Lock::read(reader)?,
        })
    }

    #[tactic(auto, using(ber_core::specs::Parts::lengths))]
    fn size(value: &LockLoss) -> usize {
        Time::size(&value.at)
            + Lock::size(&value.carrier)
            + Lock::size(&value.subcarrier)
            + Lock::size(&value.symbol)
    }

    #[tactic(auto, unfolding(ber_core::specs::Spelling::canonical))]
    fn write(value: &LockLoss, writer: &mut Writer) {
        Time::write(&value.at, writer);
        Lock::write(&value.carrier, writer);
        Lock::write(&value.subcarrier, writer);
        Lock::write(&value.symbol, writer);
    }
}
