use crate::notification::Notification;
use ber_core::{BerFault, Reader, Writer};
use ber_shape::{Element, Members};
use sle_common::Credentials;

/// A notification, and who sends it.
#[derive(Clone, Copy)]
pub(crate) struct ToldFields<'a> {
    pub credentials: Credentials<'a>,
    pub notice: Notification,
}

impl<'a> Members<'a> for ToldFields<'a> {
    ghost use Rattle.std.specs.Prelude.{refl};
    ghost use Rattle.return_pdu.specs.Notification.{ToldContent, told_fields};
    ghost use Rattle.return_pdu.specs.Seen.{told_of};

    type Value = ToldFields<'a>;

    ghost Seen = { ToldContent };

    ghost shape = { told_fields };

    ghost is_shallow = { refl };

    ghost seen = { told_of };

    fn read(reader: &mut Reader<'a>) -> Result<ToldFields<'a>, BerFault> {
        Ok(ToldFields {
            credentials: Credentials::read(reader)?,
            notice: Notification::read(reader)?,
        })
    }

    #[tactic(auto, using(ber_core::specs::Parts::lengths))]
    fn size(value: &ToldFields<'a>) -> usize {
        Credentials::size(&value.credentials) + Notification::size(&value.notice)
    }

    #[tactic(auto, unfolding(ber_core::specs::Spelling::canonical))]
    fn write(value: &ToldFields<'a>, writer: &mut Writer) {
        Credentials::write(&value.credentials, writer);
        Notification::write(&value.notice, writer);
    }
}
