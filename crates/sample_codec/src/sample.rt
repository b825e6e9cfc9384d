use crate::items::{ItemSequence, Items};
use ber_shape::{Last, Octet, Sequence};
use cds_time::Cds;
use sle_common::{ConditionalTime, Credentials, InvokeId};

/// A SEQUENCE under the context tag 0: credentials, the invocation's number, a time and items.
#[derive(Drop)]
pub struct Sample<'a> {
    pub credentials: Credentials<'a>,
    pub invoke: u16,
    /// None where it is undefined.
    pub time: Option<Cds>,
    pub items: Items<'a>,
}

impl<'a> Sequence<'a, Octet<0xa0>> for Sample<'a> {
    ghost use Rattle.std.specs.Prelude.{refl};

    type Values = (Credentials<'a>, (u16, (Option<Cds>, Items<'a>)));

    type Fields = (
        Credentials<'a>,
        (InvokeId, (ConditionalTime, Last<ItemSequence>)),
    );

    ghost values_of = { λ s. (s.credentials, (s.invoke, (s.time, s.items))) };

    ghost is_encodable = { refl };

    fn from_values(values: Self::Values) -> Sample<'a> {
        let (credentials, (invoke, (time, items))) = values;
        Sample {
            credentials,
            invoke,
            time,
            items,
        }
    }

    fn to_values(&self) -> Self::Values {
        (
            self.credentials,
            (self.invoke, (self.time, self.items.iter())),
        )
    }
}
