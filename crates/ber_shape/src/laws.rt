// What holds of every shape.

ghost use Rattle.std.specs.Prelude.{◌≡◌, ◌+◌, ◌^◌, true, length, nat_lt, [], ◌∷◌};
ghost use Rattle.ber_shape.specs.Members.{structured};
ghost use Rattle.ber_shape.specs.Exact.{IsExact, AreExact};
ghost use Rattle.ber_shape.specs.Fields.{encodable};

use crate::element::Element;
use crate::identifier::Identifier;
use crate::members::Members;
use crate::pdu::Pdu;
use crate::sequence::Sequence;

/// An element is read exactly where a tree of a value that fits is spelled, and as that value; the
/// canonical spelling is read back; octets spell one value at most; their tree is well formed.
pub fn is_exact<'a, E: Element<'a>>()
    requires { nat_lt E.shape.most (2 ^ 64) ≡ true }
    ensures { IsExact E.shape }
{}

/// The same for what stands in an element.
pub fn are_exact<'a, M: Members<'a>>()
    ensures { AreExact M.shape }
{}

/// The same for a PDU.
pub fn pdu_is_exact<'a, P: Pdu<'a>>()
    ensures { IsExact (structured P.tag P.Members.shape P.is_tag) }
{
    is_small::<P>();
}

fn is_small<'a, P: Pdu<'a>>()
    ensures { nat_lt (length P.tag + 9 + P.Members.shape.most) (2 ^ 64) ≡ true }
{}

/// The same for a SEQUENCE that is a struct.
pub fn sequence_is_exact<'a, I: Identifier, S: Sequence<'a, I>>()
    ensures { (is_tag : _) → IsExact (structured (I.octet ∷ []) S.Fields.shape is_tag) }
{
    sequence_is_encodable::<I, S>();
}

pub(crate) fn sequence_is_encodable<'a, I: Identifier, S: Sequence<'a, I>>()
    ensures { encodable I.octet S.Fields.shape ≡ true }
{}
