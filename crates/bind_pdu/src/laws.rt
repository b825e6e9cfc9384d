// What holds of the definitions, as contracts of functions that do nothing: a caller has a law by a
// call.

ghost use Rattle.ber_shape.specs.Exact.{IsExact};
ghost use Rattle.bind_pdu.specs.Aborting.{peer_abort};
ghost use Rattle.bind_pdu.specs.Binding.{bind, bind_return};
ghost use Rattle.bind_pdu.specs.Unbinding.{unbind, unbind_return};

use crate::bind::Bind;
use crate::bind_return::BindReturn;
use crate::peer_abort::PeerAbort;
use crate::unbind::Unbind;
use crate::unbind_return::UnbindReturn;
use ber_shape::laws::{is_exact, pdu_is_exact};

/// Each PDU is read exactly where a tree of a value that fits is spelled, and as that value; the
/// canonical spelling of a value is read back as it; octets spell one value at most.
pub fn pdus_are_exact()
    ensures bind { IsExact bind }
    ensures bind_return { IsExact bind_return }
    ensures unbind { IsExact unbind }
    ensures unbind_return { IsExact unbind_return }
    ensures peer_abort { IsExact peer_abort }
{
    pdu_is_exact::<Bind>();
    pdu_is_exact::<BindReturn>();
    pdu_is_exact::<Unbind>();
    pdu_is_exact::<UnbindReturn>();
    is_exact::<PeerAbort>();
}
