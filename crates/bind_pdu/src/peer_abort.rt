ghost use Rattle.std.specs.Prelude.{◌≡◌, length};
ghost use Rattle.ber_core.specs.Reading.{Gives};
ghost use Rattle.ber_core.specs.Written.{HasRoom, Appends};
ghost use Rattle.ber_shape.specs.Exact.{whole, IsDecoded};
ghost use Rattle.bind_pdu.specs.Aborting.{peer_abort, abort_octets};
ghost use Rattle.bind_pdu.specs.Seen.{diagnostic_of};

use ber_core::{BerFault, Reader, Writer, element_length, integer_length};
use ber_shape::Element;

/// PEER-ABORT (CCSDS 911.1-B, annex A), which ends an association at once: one primitive element.
#[derive(Clone, Copy, Debug, PartialEq, Eq)]
pub struct PeerAbort {
    /// Why, from 0 to 127: the number of a `PeerAbortDiagnostic` of `sle_numbers`, or one that it
    /// doesn't have.
    pub diagnostic: u8,
}

impl PeerAbort {
    /// The PDU that these octets spell, all of them, or the first fault.
    pub fn decode(octets: &[u8]) -> Result<PeerAbort, BerFault>
        ensures exact { Gives diagnostic_of result (whole peer_abort.read octets.now) }
        ensures spelled { IsDecoded peer_abort diagnostic_of octets.now result }
    {
        ber_shape::decode::<PeerAbort>(octets)
    }

    /// The number of octets that `encode` appends.
    pub fn length(&self) -> usize
        requires { peer_abort.Fits (diagnostic_of self.now) }
        ensures { result ≡ length (abort_octets self.now) }
    {
        ber_shape::length::<PeerAbort>(self)
    }

    /// Appends the canonical spelling.
    pub fn encode(&self, writer: &mut Writer)
        requires fits { peer_abort.Fits (diagnostic_of self.now) }
        requires room { HasRoom writer.old (abort_octets self.now) }
        ensures { Appends writer.old writer.new (abort_octets self.now) }
    {
        ber_shape::encode::<PeerAbort>(self, writer);
    }
}

impl<'a> Element<'a> for PeerAbort {
    ghost use Rattle.std.specs.Prelude.{ℕ, refl};
    ghost use Rattle.bind_pdu.specs.Aborting.{peer_abort};
    ghost use Rattle.bind_pdu.specs.Seen.{diagnostic_of};

    type Value = PeerAbort;

    ghost Seen = { ℕ };

    ghost shape = { peer_abort };

    ghost is_shallow = { refl };

    ghost seen = { diagnostic_of };

    fn read(reader: &mut Reader<'a>) -> Result<PeerAbort, BerFault> {
        let diagnostic = reader.integer(&[0x9f, 0x68], 0, 127)?;
        Ok(PeerAbort {
            diagnostic: diagnostic as u8,
        })
    }

    #[tactic(auto, using(ber_core::specs::Parts::lengths))]
    fn size(abort: &PeerAbort) -> usize {
        element_length(&[0x9f, 0x68], integer_length(i128::from(abort.diagnostic)))
    }

    fn write(abort: &PeerAbort, writer: &mut Writer) {
        writer.integer(&[0x9f, 0x68], i128::from(abort.diagnostic));
    }
}
