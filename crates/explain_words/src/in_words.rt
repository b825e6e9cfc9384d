// PDUs that can be told in words.

use crate::text::Text;
use ber_core::BerFault;
use ber_shape::Pdu;

/// What can be told in words: a title, and a line for each field.
pub trait InWords {
    /// Appends its words.
    fn put_words(&self, text: &mut Text);
}

/// Appends the words of the PDU that octets spell, or answers the first fault.
pub fn put_as<'a, P: Pdu<'a> + InWords + Drop>(
    octets: &'a [u8],
    text: &mut Text,
) -> Result<(), BerFault> {
    match P::decode(octets) {
        Ok(pdu) => {
            pdu.put_words(text);
            Ok(())
        }
        Err(fault) => Err(fault),
    }
}
