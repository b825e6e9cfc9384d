ghost use Rattle.std.specs.Prelude.{◌≡◌};
ghost use Rattle.ber_core.specs.Reading.{Gives};
ghost use Rattle.ber_shape.specs.Exact.{whole};
ghost use Rattle.isp1_auth.specs.Signed.{fields, sequence, claim_of};

use crate::random_numbers::GREATEST_NUMBER;
use ber_core::{BerFault, Reader};

// As many octets as a slice has.
const ANY_LENGTH: usize = 0x7fff_ffff_ffff_ffff;

// What credentials hold where they are used: a time in its octets, a number, and the digest that
// protects both.
#[derive(Clone, Copy)]
pub(crate) struct Signature<'a> {
    pub(crate) time: &'a [u8; 8],
    pub(crate) number: u32,
    pub(crate) protected: &'a [u8],
}

impl<'a> Signature<'a> {
    // Reads all of these octets, in any spelling, or names the first fault.
    pub(crate) fn read(octets: &'a [u8]) -> Result<Signature<'a>, BerFault>
        ensures { Gives claim_of result (whole sequence.read octets.now) }
    {
        let mut reader = Reader::new(octets);
        reader.element(&[0x30])?;
        let signature = Signature::read_fields(&mut reader)?;
        reader.leave()?;
        reader.leave()?;
        Ok(signature)
    }

    fn read_fields(reader: &mut Reader<'a>) -> Result<Signature<'a>, BerFault>
        ensures { Gives (λ s. (claim_of s, reader.new)) result (fields.read reader.old) }
    {
        let time = reader.octet_string(&[0x04], 8, 8)?;
        let number = reader.integer(&[0x02], 0, i128::from(GREATEST_NUMBER))?;
        let protected = reader.octet_string(&[0x04], 0, ANY_LENGTH)?;
        Ok(Signature {
            time: time.try_into().unwrap(),
            number: number as u32,
            protected,
        })
    }
}
