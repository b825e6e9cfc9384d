// Elements one inside the other, as deep as octets that mean ill may have them.
use ber_core::{BerFault, Reader};

// Seventeen SEQUENCEs, each of which is all that the one around it holds. The innermost is empty.
const NESTED: [u8; 34] = [
    0x30, 0x20, 0x30, 0x1e, 0x30, 0x1c, 0x30, 0x1a, 0x30, 0x18, 0x30, 0x16, 0x30, 0x14, 0x30, 0x12,
    0x30, 0x10, 0x30, 0x0e, 0x30, 0x0c, 0x30, 0x0a, 0x30, 0x08, 0x30, 0x06, 0x30, 0x04, 0x30, 0x02,
    0x30, 0x00,
];

#[test]
fn sixteen_elements_are_entered_and_no_further_one(rt: HostRuntime) {
    let mut reader = Reader::new(&NESTED);
    for _ in 0..16 {
        assert_eq!(rt; reader.element(&[0x30]), Ok(()));
    }
    // The reader stays where it is, and answers the same again.
    for _ in 0..2 {
        let answer = reader.element(&[0x30]);
        assert_eq!(rt; answer, Err(BerFault::BadLength { place: 33 }));
        assert_eq!(rt; reader.place(), 32);
    }
}
