// Service instance identifiers (CCSDS 911.1-B, annex A). The octets were made by pyasn1 0.6.3 from
// the texts beside them; those of faults were changed by hand, and their places counted by hand.
use sle_common::Attribute;

// The second row has the outer length in two octets. The faulty ones have one octet changed, or no
// attribute, or nine.
pub const IDENTIFIER: &str = "
3044 310e 300c 06072b700403010234 1a0131 310e 300c 06072b700403010235 1a0150
    310e 300c 06072b700403010226 1a0131 3112 3010 06072b700403010216 1a056f6e6c6331
    = sagr=1.spack=P.rsl-fg=1.raf=onlc1;
308144 310e 300c 06072b700403010234 1a0131 310e 300c 06072b700403010235 1a0150
    310e 300c 06072b700403010226 1a0131 3112 3010 06072b700403010216 1a056f6e6c6331
    = sagr=1.spack=P.rsl-fg=1.raf=onlc1 spelled otherwise;
308180 8*310e300c06072b7004030102341a0131
    = sagr=1.sagr=1.sagr=1.sagr=1.sagr=1.sagr=1.sagr=1.sagr=1;
3010 310e 300c 06072b700403010234 1a0131 = sagr=1;
3044 300e 300c 06072b700403010234 1a0131 310e 300c 06072b700403010235 1a0150
    310e 300c 06072b700403010226 1a0131 3112 3010 06072b700403010216 1a056f6e6c6331
    = another identifier at octet 2, beginning with 0x30;
3044 310e 310c 06072b700403010234 1a0131 310e 300c 06072b700403010235 1a0150
    310e 300c 06072b700403010226 1a0131 3112 3010 06072b700403010216 1a056f6e6c6331
    = another identifier at octet 4, beginning with 0x31;
3044 310e 300c 06072c700403010234 1a0131 310e 300c 06072b700403010235 1a0150
    310e 300c 06072b700403010226 1a0131 3112 3010 06072b700403010216 1a056f6e6c6331
    = no content of its type at octet 8;
3044 310e 300c 06072b700403010233 1a0131 310e 300c 06072b700403010235 1a0150
    310e 300c 06072b700403010226 1a0131 3112 3010 06072b700403010216 1a056f6e6c6331
    = no content of its type at octet 8;
3044 310e 300c 06072b700403010234 1a0120 310e 300c 06072b700403010235 1a0150
    310e 300c 06072b700403010226 1a0131 3112 3010 06072b700403010216 1a056f6e6c6331
    = no content of its type at octet 17;
3044 310e 300c 06072b700403010234 1a012e 310e 300c 06072b700403010235 1a0150
    310e 300c 06072b700403010226 1a0131 3112 3010 06072b700403010216 1a056f6e6c6331
    = no content of its type at octet 17;
3044 310e 300c 06072b700403010234 1a013d 310e 300c 06072b700403010235 1a0150
    310e 300c 06072b700403010226 1a0131 3112 3010 06072b700403010216 1a056f6e6c6331
    = no content of its type at octet 17;
3044 310e 300c 06072b700403010234 1a017f 310e 300c 06072b700403010235 1a0150
    310e 300c 06072b700403010226 1a0131 3112 3010 06072b700403010216 1a056f6e6c6331
    = no content of its type at octet 17;
3000 = no fitting length at octet 2;
308190 9*310e300c06072b7004030102341a0131 = no fitting length at octet 131;";

#[test]
fn attributes_have_their_object_identifiers(rt: HostRuntime) {
    let table = [
        (Attribute::Sagr, 0x34),
        (Attribute::Spack, 0x35),
        (Attribute::RslFg, 0x26),
        (Attribute::FslFg, 0x0e),
        (Attribute::Raf, 0x16),
        (Attribute::Rcf, 0x2e),
        (Attribute::Rocf, 0x31),
        (Attribute::Cltu, 0x07),
    ];
    for (attribute, arc) in table {
        let octets = [0x2b, 0x70, 0x04, 0x03, 0x01, 0x02, arc];
        assert_eq!(rt; attribute.object_id(), octets.as_slice());
        assert_eq!(rt; Attribute::of_object_id(&octets), Some(attribute));
    }
    assert_eq!(rt;
        Attribute::of_object_id(&[0x2b, 0x70, 0x04, 0x03, 0x01, 0x02, 0x33]),
        None
    );
}
