// A block's writer, whose room is known when it is compiled (X.690).
use ber_core::{BlockWriter, element_length};

#[test]
#[tactic(auto, unfolding(ber_core::specs::Spelling::canonical, ber_core::specs::Spelling::element))]
fn a_block_holds_what_is_appended(rt: HostRuntime) {
    let mut writer = BlockWriter::<8>::new();
    assert!(rt; element_length(&[4], 2) <= writer.room());
    writer.octet_string(&[4], b"ab");
    assert!(rt; element_length(&[0x80], 0) <= writer.room());
    writer.null(&[0x80]);
    assert_eq!(rt; writer.octets(), [4, 2, 0x61, 0x62, 0x80, 0].as_slice());
    assert_eq!(rt; writer.room(), 2);
}
