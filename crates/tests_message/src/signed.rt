// Signed buffers. Their octets were put together by a program of another language, with its own
// SHA-1 and SHA-256, from CCSDS 911.1-B and 913.1-B, X.690 and the rule for the numbers.
use crate::items::frame;
use crate::told::{NOW, provider, signed};
use buffer_message::{BufferMessage, Signer};
use frame_select::Item;
use isp1_auth::{Hash, RandomNumbers};
use return_pdu::ReturnKind;
use std::test::Fail;

// Two frames and a backlog, by SHA-1: the numbers are 59559187, 1495354192 and 671064393.
const BY_SHA_1: &str = "01000000000000bda881baa0448128302604084e200000138800000204038ccd13041494\
    4e9aa943c851a7fe074f23a4ba28231d053b2680084e20000003e800008101410201ff020100800004030010a1a0\
    448128302604084e20000013880000020459214b5004146053ac1c6a32f6b3ae9ddceba7203a0628f7e2c480084e\
    20000007d00000810141020100020100800004030010a2a12c8128302604084e20000013880000020427ffa14904\
    14a8a1497cf6b451542a5123d3289accf48b4f2d018200";

// A frame of RCF, by SHA-256.
const BY_SHA_256: &str = "0100000000000051a84fa04d8134303204084e200000138800000204038ccd1304201f\
    34c244d30aeae454895652ed23d18b16358c4bbfc4b97a56b77958d8f164fb80084e20000003e800008101410201\
    ff80000403407fa1";

#[test]
fn each_item_has_credentials_of_its_own(rt: HostRuntime) -> Result<(), Fail> {
    let alloc = rt.alloc();
    let items = [
        frame(alloc, 1_000, -1, &[0, 0x10, 0xa1])?,
        frame(alloc, 2_000, 0, &[0, 0x10, 0xa2])?,
        Item::Backlog,
    ];
    let told = signed(&rt, alloc, ReturnKind::Raf, Hash::Sha1, &items)?;
    assert_eq!(rt; told.as_str(), BY_SHA_1);
    let items = [frame(alloc, 1_000, -1, &[0x40, 0x7f, 0xa1])?];
    let told = signed(&rt, alloc, ReturnKind::Rcf, Hash::Sha256, &items)?;
    assert_eq!(rt; told.as_str(), BY_SHA_256);
    Ok(())
}

// Each draw is one of the session's: what is drawn next is the number behind the last item's.
#[test]
fn numbers_go_on_behind_a_buffer(rt: HostRuntime) -> Result<(), Fail> {
    let mut numbers = RandomNumbers::new(1, 1);
    let signer = Signer {
        secret: provider(Hash::Sha1),
        moment: NOW,
    };
    let items = [Item::Backlog, Item::EndOfData];
    assert!(rt; BufferMessage::fits(&items));
    BufferMessage::signed(ReturnKind::Raf, &items, signer, &mut numbers);
    assert!(rt; BufferMessage::fits(&[]));
    BufferMessage::signed(ReturnKind::Raf, &[], signer, &mut numbers);
    assert_eq!(rt; numbers.next_number(), 671_064_393);
    Ok(())
}
