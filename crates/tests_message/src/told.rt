// The messages of buffers, in hexadecimal digits.
use buffer_message::{BufferMessage, Signer};
use frame_select::Item;
use isp1_auth::{Hash, RandomNumbers, Secret};
use return_pdu::ReturnKind;
use std::alloc::Global;
use std::process::Abort;
use std::test::Fail;

/// The provider of the signed rows, whose peer has this hash function.
pub fn provider(hash: Hash) -> Secret<'static> {
    Secret {
        name: b"STATION",
        pass: &[1, 2, 3, 4, 5, 6],
        hash,
        credential_age: 60,
    }
}

/// 20000/5000/0.
pub const NOW: u128 = (20_000 * 86_400_000 + 5_000) * 1_000_000_000;

/// Without credentials.
pub fn unsigned(
    rt: &impl Abort,
    alloc: Global,
    service: ReturnKind,
    items: &[Item],
) -> Result<String, Fail> {
    assert!(rt; BufferMessage::fits(items));
    let message = BufferMessage::unsigned(service, items);
    let writer = message.written(alloc)?;
    assert_eq!(rt; writer.octets().len(), message.length());
    Ok(hex::encode(alloc, writer.octets())?)
}

/// With credentials of the numbers of door 1 of a program whose draw is 1.
pub fn signed(
    rt: &impl Abort,
    alloc: Global,
    service: ReturnKind,
    hash: Hash,
    items: &[Item],
) -> Result<String, Fail> {
    let signer = Signer {
        secret: provider(hash),
        moment: NOW,
    };
    assert!(rt; BufferMessage::fits(items));
    let mut numbers = RandomNumbers::new(1, 1);
    let message = BufferMessage::signed(service, items, signer, &mut numbers);
    let writer = message.written(alloc)?;
    assert_eq!(rt; writer.octets().len(), message.length());
    Ok(hex::encode(alloc, writer.octets())?)
}
