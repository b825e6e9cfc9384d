// Messages of octets that came whole. Places are counted by hand.
use isp1_tml::{Message, Messages, TmlFault};

#[test]
fn whole_messages_are_lent_and_a_part_is_left(rt: HostRuntime) {
    let octets = *b"\x02\0\0\0\0\0\0\x0cISP1\0\0\0\x01\0\x1e\0\x05\
\x01\0\0\0\0\0\0\x02\x30\0\x03\0\0";
    let mut messages = Messages::new(&octets, 0);
    for given in [
        Some(Message::Context {
            interval: 30,
            factor: 5,
        }),
        Some(Message::Pdu(&[0x30, 0])),
        None,
        None,
    ] {
        assert_eq!(rt; messages.next_message(), Ok(given));
    }
    assert_eq!(rt;
        (messages.place(), messages.left()),
        (30, [3, 0, 0].as_slice())
    );
}

#[test]
fn a_fault_comes_behind_two_messages(rt: HostRuntime) {
    let octets = *b"\x03\0\0\0\0\0\0\0\x01\0\0\0\0\0\0\x01\x80\x01\0\x07";
    let mut messages = Messages::new(&octets, 1_000);
    let refused = Err(TmlFault::NotZero { place: 1_019 });
    for answer in [
        Ok(Some(Message::Heartbeat)),
        Ok(Some(Message::Pdu(&[0x80]))),
        refused,
        refused,
    ] {
        assert_eq!(rt; messages.next_message(), answer);
    }
    assert_eq!(rt;
        (messages.place(), messages.left()),
        (1_017, [1, 0, 7].as_slice())
    );
}
