// Feeders by their calls. The places of faults are counted by hand.
use crate::script::check;
use isp1_tml::{Memory, TmlFault, head};
use std::test::Fail;

#[test]
fn a_header_in_three_pieces_is_one_heartbeat(rt: HostRuntime) -> Result<(), Fail> {
    check(&rt, rt.alloc(), THREE_PIECES)
}

const THREE_PIECES: &str = "
feed 0300 = 2;
next = none;
feed 0000000000 = 5;
next = none;
feed 00 = 1;
next = Heartbeat;";

// The last one has an octet 00 too many before the version.
#[test]
fn a_piece_is_refused_as_a_whole(rt: HostRuntime) -> Result<(), Fail> {
    check(&rt, rt.alloc(), REFUSED)
}

const REFUSED: &str = "
feed 020000000000000b = BadLength { place: 4 };
next = BadLength { place: 4 };
new;
feed 01000100 = NotZero { place: 2 };
next = NotZero { place: 2 };
new;
feed 030000000000000004 = BadType { place: 8 };
next = BadType { place: 8 };
new;
feed 0300000000000100 = BadLength { place: 4 };
next = BadLength { place: 4 };
new;
feed 0100000000100001 = TooLong { length: 1048577 };
next = TooLong { length: 1048577 };
new;
feed 020000000000000c495350310000000001001e0005 = BadContext { place: 15 };
next = BadContext { place: 15 };";

#[test]
fn a_context_and_an_abort_are_given_whole(rt: HostRuntime) -> Result<(), Fail> {
    check(&rt, rt.alloc(), WHOLE)
}

const WHOLE: &str = "
feed 020000000000000c4953503100000001001e0005 = 20;
next = Context { interval: 30, factor: 5 };
feed 01000000000000049f68017f = 12;
next = Pdu([159, 104, 1, 127]);";

#[test]
fn the_first_octet_that_shows_a_fault_is_refused(rt: HostRuntime) -> Result<(), Fail> {
    check(&rt, rt.alloc(), FIRST_OCTET)
}

const FIRST_OCTET: &str = "
each 00 = 0 of 1;
feed = BadType { place: 0 };
next = BadType { place: 0 };
new;
each 04 = 0 of 1;
feed = BadType { place: 0 };
next = BadType { place: 0 };
new;
each 010001 = 2 of 3;
feed = NotZero { place: 2 };
next = NotZero { place: 2 };
new;
each 020000000000000b = 7 of 8;
feed = BadLength { place: 4 };
next = BadLength { place: 4 };
new;
each 0300000000000004 = 7 of 8;
feed = BadLength { place: 4 };
next = BadLength { place: 4 };
new;
each 0100000000100001 = 7 of 8;
feed = TooLong { length: 1048577 };
next = TooLong { length: 1048577 };
new;
each 01000000ffffffff = 7 of 8;
feed = TooLong { length: 4294967295 };
next = TooLong { length: 4294967295 };
new;
each 030000000000000004 = 8 of 9;
feed = BadType { place: 8 };
next = BadType { place: 8 };
new;
each 020000000000000c4953503100000000 = 15 of 16;
feed = BadContext { place: 15 };
next = BadContext { place: 15 };";

#[test]
fn a_refused_feeder_gives_nothing_that_it_held(rt: HostRuntime) -> Result<(), Fail> {
    check(&rt, rt.alloc(), HELD)
}

const HELD: &str = "
feed 03000000000000000100 = 10;
some = true;
feed 000708 = NotZero { place: 11 };
room = 1048574;
some = false;
next = NotZero { place: 11 };";

#[test]
fn the_longest_pdu_fills_the_feeder(rt: HostRuntime) -> Result<(), Fail> {
    assert_eq!(rt; head(3, 0), [3, 0, 0, 0, 0, 0, 0, 0]);
    assert_eq!(rt; head(1, 1_048_576), [1, 0, 0, 0, 0, 16, 0, 0]);
    check(&rt, rt.alloc(), LONGEST)
}

const LONGEST: &str = "
feed 0300000000000000 = 8;
feed 0100000000100000 = 8;
longest = 1048568;
room = 0;
longest = 0;
next = Heartbeat;
next = none;
longest = 8;
room = 0;
next = Pdu of 1048576 octets;
room = 1048584;";

#[test]
fn faults_are_told_in_words(rt: HostRuntime) -> Result<(), Fail> {
    for (fault, words) in [
        (
            TmlFault::BadType { place: 8 },
            "no kind of message at octet 8",
        ),
        (TmlFault::NotZero { place: 2 }, "no zero at octet 2"),
        (
            TmlFault::BadLength { place: 4 },
            "no length of its kind at octet 4",
        ),
        (
            TmlFault::TooLong { length: 1_048_577 },
            "a PDU of 1048577 octets",
        ),
        (
            TmlFault::BadContext { place: 15 },
            "no context of ISP1 at octet 15",
        ),
    ] {
        assert_eq!(rt; format!(in rt.alloc(); "{fault}")?.as_str(), words);
    }
    assert_eq!(rt;
        format!(in rt.alloc(); "{Memory}")?.as_str(),
        "out of memory"
    );
    Ok(())
}
