// ASYNC-NOTIFY (CCSDS 912.1-B, annex A).

pub const ASYNC: &str = "
ac23 8000 8100 a108 020108 8000 020101 a10d 020107 80084e2000000000000a 020100 020103
    = Async { credentials: Unused, kind: SlduExpired, number: None, processed: Some((8, None, 1)),
      ok: Some((7, Cds { days: 20000, millis: 0, rest: Micros(10) })), production: 0, uplink: 3 };
ac0e 8000 8300 8000 8000 020103 020100
    = Async { credentials: Unused, kind: ProductionHalted, number: None, processed: None, ok: None,
      production: 3, uplink: 0 };
ac0f 8000 860100 8000 8000 020100 020103
    = Async { credentials: Unused, kind: ActionListCompleted, number: Some(0), processed: None,
      ok: None, production: 0, uplink: 3 };
ac0f 8000 880100 8000 8000 020101 020103
    = Async { credentials: Unused, kind: EventConditionEvFalse, number: Some(0), processed: None,
      ok: None, production: 1, uplink: 3 };
ac0e 8000 8000 8000 8000 020100 020100
    = Async { credentials: Unused, kind: CltuRadiated, number: None, processed: None, ok: None,
      production: 0, uplink: 0 };
ac0e 8000 8200 8000 8000 020100 020100
    = Async { credentials: Unused, kind: ProductionInterrupted, number: None, processed: None,
      ok: None, production: 0, uplink: 0 };
ac0e 8000 8400 8000 8000 020100 020100
    = Async { credentials: Unused, kind: ProductionOperational, number: None, processed: None,
      ok: None, production: 0, uplink: 0 };
ac0e 8000 8500 8000 8000 020100 020100
    = Async { credentials: Unused, kind: BufferEmpty, number: None, processed: None, ok: None,
      production: 0, uplink: 0 };
ac13 8000 870500ffffffff 8000 8000 020100 020100
    = Async { credentials: Unused, kind: ActionListNotCompleted, number: Some(4294967295),
      processed: None, ok: None, production: 0, uplink: 0 };
ac56 81080102030405060708 8000 a11f 020500ffffffff a10c 810affffffffffffffffffff
    02088000000000000000 a113 020500ffffffff 810affffffffffffffffffff 02088000000000000000
    02088000000000000000
    = Async { credentials: Used([1, 2, 3, 4, 5, 6, 7, 8]), kind: CltuRadiated, number: None,
      processed: Some((4294967295, Some(Cds { days: 65535, millis: 4294967295,
      rest: Picos(4294967295) }), -9223372036854775808)), ok: Some((4294967295, Cds { days: 65535,
      millis: 4294967295, rest: Picos(4294967295) })), production: -9223372036854775808,
      uplink: -9223372036854775808 };
ac45 8000 8000 a11a 020100 a10a 80080000000000000000 020900ffffffffffffffff a10d 020100
    80080000000000000000 020900ffffffffffffffff 020900ffffffffffffffff
    = Async { credentials: Unused, kind: CltuRadiated, number: None, processed: Some((0, Some(Cds {
      days: 0, millis: 0, rest: Micros(0) }), 18446744073709551615)), ok: Some((0, Cds { days: 0,
      millis: 0, rest: Micros(0) })), production: 18446744073709551615, uplink: 18446744073709551615
      };
ac13 8000 860500ffffffff 8000 8000 020100 020100
    = Async { credentials: Unused, kind: ActionListCompleted, number: Some(4294967295),
      processed: None, ok: None, production: 0, uplink: 0 };
ac0f 8000 870100 8000 8000 020100 020100
    = Async { credentials: Unused, kind: ActionListNotCompleted, number: Some(0), processed: None,
      ok: None, production: 0, uplink: 0 };
ac13 8000 880500ffffffff 8000 8000 020100 020100
    = Async { credentials: Unused, kind: EventConditionEvFalse, number: Some(4294967295),
      processed: None, ok: None, production: 0, uplink: 0 };
ac820110 81820100 256*55 8000 8000 8000 020100 020100
    = Async { credentials: Used([85, 254*85, 85]), kind: CltuRadiated, number: None,
      processed: None, ok: None, production: 0, uplink: 0 };
ac0e 8000 8900 8000 8000 020100 020100 = another identifier at octet 4, beginning with 0x89;
ac0e 8000 0400 8000 8000 020100 020100 = another identifier at octet 4, beginning with 0x04;
ac0f 8000 850100 8000 8000 020100 020100 = no content of its type at octet 6;
ac0f 8000 8601ff 8000 8000 020100 020100 = no content of its type at octet 6;
ac13 8000 86050100000000 8000 8000 020100 020100 = no content of its type at octet 6;
ac13 8000 87050100000000 8000 8000 020100 020100 = no content of its type at octet 6;
ac13 8000 88050100000000 8000 8000 020100 020100 = no content of its type at octet 6;
ac0e 8000 8800 8000 8000 020100 020100 = no content of its type at octet 6;
ac0e 8000 8000 8200 8000 020100 020100 = another identifier at octet 6, beginning with 0x82;
ac16 8000 8000 a108 0201ff 8000 020100 8000 020100 020100 = no content of its type at octet 10;
ac1a 8000 8000 a10c 02050100000000 8000 020100 8000 020100 020100
    = no content of its type at octet 10;
ac16 8000 8000 a108 020100 8200 020100 8000 020100 020100
    = another identifier at octet 11, beginning with 0x82;
ac1e 8000 8000 a110 020100 8000 0209010000000000000000 8000 020100 020100
    = an INTEGER of over 64 bits at octet 15;
ac1e 8000 8000 a110 020100 8000 0209ff7fffffffffffffff 8000 020100 020100
    = an INTEGER of over 64 bits at octet 15;
ac0e 8000 8000 8000 8200 020100 020100 = another identifier at octet 8, beginning with 0x82;
ac1b 8000 8000 8000 a10d 0201ff 80080000000000000000 020100 020100
    = no content of its type at octet 12;
ac1f 8000 8000 8000 a111 02050100000000 80080000000000000000 020100 020100
    = no content of its type at octet 12;
ac11 8000 8000 8000 a103 020107 020100 020100 = no fitting length at octet 13;
ac13 8000 8000 8000 a105 020107 8200 020100 020100
    = another identifier at octet 13, beginning with 0x82;
ac16 8000 8000 8000 8000 0209ff7fffffffffffffff 020100 = an INTEGER of over 64 bits at octet 12;
ac16 8000 8000 8000 8000 0209010000000000000000 020100 = an INTEGER of over 64 bits at octet 12;
ac16 8000 8000 8000 8000 020100 0209ff7fffffffffffffff = an INTEGER of over 64 bits at octet 15;
ac16 8000 8000 8000 8000 020100 0209010000000000000000 = an INTEGER of over 64 bits at octet 15;
ac10 8000 8000 8000 8000 020100 020100 8000 = no fitting length at octet 16;
ac0e 8200 8000 8000 8000 020100 020100 = another identifier at octet 2, beginning with 0x82;
ac15 810701020304050607 8000 8000 8000 020100 020100 = no content of its type at octet 4;
ac0f 8000 800100 8000 8000 020100 020100 = no content of its type at octet 6;
ac0f 8000 810100 8000 8000 020100 020100 = no content of its type at octet 6;
ac0f 8000 820100 8000 8000 020100 020100 = no content of its type at octet 6;
ac0f 8000 830100 8000 8000 020100 020100 = no content of its type at octet 6;
ac0f 8000 840100 8000 8000 020100 020100 = no content of its type at octet 6;
ac0e 8000 8600 8000 8000 020100 020100 = no content of its type at octet 6;
ac0e 8000 8700 8000 8000 020100 020100 = no content of its type at octet 6;
ac0f 8000 8701ff 8000 8000 020100 020100 = no content of its type at octet 6;
ac0f 8000 8801ff 8000 8000 020100 020100 = no content of its type at octet 6;
ac1f 8000 8000 a111 020100 a109 800700000000000000 020100 8000 020100 020100
    = no content of its type at octet 15;
ac21 8000 8000 a113 020100 a10b 8009000000000000000000 020100 8000 020100 020100
    = no content of its type at octet 15;
ac21 8000 8000 a113 020100 a10b 8109000000000000000000 020100 8000 020100 020100
    = no content of its type at octet 15;
ac23 8000 8000 a115 020100 a10d 810b0000000000000000000000 020100 8000 020100 020100
    = no content of its type at octet 15;
ac18 8000 8000 a10a 020100 a102 8200 020100 8000 020100 020100
    = another identifier at octet 13, beginning with 0x82;
ac1a 8000 8000 8000 a10c 020100 800700000000000000 020100 020100
    = no content of its type at octet 15;
ac1c 8000 8000 8000 a10e 020100 8009000000000000000000 020100 020100
    = no content of its type at octet 15;
ac1c 8000 8000 8000 a10e 020100 8109000000000000000000 020100 020100
    = no content of its type at octet 15;
ac1e 8000 8000 8000 a110 020100 810b0000000000000000000000 020100 020100
    = no content of its type at octet 15;
ac0b 8000 8000 8000 8000 020100 = no fitting length at octet 13;
ac820111 81820101 257*55 8000 8000 8000 020100 020100 = no content of its type at octet 8;
ad00 = another identifier at octet 0, beginning with 0xad;";
