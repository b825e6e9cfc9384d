// The status reports of RAF, of RCF and of forward CLTU (CCSDS 911.1-B, 911.2-B and 912.1-B, annex
// A).

pub const RAF_REPORT: &str = "
a917 8000 020100 020100 020103 020103 020103 020103 020100
    = RafReport { credentials: Unused, error_free: 0, delivered: 0, frame_sync: 3, symbol: 3,
      subcarrier: 3, carrier: 3, production: 0 };
a91f 81080102030405060708 020101 020102 020103 020104 020105 020106 020107
    = RafReport { credentials: Used([1, 2, 3, 4, 5, 6, 7, 8]), error_free: 1, delivered: 2,
      frame_sync: 3, symbol: 4, subcarrier: 5, carrier: 6, production: 7 };
a94c 8000 020900ffffffffffffffff 02088000000000000000 020900ffffffffffffffff 02088000000000000000
    020900ffffffffffffffff 02088000000000000000 020900ffffffffffffffff
    = RafReport { credentials: Unused, error_free: 18446744073709551615,
      delivered: -9223372036854775808, frame_sync: 18446744073709551615,
      symbol: -9223372036854775808, subcarrier: 18446744073709551615,
      carrier: -9223372036854775808, production: 18446744073709551615 };
a9820119 81820100 256*07 020100 020100 020103 020103 020103 020103 020100
    = RafReport { credentials: Used([7, 254*7, 7]), error_free: 0, delivered: 0, frame_sync: 3,
      symbol: 3, subcarrier: 3, carrier: 3, production: 0 };
a91f 8000 0209010000000000000000 020100 020103 020103 020103 020103 020100
    = an INTEGER of over 64 bits at octet 6;
a91f 8000 020100 020100 020103 020103 020103 020103 0209ff7fffffffffffffff
    = an INTEGER of over 64 bits at octet 24;
a914 8000 020100 020100 020103 020103 020103 020103 = no fitting length at octet 22;
a91a 8000 020100 020100 020103 020103 020103 020103 020100 020100 = no fitting length at octet 25;
a982011a 81820101 257*07 020100 020100 020103 020103 020103 020103 020100
    = no content of its type at octet 8;";

pub const RCF_REPORT: &str = "
a914 8000 020100 020103 020103 020103 020103 020100
    = RcfReport { credentials: Unused, delivered: 0, frame_sync: 3, symbol: 3, subcarrier: 3,
      carrier: 3, production: 0 };
a91c 81080102030405060708 020101 020102 020103 020104 020105 020106
    = RcfReport { credentials: Used([1, 2, 3, 4, 5, 6, 7, 8]), delivered: 1, frame_sync: 2,
      symbol: 3, subcarrier: 4, carrier: 5, production: 6 };
a941 8000 02088000000000000000 020900ffffffffffffffff 02088000000000000000 020900ffffffffffffffff
    02088000000000000000 020900ffffffffffffffff
    = RcfReport { credentials: Unused, delivered: -9223372036854775808,
      frame_sync: 18446744073709551615, symbol: -9223372036854775808,
      subcarrier: 18446744073709551615, carrier: -9223372036854775808,
      production: 18446744073709551615 };
a9820116 81820100 256*07 020100 020103 020103 020103 020103 020100
    = RcfReport { credentials: Used([7, 254*7, 7]), delivered: 0, frame_sync: 3, symbol: 3,
      subcarrier: 3, carrier: 3, production: 0 };
a91c 8000 020100 020103 020103 020103 020103 0209010000000000000000
    = an INTEGER of over 64 bits at octet 21;
a911 8000 020100 020103 020103 020103 020103 = no fitting length at octet 19;
a917 8000 020100 020100 020103 020103 020103 020103 020100 = no fitting length at octet 22;
a9820117 81820101 257*07 020100 020103 020103 020103 020103 020100
    = no content of its type at octet 8;";

pub const CLTU_REPORT: &str = "
ad2b 8000 a112 020107 a10a 80084e20000000000000 020104 8000 020100 020103 020101 020101 020100
    020203e8
    = CltuReport { credentials: Unused, processed: Some((7,
      Some(Cds { days: 20000, millis: 0, rest: Micros(0) }), 4)), ok: None, production: 0,
      uplink: 3, received: 1, taken: 1, radiated: 0, free: 1000 };
ad37 81080102030405060708 a108 020109 8000 020101 a10f 020108 810a0001000000023b9ac9ff 020100
    020101 020102 020103 020104 020105
    = CltuReport { credentials: Used([1, 2, 3, 4, 5, 6, 7, 8]), processed: Some((9, None, 1)),
      ok: Some((8, Cds { days: 1, millis: 2, rest: Picos(999999999) })), production: 0, uplink: 1,
      received: 2, taken: 3, radiated: 4, free: 5 };
ad42 8000 8000 8000 02088000000000000000 02088000000000000000 02088000000000000000
    02088000000000000000 02088000000000000000 02088000000000000000
    = CltuReport { credentials: Unused, processed: None, ok: None,
      production: -9223372036854775808, uplink: -9223372036854775808,
      received: -9223372036854775808, taken: -9223372036854775808, radiated: -9223372036854775808,
      free: -9223372036854775808 };
ad48 8000 8000 8000 020900ffffffffffffffff 020900ffffffffffffffff 020900ffffffffffffffff
    020900ffffffffffffffff 020900ffffffffffffffff 020900ffffffffffffffff
    = CltuReport { credentials: Unused, processed: None, ok: None,
      production: 18446744073709551615, uplink: 18446744073709551615,
      received: 18446744073709551615, taken: 18446744073709551615, radiated: 18446744073709551615,
      free: 18446744073709551615 };
ad3f 8000 a11a 020100 a10a 80080000000000000000 020900ffffffffffffffff a10d 020100
    80080000000000000000 020100 020100 020100 020100 020100 020100
    = CltuReport { credentials: Unused, processed: Some((0,
      Some(Cds { days: 0, millis: 0, rest: Micros(0) }), 18446744073709551615)), ok: Some((0,
      Cds { days: 0, millis: 0, rest: Micros(0) })), production: 0, uplink: 0, received: 0,
      taken: 0, radiated: 0, free: 0 };
ad4a 8000 a11f 020500ffffffff a10c 810affffffffffffffffffff 02088000000000000000 a113
    020500ffffffff 810affffffffffffffffffff 020100 020100 020100 020100 020100 020100
    = CltuReport { credentials: Unused, processed: Some((4294967295,
      Some(Cds { days: 65535, millis: 4294967295, rest: Picos(4294967295) }),
      -9223372036854775808)), ok: Some((4294967295,
      Cds { days: 65535, millis: 4294967295, rest: Picos(4294967295) })), production: 0, uplink: 0,
      received: 0, taken: 0, radiated: 0, free: 0 };
ad82011a 81820100 256*55 8000 8000 020100 020100 020100 020100 020100 020100
    = CltuReport { credentials: Used([85, 254*85, 85]), processed: None, ok: None, production: 0,
      uplink: 0, received: 0, taken: 0, radiated: 0, free: 0 };
ad18 8000 8200 8000 020100 020100 020100 020100 020100 020100
    = another identifier at octet 4, beginning with 0x82;
ad18 8000 8000 8200 020100 020100 020100 020100 020100 020100
    = another identifier at octet 6, beginning with 0x82;
ad20 8000 8000 8000 0209ff7fffffffffffffff 020100 020100 020100 020100 020100
    = an INTEGER of over 64 bits at octet 10;
ad20 8000 8000 8000 0209010000000000000000 020100 020100 020100 020100 020100
    = an INTEGER of over 64 bits at octet 10;
ad20 8000 8000 8000 020100 0209ff7fffffffffffffff 020100 020100 020100 020100
    = an INTEGER of over 64 bits at octet 13;
ad20 8000 8000 8000 020100 0209010000000000000000 020100 020100 020100 020100
    = an INTEGER of over 64 bits at octet 13;
ad20 8000 8000 8000 020100 020100 0209ff7fffffffffffffff 020100 020100 020100
    = an INTEGER of over 64 bits at octet 16;
ad20 8000 8000 8000 020100 020100 0209010000000000000000 020100 020100 020100
    = an INTEGER of over 64 bits at octet 16;
ad20 8000 8000 8000 020100 020100 020100 0209ff7fffffffffffffff 020100 020100
    = an INTEGER of over 64 bits at octet 19;
ad20 8000 8000 8000 020100 020100 020100 0209010000000000000000 020100 020100
    = an INTEGER of over 64 bits at octet 19;
ad20 8000 8000 8000 020100 020100 020100 020100 0209ff7fffffffffffffff 020100
    = an INTEGER of over 64 bits at octet 22;
ad20 8000 8000 8000 020100 020100 020100 020100 0209010000000000000000 020100
    = an INTEGER of over 64 bits at octet 22;
ad20 8000 8000 8000 020100 020100 020100 020100 020100 0209ff7fffffffffffffff
    = an INTEGER of over 64 bits at octet 25;
ad20 8000 8000 8000 020100 020100 020100 020100 020100 0209010000000000000000
    = an INTEGER of over 64 bits at octet 25;
ad15 8000 8000 8000 020100 020100 020100 020100 020100 = no fitting length at octet 23;
ad18 8200 8000 8000 020100 020100 020100 020100 020100 020100
    = another identifier at octet 2, beginning with 0x82;
ad1f 810701020304050607 8000 8000 020100 020100 020100 020100 020100 020100
    = no content of its type at octet 4;
ad20 8000 a108 0201ff 8000 020100 8000 020100 020100 020100 020100 020100 020100
    = no content of its type at octet 8;
ad24 8000 a10c 02050100000000 8000 020100 8000 020100 020100 020100 020100 020100 020100
    = no content of its type at octet 8;
ad20 8000 a108 020100 8200 020100 8000 020100 020100 020100 020100 020100 020100
    = another identifier at octet 9, beginning with 0x82;
ad29 8000 a111 020100 a109 800700000000000000 020100 8000 020100 020100 020100 020100 020100 020100
    = no content of its type at octet 13;
ad2b 8000 a113 020100 a10b 8009000000000000000000 020100 8000 020100 020100 020100 020100 020100
    020100
    = no content of its type at octet 13;
ad2b 8000 a113 020100 a10b 8109000000000000000000 020100 8000 020100 020100 020100 020100 020100
    020100
    = no content of its type at octet 13;
ad2d 8000 a115 020100 a10d 810b0000000000000000000000 020100 8000 020100 020100 020100 020100
    020100 020100
    = no content of its type at octet 13;
ad22 8000 a10a 020100 a102 8200 020100 8000 020100 020100 020100 020100 020100 020100
    = another identifier at octet 11, beginning with 0x82;
ad28 8000 a110 020100 8000 0209ff7fffffffffffffff 8000 020100 020100 020100 020100 020100 020100
    = an INTEGER of over 64 bits at octet 13;
ad28 8000 a110 020100 8000 0209010000000000000000 8000 020100 020100 020100 020100 020100 020100
    = an INTEGER of over 64 bits at octet 13;
ad25 8000 8000 a10d 0201ff 80080000000000000000 020100 020100 020100 020100 020100 020100
    = no content of its type at octet 10;
ad29 8000 8000 a111 02050100000000 80080000000000000000 020100 020100 020100 020100 020100 020100
    = no content of its type at octet 10;
ad24 8000 8000 a10c 020100 800700000000000000 020100 020100 020100 020100 020100 020100
    = no content of its type at octet 13;
ad26 8000 8000 a10e 020100 8009000000000000000000 020100 020100 020100 020100 020100 020100
    = no content of its type at octet 13;
ad26 8000 8000 a10e 020100 8109000000000000000000 020100 020100 020100 020100 020100 020100
    = no content of its type at octet 13;
ad28 8000 8000 a110 020100 810b0000000000000000000000 020100 020100 020100 020100 020100 020100
    = no content of its type at octet 13;
ad1d 8000 8000 a105 020100 8200 020100 020100 020100 020100 020100 020100
    = another identifier at octet 11, beginning with 0x82;
ad1b 8000 8000 a103 020107 020100 020100 020100 020100 020100 020100
    = no fitting length at octet 11;
ad1a 8000 8000 8000 020100 020100 020100 020100 020100 020100 8000 = no fitting length at octet 26;
ad82011b 81820101 257*55 8000 8000 020100 020100 020100 020100 020100 020100
    = no content of its type at octet 8;
ac00 = another identifier at octet 0, beginning with 0xac;";
