// START of forward CLTU and its return (CCSDS 912.1-B, annex A).

pub const CLTU_START: &str = "
a008 8000 020100 020100 = CltuStart { credentials: Unused, invoke: 0, first: 0 };
a016 81080102030405060708 020300ffff 020500ffffffff
    = CltuStart { credentials: Used([1, 2, 3, 4, 5, 6, 7, 8]), invoke: 65535, first: 4294967295 };
a082010a 81820100 256*55 020100 020100
    = CltuStart { credentials: Used([85, 254*85, 85]), invoke: 0, first: 0 };
a008 8200 020100 020100 = another identifier at octet 2, beginning with 0x82;
a00f 810701020304050607 020100 020100 = no content of its type at octet 4;
a008 8000 0201ff 020100 = no content of its type at octet 6;
a00a 8000 0203010000 020100 = no content of its type at octet 6;
a008 8000 020100 0201ff = no content of its type at octet 9;
a00c 8000 020100 02050100000000 = no content of its type at octet 9;
a005 8000 020100 = no fitting length at octet 7;
a00a 8000 020100 020100 8000 = no fitting length at octet 10;
a082010b 81820101 257*55 020100 020100 = no content of its type at octet 8;
a200 = another identifier at octet 0, beginning with 0xa2;";

pub const CLTU_START_RETURN: &str = "
a113 8000 020100 a00c 80084e20000000000000 8000
    = CltuStartReturn { credentials: Unused, invoke: 0,
      result: Ok((Cds { days: 20000, millis: 0, rest: Micros(0) }, None)) };
a113 8000 020100 a00c 80080000000000000000 8000
    = CltuStartReturn { credentials: Unused, invoke: 0,
      result: Ok((Cds { days: 0, millis: 0, rest: Micros(0) }, None)) };
a129 81080102030405060708 020300ffff a018 810affffffffffffffffffff a10a 8008ffffffffffffffff
    = CltuStartReturn { credentials: Used([1, 2, 3, 4, 5, 6, 7, 8]), invoke: 65535,
      result: Ok((Cds { days: 65535, millis: 4294967295, rest: Picos(4294967295) },
      Some(Cds { days: 65535, millis: 4294967295, rest: Micros(65535) }))) };
a10a 8000 020100 a103 810100
    = CltuStartReturn { credentials: Unused, invoke: 0, result: Err(Specific(0)) };
a111 8000 020100 a10a 80088000000000000000
    = CltuStartReturn { credentials: Unused, invoke: 0,
      result: Err(Common(-9223372036854775808)) };
a112 8000 020100 a10b 810900ffffffffffffffff
    = CltuStartReturn { credentials: Unused, invoke: 0,
      result: Err(Specific(18446744073709551615)) };
a112 8000 020100 a10b 800900ffffffffffffffff
    = CltuStartReturn { credentials: Unused, invoke: 0,
      result: Err(Common(18446744073709551615)) };
a111 8000 020100 a10a 81088000000000000000
    = CltuStartReturn { credentials: Unused, invoke: 0,
      result: Err(Specific(-9223372036854775808)) };
a1820115 81820100 256*55 020100 a00c 80080000000000000000 8000
    = CltuStartReturn { credentials: Used([85, 254*85, 85]), invoke: 0,
      result: Ok((Cds { days: 0, millis: 0, rest: Micros(0) }, None)) };
a113 8000 0201ff a00c 80080000000000000000 8000 = no content of its type at octet 6;
a115 8000 0203010000 a00c 80080000000000000000 8000 = no content of its type at octet 6;
a107 8000 020100 8200 = another identifier at octet 7, beginning with 0x82;
a10b 8000 020100 a004 8200 8000 = another identifier at octet 9, beginning with 0x82;
a112 8000 020100 a00b 80074e200000000000 8000 = no content of its type at octet 11;
a114 8000 020100 a00d 81094e2000000000000000 8000 = no content of its type at octet 11;
a113 8000 020100 a00c 80080000000000000000 8200
    = another identifier at octet 19, beginning with 0x82;
a115 8000 020100 a00e 80080000000000000000 a102 8200
    = another identifier at octet 21, beginning with 0x82;
a111 8000 020100 a00a 80080000000000000000 = no fitting length at octet 19;
a115 8000 020100 a00e 80080000000000000000 8000 8000 = no fitting length at octet 21;
a10a 8000 020100 a103 820100 = another identifier at octet 9, beginning with 0x82;
a112 8000 020100 a10b 8009ff7fffffffffffffff = an INTEGER of over 64 bits at octet 11;
a112 8000 020100 a10b 8109010000000000000000 = an INTEGER of over 64 bits at octet 11;
a113 8200 020100 a00c 80080000000000000000 8000
    = another identifier at octet 2, beginning with 0x82;
a11a 810701020304050607 020100 a00c 80080000000000000000 8000 = no content of its type at octet 4;
a114 8000 020100 a00d 8009000000000000000000 8000 = no content of its type at octet 11;
a116 8000 020100 a00f 810b0000000000000000000000 8000 = no content of its type at octet 11;
a11c 8000 020100 a015 80080000000000000000 a109 800700000000000000
    = no content of its type at octet 23;
a11e 8000 020100 a017 80080000000000000000 a10b 8009000000000000000000
    = no content of its type at octet 23;
a11e 8000 020100 a017 80080000000000000000 a10b 8109000000000000000000
    = no content of its type at octet 23;
a120 8000 020100 a019 80080000000000000000 a10d 810b0000000000000000000000
    = no content of its type at octet 23;
a112 8000 020100 a10b 8009010000000000000000 = an INTEGER of over 64 bits at octet 11;
a112 8000 020100 a10b 8109ff7fffffffffffffff = an INTEGER of over 64 bits at octet 11;
a115 8000 020100 a00c 80080000000000000000 8000 8000 = no fitting length at octet 21;
a1820116 81820101 257*55 020100 a00c 80080000000000000000 8000 = no content of its type at octet 8;
8100 = another identifier at octet 0, beginning with 0x81;";
