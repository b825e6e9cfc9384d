// THROW-EVENT and its return (CCSDS 912.1-B, annex A).

pub const THROW: &str = "
a80d 8000 020100 020100 020100 0400
    = Throw { credentials: Unused, invoke: 0, number: 0, event: 0, qualifier: [] };
a820 81080102030405060708 020300ffff 020500ffffffff 020300ffff 0403c0ffee
    = Throw { credentials: Used([1, 2, 3, 4, 5, 6, 7, 8]), invoke: 65535, number: 4294967295,
      event: 65535, qualifier: [192, 255, 238] };
a882010f 81820100 256*55 020100 020100 020100 0400
    = Throw { credentials: Used([85, 254*85, 85]), invoke: 0, number: 0, event: 0, qualifier: [] };
a882040f 8000 020100 020100 020100 04820400 1024*55
    = Throw { credentials: Unused, invoke: 0, number: 0, event: 0, qualifier: [85, 1022*85, 85] };
a80d 8000 020100 0201ff 020100 0400 = no content of its type at octet 9;
a811 8000 020100 02050100000000 020100 0400 = no content of its type at octet 9;
a80d 8000 020100 020100 0201ff 0400 = no content of its type at octet 12;
a80f 8000 020100 020100 0203010000 0400 = no content of its type at octet 12;
a80d 8000 020100 020100 020100 0500 = another identifier at octet 13, beginning with 0x05;
a80b 8000 020100 020100 020100 = no fitting length at octet 13;
a80d 8200 020100 020100 020100 0400 = another identifier at octet 2, beginning with 0x82;
a814 810701020304050607 020100 020100 020100 0400 = no content of its type at octet 4;
a80d 8000 0201ff 020100 020100 0400 = no content of its type at octet 6;
a80f 8000 0203010000 020100 020100 0400 = no content of its type at octet 6;
a80f 8000 020100 020100 020100 0400 8000 = no fitting length at octet 15;
a8820110 81820101 257*55 020100 020100 020100 0400 = no content of its type at octet 8;
a8820410 8000 020100 020100 020100 04820401 1025*55 = no content of its type at octet 19;
aa00 = another identifier at octet 0, beginning with 0xaa;";

pub const THROW_RETURN: &str = "
a90a 8000 020100 020100 8000
    = ThrowReturn { credentials: Unused, invoke: 0, number: 0, result: Ok(()) };
a90d 8000 020100 020100 a103 810101
    = ThrowReturn { credentials: Unused, invoke: 0, number: 0, result: Err(Specific(1)) };
a91b 81080102030405060708 020300ffff 020500ffffffff a103 80017f
    = ThrowReturn { credentials: Used([1, 2, 3, 4, 5, 6, 7, 8]), invoke: 65535, number: 4294967295,
      result: Err(Common(127)) };
a914 8000 020100 020100 a10a 80088000000000000000
    = ThrowReturn { credentials: Unused, invoke: 0, number: 0,
      result: Err(Common(-9223372036854775808)) };
a915 8000 020100 020100 a10b 800900ffffffffffffffff
    = ThrowReturn { credentials: Unused, invoke: 0, number: 0,
      result: Err(Common(18446744073709551615)) };
a914 8000 020100 020100 a10a 81088000000000000000
    = ThrowReturn { credentials: Unused, invoke: 0, number: 0,
      result: Err(Specific(-9223372036854775808)) };
a915 8000 020100 020100 a10b 810900ffffffffffffffff
    = ThrowReturn { credentials: Unused, invoke: 0, number: 0,
      result: Err(Specific(18446744073709551615)) };
a982010c 81820100 256*55 020100 020100 8000
    = ThrowReturn { credentials: Used([85, 254*85, 85]), invoke: 0, number: 0, result: Ok(()) };
a90a 8000 020100 0201ff 8000 = no content of its type at octet 9;
a90e 8000 020100 02050100000000 8000 = no content of its type at octet 9;
a90a 8000 020100 020100 8200 = another identifier at octet 10, beginning with 0x82;
a90a 8000 020100 020100 0400 = another identifier at octet 10, beginning with 0x04;
a90c 8000 020100 020100 8000 8000 = no fitting length at octet 12;
a90a 8200 020100 020100 8000 = another identifier at octet 2, beginning with 0x82;
a911 810701020304050607 020100 020100 8000 = no content of its type at octet 4;
a90a 8000 0201ff 020100 8000 = no content of its type at octet 6;
a90c 8000 0203010000 020100 8000 = no content of its type at octet 6;
a90c 8000 020100 020100 a102 8200 = another identifier at octet 12, beginning with 0x82;
a915 8000 020100 020100 a10b 8009ff7fffffffffffffff = an INTEGER of over 64 bits at octet 14;
a915 8000 020100 020100 a10b 8009010000000000000000 = an INTEGER of over 64 bits at octet 14;
a915 8000 020100 020100 a10b 8109ff7fffffffffffffff = an INTEGER of over 64 bits at octet 14;
a915 8000 020100 020100 a10b 8109010000000000000000 = an INTEGER of over 64 bits at octet 14;
a908 8000 020100 020100 = no fitting length at octet 10;
a982010d 81820101 257*55 020100 020100 8000 = no content of its type at octet 8;
ab00 = another identifier at octet 0, beginning with 0xab;";
