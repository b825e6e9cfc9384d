// TRANSFER-DATA of forward CLTU and its return (CCSDS 912.1-B, annex A).

pub const CLTU_TRANSFER: &str = "
aa17 8000 020100 020107 8000 8000 020100 020101 0403aa0007
    = CltuTransfer { credentials: Unused, invoke: 0, id: 7, earliest: None, latest: None,
      radiation_delay: 0, wanted: false, octets: [170, 0, 7] };
aa21 8000 020100 020107 8000 a10a 80084e2000000000000a 020100 020101 0403aa0007
    = CltuTransfer { credentials: Unused, invoke: 0, id: 7, earliest: None, latest: Some(Cds {
      days: 20000, millis: 0, rest: Micros(10) }), radiation_delay: 0, wanted: false, octets: [170,
      0, 7] };
aa15 8000 020100 020100 8000 8000 020100 020100 0401aa
    = CltuTransfer { credentials: Unused, invoke: 0, id: 0, earliest: None, latest: None,
      radiation_delay: 0, wanted: true, octets: [170] };
aa40 81080102030405060708 020300ffff 020500ffffffff a10a 80080000000000000000 a10c
    810affffffffffffffffffff 020500ffffffff 020100 0404eb9055aa
    = CltuTransfer { credentials: Used([1, 2, 3, 4, 5, 6, 7, 8]), invoke: 65535, id: 4294967295,
      earliest: Some(Cds { days: 0, millis: 0, rest: Micros(0) }), latest: Some(Cds { days: 65535,
      millis: 4294967295, rest: Picos(4294967295) }), radiation_delay: 4294967295, wanted: true,
      octets: [235, 144, 85, 170] };
aa2b 8000 020100 020100 a10c 810affffffffffffffffffff a10a 80080000000000000000 020100 020101
    0401aa
    = CltuTransfer { credentials: Unused, invoke: 0, id: 0, earliest: Some(Cds { days: 65535,
      millis: 4294967295, rest: Picos(4294967295) }), latest: Some(Cds { days: 0, millis: 0,
      rest: Micros(0) }), radiation_delay: 0, wanted: false, octets: [170] };
aa2b 8000 020100 020100 a10a 8008ffffffffffffffff a10c 810a0001000000023b9ac9ff 020100 020101
    0401aa
    = CltuTransfer { credentials: Unused, invoke: 0, id: 0, earliest: Some(Cds { days: 65535,
      millis: 4294967295, rest: Micros(65535) }), latest: Some(Cds { days: 1, millis: 2,
      rest: Picos(999999999) }), radiation_delay: 0, wanted: false, octets: [170] };
aa820117 81820100 256*55 020100 020100 8000 8000 020100 020101 0401aa
    = CltuTransfer { credentials: Used([85, 254*85, 85]), invoke: 0, id: 0, earliest: None,
      latest: None, radiation_delay: 0, wanted: false, octets: [170] };
aa83010017 8000 020100 020100 8000 8000 020100 020101 0483010000 65536*55
    = CltuTransfer { credentials: Unused, invoke: 0, id: 0, earliest: None, latest: None,
      radiation_delay: 0, wanted: false, octets: [85, 65534*85, 85] };
aa3b 81080102030405060708 02020080 020200ff a10a 80084e20000003e80007 a10c 810a0001000000023b9ac9ff
    020423c34600 020100 0404eb9055aa
    = CltuTransfer { credentials: Used([1, 2, 3, 4, 5, 6, 7, 8]), invoke: 128, id: 255,
      earliest: Some(Cds { days: 20000, millis: 1000, rest: Micros(7) }), latest: Some(Cds {
      days: 1, millis: 2, rest: Picos(999999999) }), radiation_delay: 600000000, wanted: true,
      octets: [235, 144, 85, 170] };
aa15 8200 020100 020100 8000 8000 020100 020101 0401aa
    = another identifier at octet 2, beginning with 0x82;
aa15 8000 0201ff 020100 8000 8000 020100 020101 0401aa = no content of its type at octet 6;
aa17 8000 0203010000 020100 8000 8000 020100 020101 0401aa = no content of its type at octet 6;
aa15 8000 020100 0201ff 8000 8000 020100 020101 0401aa = no content of its type at octet 9;
aa19 8000 020100 02050100000000 8000 8000 020100 020101 0401aa = no content of its type at octet 9;
aa15 8000 020100 020100 8200 8000 020100 020101 0401aa
    = another identifier at octet 10, beginning with 0x82;
aa15 8000 020100 020100 8000 8200 020100 020101 0401aa
    = another identifier at octet 12, beginning with 0x82;
aa15 8000 020100 020100 8000 8000 0201ff 020101 0401aa = no content of its type at octet 16;
aa19 8000 020100 020100 8000 8000 02050100000000 020101 0401aa
    = no content of its type at octet 16;
aa15 8000 020100 020100 8000 8000 020100 0201ff 0401aa = no content of its type at octet 19;
aa15 8000 020100 020100 8000 8000 020100 020102 0401aa = no content of its type at octet 19;
aa14 8000 020100 020100 8000 8000 020100 020101 0400 = no content of its type at octet 22;
aa12 8000 020100 020100 8000 8000 020100 020101 = no fitting length at octet 20;
aa18 8000 020100 020100 8000 8000 020100 020101 0401aa 0401aa = no fitting length at octet 23;
aa1c 810701020304050607 020100 020100 8000 8000 020100 020101 0401aa
    = no content of its type at octet 4;
aa1e 8000 020100 020100 a109 800700000000000000 8000 020100 020101 0401aa
    = no content of its type at octet 14;
aa20 8000 020100 020100 a10b 8009000000000000000000 8000 020100 020101 0401aa
    = no content of its type at octet 14;
aa20 8000 020100 020100 a10b 8109000000000000000000 8000 020100 020101 0401aa
    = no content of its type at octet 14;
aa22 8000 020100 020100 a10d 810b0000000000000000000000 8000 020100 020101 0401aa
    = no content of its type at octet 14;
aa17 8000 020100 020100 a102 8200 8000 020100 020101 0401aa
    = another identifier at octet 12, beginning with 0x82;
aa1e 8000 020100 020100 8000 a109 800700000000000000 020100 020101 0401aa
    = no content of its type at octet 16;
aa20 8000 020100 020100 8000 a10b 8009000000000000000000 020100 020101 0401aa
    = no content of its type at octet 16;
aa20 8000 020100 020100 8000 a10b 8109000000000000000000 020100 020101 0401aa
    = no content of its type at octet 16;
aa22 8000 020100 020100 8000 a10d 810b0000000000000000000000 020100 020101 0401aa
    = no content of its type at octet 16;
aa17 8000 020100 020100 8000 a102 8200 020100 020101 0401aa
    = another identifier at octet 14, beginning with 0x82;
aa820118 81820101 257*55 020100 020100 8000 8000 020100 020101 0401aa
    = no content of its type at octet 8;
aa83010018 8000 020100 020100 8000 8000 020100 020101 0483010001 65537*55
    = no content of its type at octet 28;
aa3b 81080102030405060708 02020080 020200ff a10a 80084e20000003e80007 a10c 810a0001000000023b9ac9ff
    020423c34600 020100 0404eb9055aa 00
    = no fitting length at octet 61;
a800 = another identifier at octet 0, beginning with 0xa8;";

pub const TRANSFER_RETURN: &str = "
ab0e 8000 020100 020108 020203e5 8000
    = TransferReturn { credentials: Unused, invoke: 0, next: 8, free: 997, result: Ok(()) };
ab0e 8000 020100 020109 020203e2 8000
    = TransferReturn { credentials: Unused, invoke: 0, next: 9, free: 994, result: Ok(()) };
ab0e 8000 020100 02010a 020203df 8000
    = TransferReturn { credentials: Unused, invoke: 0, next: 10, free: 991, result: Ok(()) };
ab0e 8000 020100 020106 020203e5 8000
    = TransferReturn { credentials: Unused, invoke: 0, next: 6, free: 997, result: Ok(()) };
ab11 8000 020100 020101 020203e8 a103 810100
    = TransferReturn { credentials: Unused, invoke: 0, next: 1, free: 1000,
      result: Err(Specific(0)) };
ab12 8000 020100 020500ffffffff 020203e5 8000
    = TransferReturn { credentials: Unused, invoke: 0, next: 4294967295, free: 997,
      result: Ok(()) };
ab15 8000 020100 020500ffffffff 020203e5 a103 810102
    = TransferReturn { credentials: Unused, invoke: 0, next: 4294967295, free: 997,
      result: Err(Specific(2)) };
ab11 8000 020100 02010a 020203e8 a103 810100
    = TransferReturn { credentials: Unused, invoke: 0, next: 10, free: 1000,
      result: Err(Specific(0)) };
ab14 8000 020100 020100 02088000000000000000 8000
    = TransferReturn { credentials: Unused, invoke: 0, next: 0, free: -9223372036854775808,
      result: Ok(()) };
ab26 81080102030405060708 020300ffff 020500ffffffff 020900ffffffffffffffff a103 800164
    = TransferReturn { credentials: Used([1, 2, 3, 4, 5, 6, 7, 8]), invoke: 65535,
      next: 4294967295, free: 18446744073709551615, result: Err(Common(100)) };
ab17 8000 020100 020100 020100 a10a 80088000000000000000
    = TransferReturn { credentials: Unused, invoke: 0, next: 0, free: 0,
      result: Err(Common(-9223372036854775808)) };
ab18 8000 020100 020100 020100 a10b 800900ffffffffffffffff
    = TransferReturn { credentials: Unused, invoke: 0, next: 0, free: 0,
      result: Err(Common(18446744073709551615)) };
ab17 8000 020100 020100 020100 a10a 81088000000000000000
    = TransferReturn { credentials: Unused, invoke: 0, next: 0, free: 0,
      result: Err(Specific(-9223372036854775808)) };
ab18 8000 020100 020100 020100 a10b 810900ffffffffffffffff
    = TransferReturn { credentials: Unused, invoke: 0, next: 0, free: 0,
      result: Err(Specific(18446744073709551615)) };
ab82010f 81820100 256*55 020100 020100 020100 8000
    = TransferReturn { credentials: Used([85, 254*85, 85]), invoke: 0, next: 0, free: 0,
      result: Ok(()) };
ab0d 8000 020100 0201ff 020100 8000 = no content of its type at octet 9;
ab11 8000 020100 02050100000000 020100 8000 = no content of its type at octet 9;
ab15 8000 020100 020100 0209ff7fffffffffffffff 8000 = an INTEGER of over 64 bits at octet 12;
ab15 8000 020100 020100 0209010000000000000000 8000 = an INTEGER of over 64 bits at octet 12;
ab0d 8000 020100 020100 020100 8200 = another identifier at octet 13, beginning with 0x82;
ab0b 8000 020100 020100 020100 = no fitting length at octet 13;
ab0d 8200 020100 020100 020100 8000 = another identifier at octet 2, beginning with 0x82;
ab14 810701020304050607 020100 020100 020100 8000 = no content of its type at octet 4;
ab0d 8000 0201ff 020100 020100 8000 = no content of its type at octet 6;
ab0f 8000 0203010000 020100 020100 8000 = no content of its type at octet 6;
ab0f 8000 020100 020100 020100 a102 8200 = another identifier at octet 15, beginning with 0x82;
ab18 8000 020100 020100 020100 a10b 8009ff7fffffffffffffff
    = an INTEGER of over 64 bits at octet 17;
ab18 8000 020100 020100 020100 a10b 8009010000000000000000
    = an INTEGER of over 64 bits at octet 17;
ab18 8000 020100 020100 020100 a10b 8109ff7fffffffffffffff
    = an INTEGER of over 64 bits at octet 17;
ab18 8000 020100 020100 020100 a10b 8109010000000000000000
    = an INTEGER of over 64 bits at octet 17;
ab0f 8000 020100 020100 020100 8000 8000 = no fitting length at octet 15;
ab820110 81820101 257*55 020100 020100 020100 8000 = no content of its type at octet 8;
a900 = another identifier at octet 0, beginning with 0xa9;";
