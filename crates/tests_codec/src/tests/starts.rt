// START of RAF and of RCF, and their return (CCSDS 911.1-B and 911.2-B, annex A).

pub const RAF_START: &str = "
a00c 8000 020100 8000 8000 020102
    = RafStart { credentials: Unused, invoke: 0, start: None, stop: None, quality: AllFrames };
a02c 81080102030405060708 020300ffff a10a 80084e20000000000000 a10c 810affffffffffffffffffff 020100
    = RafStart { credentials: Used([1, 2, 3, 4, 5, 6, 7, 8]), invoke: 65535,
      start: Some(Cds { days: 20000, millis: 0, rest: Micros(0) }),
      stop: Some(Cds { days: 65535, millis: 4294967295, rest: Picos(4294967295) }), quality:
      GoodFramesOnly };
a016 8000 020101 a10a 80084e20000003e80000 8000 020101
    = RafStart { credentials: Unused, invoke: 1,
      start: Some(Cds { days: 20000, millis: 1000, rest: Micros(0) }), stop: None, quality:
      ErredFrameOnly };
a016 8000 020100 a10a 80084e20000000000000 8000 020102
    = RafStart { credentials: Unused, invoke: 0,
      start: Some(Cds { days: 20000, millis: 0, rest: Micros(0) }), stop: None, quality: AllFrames
      };
a020 8000 020100 a10a 80084e20000000020000 a10a 80084e20000000010000 020102
    = RafStart { credentials: Unused, invoke: 0,
      start: Some(Cds { days: 20000, millis: 2, rest: Micros(0) }),
      stop: Some(Cds { days: 20000, millis: 1, rest: Micros(0) }), quality: AllFrames };
a082010e 81820100 256*07 020100 8000 8000 020102
    = RafStart { credentials: Used([7, 254*7, 7]), invoke: 0, start: None, stop: None,
      quality: AllFrames };
a013 810700000000000000 020100 8000 8000 020102 = no content of its type at octet 4;
a00c 8200 020100 8000 8000 020102 = another identifier at octet 2, beginning with 0x82;
a00c 8000 0201ff 8000 8000 020102 = no content of its type at octet 6;
a00e 8000 0203010000 8000 8000 020102 = no content of its type at octet 6;
a00c 8000 020100 8200 8000 020102 = another identifier at octet 7, beginning with 0x82;
a015 8000 020100 8000 a109 800700000000000000 020102 = no content of its type at octet 13;
a019 8000 020100 8000 a10d 810b0000000000000000000000 020102 = no content of its type at octet 13;
a00c 8000 020100 8000 8000 020103 = no content of its type at octet 13;
a00c 8000 020100 8000 8000 0201ff = no content of its type at octet 13;
a009 8000 020100 8000 8000 = no fitting length at octet 11;
a00e 8000 020100 8000 8000 020102 8000 = no fitting length at octet 14;
a10c 8000 020100 8000 8000 020102 = another identifier at octet 0, beginning with 0xa1;
a082010f 81820101 257*07 020100 8000 8000 020102 = no content of its type at octet 8;";

pub const RCF_START: &str = "
a01e 8000 020100 a10a 80084e20000000000000 8000 3009 020101 020101 81013f
    = RcfStart { credentials: Unused, invoke: 0,
      start: Some(Cds { days: 20000, millis: 0, rest: Micros(0) }), stop: None, channel: Gvcid {
      spacecraft: 1, version: 1, channel: Virtual(63) } };
a02a 81080102030405060708 020300ffff 8000 a10c 810affffffffffffffffffff 3009 020203ff 020103 8000
    = RcfStart { credentials: Used([1, 2, 3, 4, 5, 6, 7, 8]), invoke: 65535, start: None,
      stop: Some(Cds { days: 65535, millis: 4294967295, rest: Picos(4294967295) }), channel: Gvcid
      { spacecraft: 1023, version: 3, channel: Master } };
a014 8000 020100 8000 8000 3009 020100 020100 810100
    = RcfStart { credentials: Unused, invoke: 0, start: None, stop: None, channel: Gvcid {
      spacecraft: 0, version: 0, channel: Virtual(0) } };
a014 8000 020100 8000 8000 3009 020101 020101 81013e
    = RcfStart { credentials: Unused, invoke: 0, start: None, stop: None, channel: Gvcid {
      spacecraft: 1, version: 1, channel: Virtual(62) } };
a0820116 81820100 256*07 020100 8000 8000 3009 020100 020100 810100
    = RcfStart { credentials: Used([7, 254*7, 7]), invoke: 0, start: None, stop: None,
      channel: Gvcid { spacecraft: 0, version: 0, channel: Virtual(0) } };
a015 8000 020100 8000 8000 300a 02020400 020100 810100 = no content of its type at octet 15;
a014 8000 020100 8000 8000 3009 0201ff 020100 810100 = no content of its type at octet 15;
a014 8000 020100 8000 8000 3009 020100 020104 810100 = no content of its type at octet 18;
a014 8000 020100 8000 8000 3009 020100 020100 810140 = no content of its type at octet 21;
a013 8000 020100 8000 8000 3008 020100 020100 8200
    = another identifier at octet 19, beginning with 0x82;
a011 8000 020100 8000 8000 3006 020100 020100 = no fitting length at octet 19;
a00c 8000 020100 8000 8000 020102 = another identifier at octet 11, beginning with 0x02;
a0820117 81820101 257*07 020100 8000 8000 3009 020100 020100 810100
    = no content of its type at octet 8;";

pub const START_RETURN: &str = "
a107 8000 020100 8000 = StartReturn { credentials: Unused, invoke: 0, result: Ok(()) };
a10a 8000 020100 a103 810104
    = StartReturn { credentials: Unused, invoke: 0, result: Err(Specific(4)) };
a114 81080102030405060708 020300ffff a103 800164
    = StartReturn { credentials: Used([1, 2, 3, 4, 5, 6, 7, 8]), invoke: 65535,
      result: Err(Common(100)) };
a111 8000 020100 a10a 81088000000000000000
    = StartReturn { credentials: Unused, invoke: 0, result: Err(Specific(-9223372036854775808)) };
a112 8000 020100 a10b 800900ffffffffffffffff
    = StartReturn { credentials: Unused, invoke: 0, result: Err(Common(18446744073709551615)) };
a10a 8000 020100 a103 810103
    = StartReturn { credentials: Unused, invoke: 0, result: Err(Specific(3)) };
a10a 8000 020100 a103 810105
    = StartReturn { credentials: Unused, invoke: 0, result: Err(Specific(5)) };
a1820109 81820100 256*07 020100 8000
    = StartReturn { credentials: Used([7, 254*7, 7]), invoke: 0, result: Ok(()) };
a107 8000 020100 8200 = another identifier at octet 7, beginning with 0x82;
a10a 8000 020100 a103 820100 = another identifier at octet 9, beginning with 0x82;
a112 8000 020100 a10b 8109010000000000000000 = an INTEGER of over 64 bits at octet 11;
a112 8000 020100 a10b 8109ff7fffffffffffffff = an INTEGER of over 64 bits at octet 11;
a109 8000 0203010000 8000 = no content of its type at octet 6;
a105 8000 020100 = no fitting length at octet 7;
a109 8000 020100 8000 8000 = no fitting length at octet 9;
a007 8000 020100 8000 = another identifier at octet 0, beginning with 0xa0;
a182010a 81820101 257*07 020100 8000 = no content of its type at octet 8;";
