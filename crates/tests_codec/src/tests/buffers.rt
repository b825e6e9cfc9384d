// Transfer buffers of RAF and of RCF (CCSDS 911.1-B and 911.2-B, annex A).

pub const RAF_BUFFER: &str = "
a81e a01c 8000 80084e20000003e80000 810141 0201ff 020100 8000 04030010a1
    = Frame { credentials: Unused, ert: Cds { days: 20000, millis: 1000, rest: Micros(0) },
      antenna: Local([65]), continuity: -1, quality: Some(Good), note: None, octets: [0, 16, 161] };
a81e a01c 8000 80084e20000007d00000 810141 0201ff 020100 8000 04030010a2
    = Frame { credentials: Unused, ert: Cds { days: 20000, millis: 2000, rest: Micros(0) },
      antenna: Local([65]), continuity: -1, quality: Some(Good), note: None, octets: [0, 16, 162] };
a81e a01c 8000 80084e2000000bb80000 810141 020100 020100 8000 04030010a3
    = Frame { credentials: Unused, ert: Cds { days: 20000, millis: 3000, rest: Micros(0) },
      antenna: Local([65]), continuity: 0, quality: Some(Good), note: None, octets: [0, 16, 163] };
a806 a104 8000 8200 = Told { credentials: Unused, notice: Backlog };
a800 = ;
a83c a01c 8000 80084e20000003e80000 810141 0201ff 020100 8000 04030010a1 a01c 8000
    80084e20000007d00000 810141 020100 020100 8000 04030010a2
    = Frame { credentials: Unused, ert: Cds { days: 20000, millis: 1000, rest: Micros(0) },
      antenna: Local([65]), continuity: -1, quality: Some(Good), note: None, octets: [0, 16, 161] }
      Frame { credentials: Unused, ert: Cds { days: 20000, millis: 2000, rest: Micros(0) },
      antenna: Local([65]), continuity: 0, quality: Some(Good), note: None, octets: [0, 16, 162] };
a806 a104 8000 8300 = Told { credentials: Unused, notice: EndOfData };
a824 a104 8000 8200 a01c 8000 80084e20000007d00000 810141 0201ff 020100 8000 04030010a2
    = Told { credentials: Unused, notice: Backlog }
      Frame { credentials: Unused, ert: Cds { days: 20000, millis: 2000, rest: Micros(0) },
      antenna: Local([65]), continuity: -1, quality: Some(Good), note: None, octets: [0, 16, 162] };
a845 a10d 81080102030405060708 810100 a10d 8000 810900ffffffffffffffff a10c 8000
    81088000000000000000 a117 8000 a013 80084e20000000000000 020100 020103 020101
    = Told { credentials: Used([1, 2, 3, 4, 5, 6, 7, 8]), notice: Production(0) }
      Told { credentials: Unused, notice: Production(18446744073709551615) }
      Told { credentials: Unused, notice: Production(-9223372036854775808) }
      Told { credentials: Unused, notice: Loss {
      at: Cds { days: 20000, millis: 0, rest: Micros(0) }, carrier: InLock, subcarrier: Unknown,
      symbol: OutOfLock } };
a83c a03a 81080102030405060708 810affffffffffffffffffff 8110000102030405060708090a0b0c0d0e0f
    020400ffffff 020102 81046e6f7465 0401ff
    = Frame { credentials: Used([1, 2, 3, 4, 5, 6, 7, 8]),
      ert: Cds { days: 65535, millis: 4294967295, rest: Picos(4294967295) }, antenna: Local([0, 1,
      2, 3, 4, 5, 6, 7, 8, 9, 10, 11, 12, 13, 14, 15]), continuity: 16777215, quality:
      Some(Undetermined),
      note: Some([110, 111, 116, 101]), octets: [255] };
a824 a022 8000 80084e20000000000000 80072b700403010216 020100 020101 81016e 04020000
    = Frame { credentials: Unused, ert: Cds { days: 20000, millis: 0, rest: Micros(0) },
      antenna: Global([43, 112, 4, 3, 1, 2, 22]), continuity: 0, quality: Some(Erred),
      note: Some([110]), octets: [0, 0] };
a8819e a0819b 8000 80084e20000000000000 810141 020100 020100 818180 128*6e 040100
    = Frame { credentials: Unused, ert: Cds { days: 20000, millis: 0, rest: Micros(0) },
      antenna: Local([65]), continuity: 0, quality: Some(Good), note: Some([110, 126*110, 110]),
      octets: [0] };
a88201a1 a082019d 81820100 256*07 80084e20000000000000 810141 020100 020100 818180 128*6e 040100
    = Frame { credentials: Used([7, 254*7, 7]),
      ert: Cds { days: 20000, millis: 0, rest: Micros(0) }, antenna: Local([65]), continuity: 0,
      quality: Some(Good), note: Some([110, 126*110, 110]), octets: [0] };
a882010a a1820106 81820100 256*07 8300
    = Told { credentials: Used([7, 254*7, 7]), notice: EndOfData };
a83d a01c 8000 80084e20000003e80000 810141 0201ff 020100 8000 04030010a1 a117 8000 a013
    80084e20000000000000 020100 020103 020101 a104 8000 8300
    = Frame { credentials: Unused, ert: Cds { days: 20000, millis: 1000, rest: Micros(0) },
      antenna: Local([65]), continuity: -1, quality: Some(Good), note: None, octets: [0, 16, 161] }
      Told { credentials: Unused, notice: Loss {
      at: Cds { days: 20000, millis: 0, rest: Micros(0) }, carrier: InLock, subcarrier: Unknown,
      symbol: OutOfLock } }
      Told { credentials: Unused, notice: EndOfData };
a81c a01a 8000 80084e20000000000000 810141 020100 020100 8000 0401 55
    = Frame { credentials: Unused, ert: Cds { days: 20000, millis: 0, rest: Micros(0) },
      antenna: Local([65]), continuity: 0, quality: Some(Good), note: None, octets: [85] };
a883010021 a08301001c 8000 80084e20000000000000 810141 020100 020100 8000
    0483010000 8192*5555555555555555
    = Frame { credentials: Unused, ert: Cds { days: 20000, millis: 0, rest: Micros(0) },
      antenna: Local([65]), continuity: 0, quality: Some(Good), note: None, octets: [85, 65534*85,
      85]
      };
a823 a021 810700000000000000 80084e20000000000000 810141 020100 020100 8000 040100
    = no content of its type at octet 6;
a81c a01a 8200 80084e20000000000000 810141 020100 020100 8000 040100
    = another identifier at octet 4, beginning with 0x82;
a81b a019 8000 800700000000000000 810141 020100 020100 8000 040100
    = no content of its type at octet 8;
a81f a01d 8000 810b0000000000000000000000 810141 020100 020100 8000 040100
    = no content of its type at octet 8;
a81c a01a 8000 82080000000000000000 810141 020100 020100 8000 040100
    = another identifier at octet 6, beginning with 0x82;
a81b a019 8000 80084e20000000000000 8100 020100 020100 8000 040100
    = no content of its type at octet 18;
a82c a02a 8000 80084e20000000000000 81110000000000000000000000000000000000 020100 020100 8000
    040100
    = no content of its type at octet 18;
a81b a019 8000 80084e20000000000000 8000 020100 020100 8000 040100
    = no content of its type at octet 18;
a81c a01a 8000 80084e20000000000000 800180 020100 020100 8000 040100
    = no content of its type at octet 18;
a81b a019 8000 80084e20000000000000 8200 020100 020100 8000 040100
    = another identifier at octet 16, beginning with 0x82;
a81c a01a 8000 80084e20000000000000 810141 0201fe 020100 8000 040100
    = no content of its type at octet 21;
a81f a01d 8000 80084e20000000000000 810141 020401000000 020100 8000 040100
    = no content of its type at octet 21;
a81c a01a 8000 80084e20000000000000 810141 020100 020103 8000 040100
    = no content of its type at octet 24;
a81c a01a 8000 80084e20000000000000 810141 020100 0201ff 8000 040100
    = no content of its type at octet 24;
a819 a017 8000 80084e20000000000000 810141 020100 8000 040100
    = another identifier at octet 22, beginning with 0x80;
a81c a01a 8000 80084e20000000000000 810141 020100 020100 8100 040100
    = no content of its type at octet 27;
a81c a01a 8000 80084e20000000000000 810141 020100 020100 8200 040100
    = another identifier at octet 25, beginning with 0x82;
a81b a019 8000 80084e20000000000000 810141 020100 020100 8000 0400
    = no content of its type at octet 29;
a804 a202 8000 = another identifier at octet 2, beginning with 0xa2;
a806 a104 8000 8400 = another identifier at octet 6, beginning with 0x84;
a80f a10d 8000 8109010000000000000000 = an INTEGER of over 64 bits at octet 8;
a806 a104 8000 8100 = no content of its type at octet 8;
a819 a117 8000 a013 80084e20000000000000 020104 020100 020100 = no content of its type at octet 20;
a819 a117 8000 a013 80084e20000000000000 020100 0201ff 020100 = no content of its type at octet 23;
a819 a117 8000 a013 80084e20000000000000 020100 020100 020104 = no content of its type at octet 26;
a816 a114 8000 a010 80084e20000000000000 020100 020100 = no fitting length at octet 24;
a80c a104 8000 8300 a104 8000 8400 = another identifier at octet 12, beginning with 0x84;
a906 a104 8000 8300 = another identifier at octet 0, beginning with 0xa9;
a8819f a0819c 8000 80084e20000000000000 810141 020100 020100 818181 129*6e 040100
    = no content of its type at octet 30;
a882010b a1820107 81820101 257*07 8300 = no content of its type at octet 12;
a83d a01c 8000 80084e20000003e80000 810141 0201ff 020100 8000 04030010a1 a117 8000 a013
    80084e20000000000000 020100 020103 020101 a104 8000 8300 00
    = no fitting length at octet 63;
a83e a01c 8000 80084e20000003e80000 810141 0201ff 020100 8000 04030010a1 a117 8000 a013
    80084e20000000000000 020100 020103 020101 a104 8000 8300 00
    = another identifier at octet 63, beginning with 0x00;
a883010022 a08301001d 8000 80084e20000000000000 810141 020100 020100 8000
    0483010001 8192*5555555555555555 55
    = no content of its type at octet 38;";

pub const RCF_BUFFER: &str = "
a800 = ;
a81b a019 8000 80084e20000003e80000 810141 0201ff 8000 0403407fa1
    = Frame { credentials: Unused, ert: Cds { days: 20000, millis: 1000, rest: Micros(0) },
      antenna: Local([65]), continuity: -1, quality: None, note: None, octets: [64, 127, 161] };
a830 a028 81080102030405060708 810affffffffffffffffffff 800155 020400ffffff 81046e6f7465 0401ff
    a104 8000 8300
    = Frame { credentials: Used([1, 2, 3, 4, 5, 6, 7, 8]),
      ert: Cds { days: 65535, millis: 4294967295, rest: Picos(4294967295) }, antenna: Global([85]),
      continuity: 16777215, quality: None, note: Some([110, 111, 116, 101]), octets: [255] }
      Told { credentials: Unused, notice: EndOfData };
a81c a01a 8000 80084e20000000000000 810141 020100 020100 8000 040100
    = another identifier at octet 22, beginning with 0x02;
a81c a01a 8000 80084e20000000000000 810141 020401000000 8000 040100
    = no content of its type at octet 21;
a819 a017 8000 80084e20000000000000 810141 0201fe 8000 040100 = no content of its type at octet 21;
a818 a016 8000 80084e20000000000000 810141 020100 8000 0400 = no content of its type at octet 26;
a819 a017 8000 80084e20000000000000 810141 020100 8100 040100
    = no content of its type at octet 24;";
