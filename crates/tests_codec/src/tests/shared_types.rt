// The types that the PDUs of all services share (CCSDS 911.1-B, annex A). The octets were made by
// pyasn1 0.6.3 (a BER encoder in Python) from the values beside them; those of faults were changed
// by hand, and their places counted by hand.

// The first values with an identifier and a length that fit are those that `openssl asn1parse
// -inform DER` prints for these octets, and those of the fewest octets were made with Python too:
// `n.to_bytes(k, "big", signed=True)` at the least `k` that takes `n`.
pub const NUMBER: &str = "
020100 = 0;
0201ff = -1;
02017f = 127;
02020080 = 128;
020180 = -128;
0202ff7f = -129;
020203e5 = 997;
0203010001 = 65537;
020500ffffffff = 4294967295;
02088000000000000000 = -9223372036854775808;
020900ffffffffffffffff = 18446744073709551615;
020105 = 5;
02810105 = 5 spelled otherwise;
028400000002012c = 300 spelled otherwise;
02820001ff = -1 spelled otherwise;
0288000000000000000107 = 7 spelled otherwise;
0500 = another identifier at octet 0, beginning with 0x05;
= cut inside the element at octet 0;
02 = cut inside the element at octet 0;
0203 = cut inside the element at octet 0;
0280 = no fitting length at octet 1;
028900000000000000000105 = no fitting length at octet 1;
02ff = no fitting length at octet 1;
0200 = no content of its type at octet 2;
02020001 = no content of its type at octet 2;
0209010000000000000000 = an INTEGER of over 64 bits at octet 2;
020a00000000000000000001 = no content of its type at octet 2;
020105 00 = no fitting length at octet 3;";

pub const INVOKE_ID: &str = "
020100 = 0;
020300ffff = 65535;
0201ff = no content of its type at octet 2;
0203010000 = no content of its type at octet 2;";

// Those of 38 and 201 octets have the lengths of the examples of X.690 8.1.3.4 and 8.1.3.5.
pub const CREDENTIALS: &str = "
8000 = Unused;
81080001020304050607 = Used([0, 1, 2, 3, 4, 5, 6, 7]);
8126 38*00 = Used([0, 36*0, 0]);
8181c9 201*00 = Used([0, 199*0, 0]);
81820100 256*00 = Used([0, 254*0, 0]);
81820101 257*00 = no content of its type at octet 4;
810700010203040506 = no content of its type at octet 2;
800100 = no content of its type at octet 2;
8200 = another identifier at octet 0, beginning with 0x82;";

pub const TIME: &str = "
80084e20000003e80000 = Cds { days: 20000, millis: 1000, rest: Micros(0) };
810a4e20000003e83b9ac9ff = Cds { days: 20000, millis: 1000, rest: Picos(999999999) };
800700000000000000 = no content of its type at octet 2;
8109000000000000000000 = no content of its type at octet 2;
a200 = another identifier at octet 0, beginning with 0xa2;";

pub const CONDITIONAL_TIME: &str = "
8000 = None;
a10a 80084e20000003e80000 = Some(Cds { days: 20000, millis: 1000, rest: Micros(0) });
a10c 810a4e20000003e83b9ac9ff = Some(Cds { days: 20000, millis: 1000, rest: Picos(999999999) });
a200 = another identifier at octet 0, beginning with 0xa2;
a102 8008 = no fitting length at octet 3;";

pub const CHANNEL: &str = "
3008 020100 020100 8000 = Gvcid { spacecraft: 0, version: 0, channel: Master };
300a 020203ff 020103 81013f = Gvcid { spacecraft: 1023, version: 3, channel: Virtual(63) };
300a 020201f4 020101 810100 = Gvcid { spacecraft: 500, version: 1, channel: Virtual(0) };
3009 02020400 020100 8000 = no content of its type at octet 4;
3008 020100 020104 8000 = no content of its type at octet 7;
3009 020100 020100 810140 = no content of its type at octet 10;
3008 020100 020100 8200 = another identifier at octet 8, beginning with 0x82;
3006 020100 020100 = no fitting length at octet 8;";

pub const ANTENNA_ID: &str = "
80052b70040700 = Global([43, 112, 4, 7, 0]);
810141 = Local([65]);
811030313233343536373839616263646566
    = Local([48, 49, 50, 51, 52, 53, 54, 55, 56, 57, 97, 98, 99, 100, 101, 102]);
81113031323334353637383961626364656667 = no content of its type at octet 2;
8100 = no content of its type at octet 2;
80028880 = no content of its type at octet 2;
8200 = another identifier at octet 0, beginning with 0x82;";

pub const ANNOTATION: &str = "
8000 = None;
81016e = Some([110]);
818180 128*6e = Some([110, 126*110, 110]);
818181 129*6e = no content of its type at octet 3;
8100 = no content of its type at octet 2;
8200 = another identifier at octet 0, beginning with 0x82;";

pub const DIAGNOSTIC: &str = "
800164 = Common(100);
80017f = Common(127);
810105 = Specific(5);
800900ffffffffffffffff = Common(18446744073709551615);
8109010000000000000000 = an INTEGER of over 64 bits at octet 2;
830100 = another identifier at octet 0, beginning with 0x83;";

pub const REPORT_KIND: &str = "
8000 = Now;
810100 = Cycle(0);
81011e = Cycle(30);
810300ffff = Cycle(65535);
8200 = Stop;
8103010000 = no content of its type at octet 2;
830100 = another identifier at octet 0, beginning with 0x83;";

pub const PARAMETER: &str = "
a006 020104 02010a = BufferSize(10);
a106 020106 020102 = Mode(2);
a206 02010f 80013c = Latency(Some(60));
a205 02010f 8100 = Latency(None);
a305 02011a 8000 = Cycle(None);
a307 02011a 81020e10 = Cycle(Some(3600));
a406 02011b 020102 = Quality(2);
a405 02011c 8000 = Channel(None);
a40f 02011c a10a 020201f4 020101 810107
    = Channel(Some(Gvcid { spacecraft: 500, version: 1, channel: Virtual(7) }));
a40e 02011c a109 020201f4 020101 8000
    = Channel(Some(Gvcid { spacecraft: 500, version: 1, channel: Master }));
a507 02011d 02020258 = Timeout(600);
a006 020105 02010a = no content of its type at octet 4;
a406 02011a 020102 = no content of its type at octet 4;
a405 02011b 8000 = another identifier at octet 5, beginning with 0x80;
a406 02011c 020102 = another identifier at octet 5, beginning with 0x02;
a606 020104 02010a = another identifier at octet 0, beginning with 0xa6;";
