// STOP and SCHEDULE-STATUS-REPORT, with their returns (CCSDS 911.1-B, annex A).

pub const STOP: &str = "
a205 8000 020100 = Stop { credentials: Unused, invoke: 0 };
a20f 81080102030405060708 020300ffff
    = Stop { credentials: Used([1, 2, 3, 4, 5, 6, 7, 8]), invoke: 65535 };
a2820107 81820100 256*07 020100 = Stop { credentials: Used([7, 254*7, 7]), invoke: 0 };
a205 8000 0201ff = no content of its type at octet 6;
a207 8000 0203010000 = no content of its type at octet 6;
a205 020100 8000 = another identifier at octet 2, beginning with 0x02;
a202 8000 = no fitting length at octet 4;
a207 8000 020100 8000 = no fitting length at octet 7;
a305 8000 020100 = another identifier at octet 0, beginning with 0xa3;
a2820108 81820101 257*07 020100 = no content of its type at octet 8;";

pub const STOP_RETURN: &str = "
a307 8000 020100 8000 = StopReturn { credentials: Unused, invoke: 0, result: Ok(()) };
a312 81080102030405060708 020300ffff 81017f
    = StopReturn { credentials: Used([1, 2, 3, 4, 5, 6, 7, 8]), invoke: 65535, result: Err(127) };
a30f 8000 020100 81088000000000000000
    = StopReturn { credentials: Unused, invoke: 0, result: Err(-9223372036854775808) };
a310 8000 020100 810900ffffffffffffffff
    = StopReturn { credentials: Unused, invoke: 0, result: Err(18446744073709551615) };
a3820109 81820100 256*07 020100 8000
    = StopReturn { credentials: Used([7, 254*7, 7]), invoke: 0, result: Ok(()) };
a310 8000 020100 8109010000000000000000 = an INTEGER of over 64 bits at octet 9;
a310 8000 020100 8109ff7fffffffffffffff = an INTEGER of over 64 bits at octet 9;
a307 8000 020100 8200 = another identifier at octet 7, beginning with 0x82;
a307 8000 020100 8100 = no content of its type at octet 9;
a309 8000 020100 8000 8000 = no fitting length at octet 9;
a382010a 81820101 257*07 020100 8000 = no content of its type at octet 8;";

pub const SCHEDULE: &str = "
a407 8000 020100 8000 = Schedule { credentials: Unused, invoke: 0, report: Now };
a414 81080102030405060708 020300ffff 810300ffff
    = Schedule { credentials: Used([1, 2, 3, 4, 5, 6, 7, 8]), invoke: 65535,
      report: Cycle(65535) };
a408 8000 020100 810100 = Schedule { credentials: Unused, invoke: 0, report: Cycle(0) };
a407 8000 020100 8200 = Schedule { credentials: Unused, invoke: 0, report: Stop };
a4820109 81820100 256*07 020100 8000
    = Schedule { credentials: Used([7, 254*7, 7]), invoke: 0, report: Now };
a40a 8000 020100 8103010000 = no content of its type at octet 9;
a408 8000 020100 8101ff = no content of its type at octet 9;
a407 8000 020100 8300 = another identifier at octet 7, beginning with 0x83;
a405 8000 020100 = no fitting length at octet 7;
a409 8000 020100 8200 8000 = no fitting length at octet 9;
a482010a 81820101 257*07 020100 8000 = no content of its type at octet 8;";

pub const SCHEDULE_RETURN: &str = "
a507 8000 020100 8000 = ScheduleReturn { credentials: Unused, invoke: 0, result: Ok(()) };
a514 81080102030405060708 020300ffff a103 810102
    = ScheduleReturn { credentials: Used([1, 2, 3, 4, 5, 6, 7, 8]), invoke: 65535,
      result: Err(Specific(2)) };
a5820109 81820100 256*07 020100 8000
    = ScheduleReturn { credentials: Used([7, 254*7, 7]), invoke: 0, result: Ok(()) };
a507 8000 020100 8200 = another identifier at octet 7, beginning with 0x82;
a507 8000 0201ff 8000 = no content of its type at octet 6;
a509 8000 020100 a102 8000 = no content of its type at octet 11;
a582010a 81820101 257*07 020100 8000 = no content of its type at octet 8;";
