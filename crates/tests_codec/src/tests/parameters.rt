// GET-PARAMETER and its return (CCSDS 911.1-B, annex A).

pub const GET_PARAMETER: &str = "
a608 8000 020100 020104 = GetParameter { credentials: Unused, invoke: 0, name: 4 };
a614 81080102030405060708 020300ffff 020300ffff
    = GetParameter { credentials: Used([1, 2, 3, 4, 5, 6, 7, 8]), invoke: 65535, name: 65535 };
a608 8000 020100 020100 = GetParameter { credentials: Unused, invoke: 0, name: 0 };
a608 8000 020100 020109 = GetParameter { credentials: Unused, invoke: 0, name: 9 };
a682010a 81820100 256*07 020100 020104
    = GetParameter { credentials: Used([7, 254*7, 7]), invoke: 0, name: 4 };
a60a 8000 020100 0203010000 = no content of its type at octet 9;
a608 8000 020100 0201ff = no content of its type at octet 9;
a607 8000 020100 8000 = another identifier at octet 7, beginning with 0x80;
a60b 8000 020100 020104 020104 = no fitting length at octet 10;
a682010b 81820101 257*07 020100 020104 = no content of its type at octet 8;";

pub const PARAMETER_RETURN: &str = "
a70f 8000 020100 a008 a006 020104 02010a
    = ParameterReturn { credentials: Unused, invoke: 0, result: Ok(BufferSize(10)) };
a719 81080102030405060708 020300ffff a008 a106 020106 020102
    = ParameterReturn { credentials: Used([1, 2, 3, 4, 5, 6, 7, 8]), invoke: 65535,
      result: Ok(Mode(2)) };
a70f 8000 020100 a008 a206 02010f 800105
    = ParameterReturn { credentials: Unused, invoke: 0, result: Ok(Latency(Some(5))) };
a70e 8000 020100 a007 a205 02010f 8100
    = ParameterReturn { credentials: Unused, invoke: 0, result: Ok(Latency(None)) };
a70e 8000 020100 a007 a305 02011a 8000
    = ParameterReturn { credentials: Unused, invoke: 0, result: Ok(Cycle(None)) };
a70f 8000 020100 a008 a306 02011a 81013c
    = ParameterReturn { credentials: Unused, invoke: 0, result: Ok(Cycle(Some(60))) };
a717 8000 020100 a010 a40e 02011b 020900ffffffffffffffff
    = ParameterReturn { credentials: Unused, invoke: 0,
      result: Ok(Quality(18446744073709551615)) };
a70e 8000 020100 a007 a405 02011c 8000
    = ParameterReturn { credentials: Unused, invoke: 0, result: Ok(Channel(None)) };
a716 8000 020100 a00f a50d 02011d 02088000000000000000
    = ParameterReturn { credentials: Unused, invoke: 0,
      result: Ok(Timeout(-9223372036854775808)) };
a70a 8000 020100 a103 810100
    = ParameterReturn { credentials: Unused, invoke: 0, result: Err(Specific(0)) };
a717 8000 020100 a010 a40e 02011c a109 020101 020101 81013f
    = ParameterReturn { credentials: Unused, invoke: 0, result: Ok(Channel(Some(Gvcid {
      spacecraft: 1, version: 1, channel: Virtual(63) }))) };
a717 8000 020100 a010 a40e 02011c a109 020203ff 020103 8000
    = ParameterReturn { credentials: Unused, invoke: 0, result: Ok(Channel(Some(Gvcid {
      spacecraft: 1023, version: 3, channel: Master }))) };
a782010c 81820100 256*07 020100 a103 810100
    = ParameterReturn { credentials: Used([7, 254*7, 7]), invoke: 0, result: Err(Specific(0)) };
a70f 8000 020100 a008 a006 020105 02010a = no content of its type at octet 13;
a70f 8000 020100 a008 a606 020104 02010a = another identifier at octet 9, beginning with 0xa6;
a70a 8000 020100 a003 02010a = another identifier at octet 9, beginning with 0x02;
a707 8000 020100 8200 = another identifier at octet 7, beginning with 0x82;
a717 8000 020100 a010 a00e 020104 0209010000000000000000 = an INTEGER of over 64 bits at octet 16;
a782010d 81820101 257*07 020100 a103 810100 = no content of its type at octet 8;";
