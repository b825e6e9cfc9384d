// A stream of RCF, where it differs from one of RAF. The octets are those of the tests of the PDUs;
// the lines were written by hand from the values beside them there.
use crate::rows::check;
use sle_numbers::ServiceType;
use std::test::Fail;

#[test]
fn what_a_stream_of_rcf_says(rt: HostRuntime) -> Result<(), Fail> {
    check(&rt, rt.alloc(), ServiceType::RtnChFrames, ROWS)
}

const ROWS: &str = "
a81b a019 8000 80084e20000003e80000 810141 0201ff 8000 0403407fa1
    = frame 20000/1000/0 -1 41 407fa1|;
a806 a104 8000 8300 = end|;
a914 8000 020100 020103 020103 020103 020103 020100 = report 0 3 3 3 3 0|;
a01e 8000 020100 a10a 80084e20000000000000 8000 3009 020101 020101 81013f = invoke 0|;
a107 8000 020100 8000 = ok 1|;
a10a 8000 020100 a103 810105 = no 1 5|;
a717 8000 020100 a010 a40e 02011c a109 020101 020101 81013f = parameter 28|;
a00c 8000 020100 8000 8000 020102 = bad message 0|;
a81e a01c 8000 80084e20000003e80000 810141 0201ff 020100 8000 04030010a1 = bad message 0|;
a917 8000 020100 020100 020103 020103 020103 020103 020100 = bad message 0|;";
