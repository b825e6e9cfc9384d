// The forward service by scripts of rounds. What is expected was written by hand from the tables of
// the PDUs and the rules of the queue.
use crate::rounds::{Limits, signed_return};
use crate::script::check;
use std::test::Fail;

// The room of a queue and its longest CLTU, and rows.
const SCRIPTS: [(Limits, &str); 10] = [
    ((1_000, 100), EXPIRED),
    ((1_000, 100), LAST),
    ((1_000, 100), HALTED),
    ((1_000, 100), IN_AIR),
    ((1_000, 100), STARTS),
    ((50, 20), DIAGNOSTICS),
    ((1_000, 100), NOTICES),
    ((1_000, 100), REPORTS),
    ((1_000, 100), PARAMETERS),
    ((1_000, 100), EVENTS),
];

#[test]
fn rounds_offer_so(rt: HostRuntime) -> Result<(), Fail> {
    for (limits, rows) in SCRIPTS {
        check(&rt, rt.alloc(), limits, rows)?;
    }
    Ok(())
}

#[test]
fn a_return_carries_credentials_and_a_number(rt: HostRuntime) -> Result<(), Fail> {
    let octets = signed_return(rt.alloc(), &[1, 2, 3, 4, 5, 6, 7, 8])?;
    let expected = hex::decode(rt.alloc(), "a31181080102030405060708020300ffff8000")?;
    assert!(rt; octets.as_slice() == expected.as_slice());
    Ok(())
}

// CLTUs 7, 8 and 9, of which 8 has expired when 7 was radiated.
const EXPIRED: &str = "
start 7 = a113 8000 020100 a00c 80084e20000000000000 8000;
cltu 7 none micros/10 0 quiet 3 = ab0e 8000 020100 020108 020203e5 8000;
cltu 8 none micros/9 0 quiet 3 = ab0e 8000 020100 020109 020203e2 8000;
cltu 9 none none 0 quiet 3 = ab0e 8000 020100 02010a 020203df 8000;
clock 10000000;
take;
done 1 7;
take;
round = ac23 8000 8100 a108 020108 8000 020101 a10d 020107 80084e2000000000000a 020100 020103;
report now = a507 8000 020100 8000
    ad2e 8000 a108 020108 8000 020101 a10d 020107 80084e2000000000000a 020100 020103
    020103 020102 020101 020203e8;
cltu 10 none none 0 quiet 3 = ab11 8000 020100 02010a 020203e8 a103 810100;
round;";

// The last identification, and a run while a CLTU of an older one is in the air.
const LAST: &str = "
start 4294967295 = a113 8000 020100 a00c 80084e20000000000000 8000;
cltu 4294967295 none none 0 quiet 3 = ab12 8000 020100 020500ffffffff 020203e5 8000;
cltu 0 none none 0 quiet 3 = ab15 8000 020100 020500ffffffff 020203e5 a103 810102;
take;
stop = a307 8000 020100 8000;
start 5 = a113 8000 020100 a00c 80084e20000000000000 8000;
cltu 5 none none 0 quiet 3 = ab0e 8000 020100 020106 020203e5 8000;
take;
done 1 4294967295;
take;
done 2 5;
round = ac2d 8000 8500 a112 020105 a10a 80084e20000000000000 020100
    a10d 020105 80084e20000000000000 020100 020103;
round;";

// Production that is halted in a run, and then no run begins.
const HALTED: &str = "
start 1 = a113 8000 020100 a00c 80084e20000000000000 8000;
uplink 3 0;
round = ac0e 8000 8300 8000 8000 020103 020100;
cltu 1 none none 0 quiet 1 = ab11 8000 020100 020101 020203e8 a103 810100;
stop = a307 8000 020100 8000;
start 1 = a10a 8000 020100 a103 810100;";

// A CLTU in the air counts as processed, and not as radiated; its octets are free again.
const IN_AIR: &str = "
start 7 = a113 8000 020100 a00c 80084e20000000000000 8000;
cltu 7 none none 0 quiet 3 = ab0e 8000 020100 020108 020203e5 8000;
take;
report now = a507 8000 020100 8000
    ad2b 8000 a112 020107 a10a 80084e20000000000000 020104 8000 020100 020103
    020101 020101 020100 020203e8;
clock 10000000;
done 1 7;
report now = a507 8000 020100 8000
    ad38 8000 a112 020107 a10a 80084e20000000000000 020100 a10d 020107 80084e2000000000000a
    020100 020103 020101 020101 020101 020203e8
    ac2d 8000 8500 a112 020107 a10a 80084e20000000000000 020100
    a10d 020107 80084e2000000000000a 020100 020103;";

// A START by production: interrupted, halted, configured. It has the moment of its round, rounded
// down to the microsecond.
const STARTS: &str = "
uplink 2 3;
start 1 = a10a 8000 020100 a103 810101;
uplink 3 3;
start 1 = a10a 8000 020100 a103 810100;
uplink 1 3;
clock 1500999999;
start 1 = a113 8000 020100 a00c 80084e200000000101f4 8000;";

// Each diagnostic of TRANSFER-DATA alone, and beside one behind it in their order, which isn't that
// of their numbers.
const DIAGNOSTICS: &str = "
clock 10000000;
start 1 = a113 8000 020100 a00c 80084e2000000000000a 8000;
cltu 2 none none 0 quiet 1 = ab10 8000 020100 020101 020132 a103 810102;
cltu 2 millis/86400000 none 0 quiet 1 = ab10 8000 020100 020101 020132 a103 810102;
cltu 1 millis/86400000 none 0 quiet 1 = ab10 8000 020100 020101 020132 a103 810104;
cltu 1 none millis/86400000 0 quiet 1 = ab10 8000 020100 020101 020132 a103 810104;
cltu 1 millis/86400000 micros/9 0 quiet 1 = ab10 8000 020100 020101 020132 a103 810104;
cltu 1 micros/21 micros/20 0 quiet 1 = ab10 8000 020100 020101 020132 a103 810103;
cltu 1 micros/9 micros/8 0 quiet 1 = ab10 8000 020100 020101 020132 a103 810103;
cltu 1 none micros/9 0 quiet 1 = ab10 8000 020100 020101 020132 a103 810105;
cltu 1 none micros/9 600000001 quiet 1 = ab10 8000 020100 020101 020132 a103 810105;
cltu 1 none none 600000001 quiet 1 = ab10 8000 020100 020101 020132 a103 810106;
cltu 1 none none 600000001 quiet 21 = ab10 8000 020100 020101 020132 a103 810106;
cltu 1 none none 0 quiet 21 = ab10 8000 020100 020101 020132 a103 810107;
cltu 1 micros/10 micros/10 600000000 quiet 20 = ab0d 8000 020100 020102 02011e 8000;
cltu 2 none none 0 quiet 20 = ab0d 8000 020100 020103 02010a 8000;
cltu 3 none none 0 quiet 21 = ab10 8000 020100 020103 02010a a103 810107;
cltu 3 none none 0 quiet 11 = ab10 8000 020100 020103 02010a a103 810101;
cltu 3 none none 0 quiet 10 = ab0d 8000 020100 020104 020100 8000;
cltu 4 none none 0 quiet 1 = ab10 8000 020100 020104 020100 a103 810101;
uplink 2 3;
cltu 4 none none 0 quiet 1 = ab10 8000 020100 020104 020132 a103 810100
    ac0e 8000 8200 8000 8000 020102 020103;
cltu 9 millis/86400000 none 600000001 quiet 21 = ab10 8000 020100 020104 020132 a103 810100;";

// A radiation's end that is to be told, with nothing left; one that failed; a change of production
// in place of another one.
const NOTICES: &str = "
start 7 = a113 8000 020100 a00c 80084e20000000000000 8000;
cltu 7 none none 0 told 3 = ab0e 8000 020100 020108 020203e5 8000;
take;
clock 10000000;
done 1 7;
round = ac2d 8000 8000 a112 020107 a10a 80084e20000000000000 020100
    a10d 020107 80084e2000000000000a 020100 020103;
round = ac2d 8000 8500 a112 020107 a10a 80084e20000000000000 020100
    a10d 020107 80084e2000000000000a 020100 020103;
cltu 8 none none 0 told 3 = ab0e 8000 020100 020109 020203e5 8000;
take;
broken 1 8;
round = ac2d 8000 8200 a112 020108 a10a 80084e2000000000000a 020102
    a10d 020107 80084e2000000000000a 020102 020103;
round;
uplink 3 1;
uplink 0 2;
round = ac2d 8000 8400 a112 020108 a10a 80084e2000000000000a 020102
    a10d 020107 80084e2000000000000a 020100 020102;
uplink 1 2;
round;
stop = a307 8000 020100 8000;
uplink 2 2;
round;";

// Orders of status reports: refused ones, one at once, a cycle of 2 seconds, its end.
const REPORTS: &str = "
report stop = a50a 8000 020100 a103 810101;
report 1 = a50a 8000 020100 a103 810102;
report 601 = a50a 8000 020100 a103 810102;
round;
report now = a507 8000 020100 8000
    ad19 8000 8000 8000 020100 020103 020100 020100 020100 020203e8;
round;
report 2 = a507 8000 020100 8000
    ad19 8000 8000 8000 020100 020103 020100 020100 020100 020203e8;
clock 1999999999999;
round;
report 1 = a50a 8000 020100 a103 810102;
clock 2000000000000;
start 1 = a113 8000 020100 a00c 80084e20000007d00000 8000
    ad19 8000 8000 8000 020100 020103 020100 020100 020100 020203e8;
round;
clock 3000000000000;
report now = a507 8000 020100 8000
    ad19 8000 8000 8000 020100 020103 020100 020100 020100 020203e8;
clock 4000000000000;
round;
clock 5000000000000;
round = ad19 8000 8000 8000 020100 020103 020100 020100 020100 020203e8;
report stop = a507 8000 020100 8000;
clock 9000000000000;
round;
report stop = a50a 8000 020100 a103 810101;";

const PARAMETERS: &str = "
get 6 = a70f 8000 020100 a008 a106 020106 020103;
get 26 = a70e 8000 020100 a007 a305 02011a 8000;
get 29 = a70f 8000 020100 a008 a506 02011d 02013c;
get 4 = a70a 8000 020100 a103 810100;
get 15 = a70a 8000 020100 a103 810100;
get 27 = a70a 8000 020100 a103 810100;
get 28 = a70a 8000 020100 a103 810100;
get 65535 = a70a 8000 020100 a103 810100;
report 600 = a507 8000 020100 8000
    ad19 8000 8000 8000 020100 020103 020100 020100 020100 020203e8;
get 26 = a710 8000 020100 a009 a307 02011a 81020258;
report stop = a507 8000 020100 8000;
get 26 = a70e 8000 020100 a007 a305 02011a 8000;";

// No event is supported, whatever its number, in a run and outside of one.
const EVENTS: &str = "
throw 9 = a90d 8000 020100 020109 a103 810100;
start 1 = a113 8000 020100 a00c 80084e20000000000000 8000;
throw 4294967295 = a911 8000 020100 020500ffffffff a103 810100;";
