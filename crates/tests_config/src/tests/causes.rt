// The causes, and which of two comes first.
use crate::site_text::full_counts;
use std::process::Abort;

// A first word that begins no line is cause 1.
pub const FIRST_WORDS: &str = "
Provider STATION = line 1: cause 1|
providers STATION = line 1: cause 1|
site = line 1: cause 1|
end = line 1: cause 1|
end  = line 1: cause 1|
rocf rocf=a MOC complete 1 5 60 1/0/1 = line 1: cause 1|
\x20capacity 64 = line 1: cause 1|
\x20# no comment = line 1: cause 1|
63 = line 1: cause 1|";

// A wrong number of words is cause 2, before a bad word.
pub const COUNTS: &str = "
provider = line 1: cause 2|
provider A B = line 1: cause 2|
password = line 1: cause 2|
password 00 x = line 1: cause 2|
capacity = line 1: cause 2|
capacity 64 64 = line 1: cause 2|
heartbeat 1 1 2 = line 1: cause 2|
heartbeat 0 1 2 2 2 = line 1: cause 2|
versions = line 1: cause 2|
versions 4 5 6 7 3 = line 1: cause 2|
peer MOC none sha1 60 = line 1: cause 2|
peer MO none sha1 60 00 00 = line 1: cause 2|
raf raf=a MOC timely 0 1 = line 1: cause 2|
raf raf=a NOBODY timely 1 1 1 1 = line 1: cause 2|
rcf rcf=a NOBODY timely 1 1 1 = line 1: cause 2|
rcf rcf=a MOC timely 1 1 1 1/0/1 1/0/1 1/0/1 1/0/1 1/0/1 1/0/1 1/0/1 1/0/1 1/0/1 = line 1: cause 2|
cltu cltu=a MOC 0 1 = line 1: cause 2|
cltu cltu=a NOBODY 1 1 1 1 = line 1: cause 2|";

// A setting given twice is cause 4, behind what its words have.
pub const SETTINGS_GIVEN_TWICE: &str = "
provider ABC
provider ABC = line 2: cause 4|
provider ABC
provider AB = line 2: cause 3|
provider ABC
provider = line 2: cause 2|
password 000000000000
password 000000000001 = line 2: cause 4|
password 000000000000
password 00 = line 2: cause 3|
capacity 268435456
capacity 64 = line 2: cause 4|
capacity 64
capacity 63 = line 2: cause 3|
heartbeat 5 3600 2 100
heartbeat 5 3600 2 100 = line 2: cause 4|
heartbeat 5 3600 2 100
heartbeat 5 4 2 100 = line 2: cause 3|
versions 4
versions 5 = line 2: cause 4|
versions 4
versions = line 2: cause 2|";

// A name or an identifier given twice is cause 4.
pub const NAMES_GIVEN_TWICE: &str = "
peer ABC none sha1 1 000000000000
peer ABC all sha256 2 000000000001 = line 2: cause 4|
peer ABC none sha1 1 000000000000
peer ABC all sha256 0 000000000001 = line 2: cause 3|
peer ABC none sha1 1 000000000000
raf raf=a ABC timely 1 1 1
cltu raf=a ABC 1 1 1 = line 3: cause 4|
peer ABC none sha1 1 000000000000
raf raf=a ABC timely 1 1 1
raf raf=a ABC timely 0 1 1 = line 3: cause 3|
peer ABC none sha1 1 000000000000
raf raf=a ABC timely 1 1 1
raf raf=a NOBODY timely 1 1 1 = line 3: cause 4|
peer ABC none sha1 1 000000000000
cltu cltu=a ABC 1 1 1
cltu cltu=a ABC 1 1 1 = line 3: cause 4|
peer ABC none sha1 1 000000000000
raf raf=a ABC timely 1 1 1
raf rcf=a ABC timely 1 1 1
raf raf=a.raf=a ABC timely 1 1 1
raf raf=b ABC timely 1 1 1
peer abc none sha1 1 000000000000|";

// An owner that no earlier line names is cause 5.
pub const OWNERS: &str = "
raf raf=a MOC timely 1 1 1
peer MOC none sha1 1 000000000000 = line 1: cause 5|
raf raf=a M timely 1 1 1 = line 1: cause 5|
raf raf=a ABCDEFGHIJKLMNOPQRST timely 1 1 1 = line 1: cause 5|
raf raf=a MOC timely 0 1 1 = line 1: cause 3|
rcf rcf=a MOC timely 1 1 1 1/0/* = line 1: cause 5|
cltu cltu=a MOC 1 1 1 = line 1: cause 5|
peer MOC none sha1 1 000000000000
cltu cltu=a MOC 1 1 1
cltu cltu=b NOBODY 1 1 1 = line 3: cause 5|";

// A second forward instance is cause 6.
pub const SECOND_FORWARD: &str = "
peer MOC none sha1 1 000000000000
cltu cltu=a MOC 1 1 1
cltu cltu=b MOC 1 1 1 = line 3: cause 6|
peer MOC none sha1 1 000000000000
cltu cltu=a MOC 1 1 1
cltu cltu=b MOC 1 1 0 = line 3: cause 3|
peer MOC none sha1 1 000000000000
cltu cltu=a MOC 1 1 1
cltu cltu=b MOC 1 1 = line 3: cause 2|
peer MOC none sha1 1 000000000000
cltu cltu=a MOC 1 1 1
raf cltu=b MOC timely 1 1 1
cltu cltu=c MOC 1 1 1
end = line 4: cause 6|";

#[test]
fn a_site_has_32_peers_and_32_instances(rt: HostRuntime) {
    assert_eq!(rt; full_counts(rt.alloc()), Some((32, 32, 31)));
}

// A thirty-third is cause 6, behind 4 and 5.
pub const THIRTY_THIRD: &str = "
peer P32 none sha1 60 000000000000 = line 65: cause 6|
peer P31 none sha1 60 000000000000 = line 65: cause 4|
raf raf=P32 P00 timely 1 1 1 = line 65: cause 6|
raf raf=P31 P00 timely 1 1 1 = line 65: cause 4|
raf raf=P32 P32 timely 1 1 1 = line 65: cause 5|
cltu cltu=a P00 1 1 1 = line 65: cause 6|";
