// Each field of each line at both ends of its range and one past.

pub const SETTINGS: &str = "
provider !~A|
provider ABCDEFGHIJKLMNOP|
password 0aF1ff00FF99|
password 00112233445566778899aabbccddeeff|
capacity 64|
capacity 268435456|
heartbeat 1 1 2 2|
heartbeat 1 3600 2 100|
heartbeat 3600 3600 100 100|
versions 4|
versions 9 9 4 4|
provider AB = line 1: cause 3|
provider ABCDEFGHIJKLMNOPQ = line 1: cause 3|
provider AB\x1f = line 1: cause 3|
provider AB\x7f = line 1: cause 3|
password 0001020304 = line 1: cause 3|
password 00112233445566778899aabbccddeeff00 = line 1: cause 3|
password 0001020304050 = line 1: cause 3|
password 00010203040g = line 1: cause 3|
capacity 63 = line 1: cause 3|
capacity 268435457 = line 1: cause 3|
capacity 064 = line 1: cause 3|
capacity +64 = line 1: cause 3|
capacity 18446744073709551680 = line 1: cause 3|
heartbeat 0 1 2 2 = line 1: cause 3|
heartbeat 2 1 2 2 = line 1: cause 3|
heartbeat 1 3601 2 2 = line 1: cause 3|
heartbeat 1 1 1 2 = line 1: cause 3|
heartbeat 1 1 3 2 = line 1: cause 3|
heartbeat 1 1 2 101 = line 1: cause 3|
versions 3 = line 1: cause 3|
versions 4 10 = line 1: cause 3|";

pub const PEERS: &str = "
peer MOC none sha1 1 000000000000|
peer ABCDEFGHIJKLMNOP bind sha256 86400 000000000000|
peer !~! all sha1 60 00112233445566778899AABBCCDDEEFF|
peer MO none sha1 60 000000000000 = line 1: cause 3|
peer ABCDEFGHIJKLMNOPQ none sha1 60 000000000000 = line 1: cause 3|
peer MO\x7f none sha1 60 000000000000 = line 1: cause 3|
peer MOC nothing sha1 60 000000000000 = line 1: cause 3|
peer MOC None sha1 60 000000000000 = line 1: cause 3|
peer MOC none sha512 60 000000000000 = line 1: cause 3|
peer MOC none sha1 0 000000000000 = line 1: cause 3|
peer MOC none sha1 86401 000000000000 = line 1: cause 3|
peer MOC none sha1 060 000000000000 = line 1: cause 3|
peer MOC none sha1 60 0000000000 = line 1: cause 3|
peer MOC none sha1 60 00112233445566778899aabbccddeeff00 = line 1: cause 3|";

// A value has 256 characters at most.
pub const RETURN: &str = "
raf raf=a MOC timely 1 1 1|
raf raf=a MOC complete 1000 3600 600|
raf raf=a MOC offline 1 0 1|
raf raf=%256*v% MOC timely 1 1 1|
raf raf=%257*v% MOC timely 1 1 1 = line 2: cause 3|
raf sagr=1.sagr=1.spack=!.rsl-fg=~.fsl-fg=a.rcf=b.rocf=c.cltu=d MOC timely 1 1 1|
rcf rcf=a MOC timely 1 1 1 0/0/0|
rcf rcf=a MOC complete 1000 3600 600 1023/3/63 1023/3/*|
rcf rcf=a MOC offline 1 0 1 1/0/1 1/0/1 1/0/1 1/0/1 1/0/1 1/0/1 1/0/1 1/0/1|
raf raf= MOC timely 1 1 1 = line 2: cause 3|
raf raf MOC timely 1 1 1 = line 2: cause 3|
raf raf=a. MOC timely 1 1 1 = line 2: cause 3|
raf Raf=a MOC timely 1 1 1 = line 2: cause 3|
raf a=1.raf=a.raf=a.raf=a.raf=a.raf=a.raf=a.raf=a MOC timely 1 1 1 = line 2: cause 3|
raf raf=a.raf=a.raf=a.raf=a.raf=a.raf=a.raf=a.raf=a.raf=a MOC timely 1 1 1 = line 2: cause 3|
raf raf=a  timely 1 1 1 = line 2: cause 3|
raf raf=a MO\x7f timely 1 1 1 = line 2: cause 3|
raf raf=a MOC online 1 1 1 = line 2: cause 3|
raf raf=a MOC timely 0 1 1 = line 2: cause 3|
raf raf=a MOC timely 1001 1 1 = line 2: cause 3|
raf raf=a MOC timely 1 0 1 = line 2: cause 3|
raf raf=a MOC complete 1 0 1 = line 2: cause 3|
raf raf=a MOC complete 1 3601 1 = line 2: cause 3|
raf raf=a MOC offline 1 1 1 = line 2: cause 3|
raf raf=a MOC timely 1 1 0 = line 2: cause 3|
raf raf=a MOC timely 1 1 601 = line 2: cause 3|
rcf rcf=a MOC timely 0 1 1 0/0/0 = line 2: cause 3|
rcf rcf=a MOC timely 1 0 1 0/0/0 = line 2: cause 3|
rcf rcf=a MOC offline 1 1 1 0/0/0 = line 2: cause 3|
rcf rcf=a MOC timely 1 1 601 0/0/0 = line 2: cause 3|
rcf rcf=a MOC timely 1 1 1 1024/0/0 = line 2: cause 3|
rcf rcf=a MOC timely 1 1 1 0/4/0 = line 2: cause 3|
rcf rcf=a MOC timely 1 1 1 0/0/64 = line 2: cause 3|
rcf rcf=a MOC timely 1 1 1 0/0/0 0/0/** = line 2: cause 3|";

pub const FORWARD: &str = "
cltu cltu=a MOC 1 1 1|
cltu cltu=a MOC 16777216 65536 600|
cltu cltu MOC 1 1 1 = line 2: cause 3|
cltu cltu=a MO\x20C 1 1 = line 2: cause 3|
cltu cltu=a MOC 0 1 1 = line 2: cause 3|
cltu cltu=a MOC 16777217 1 1 = line 2: cause 3|
cltu cltu=a MOC 1 0 1 = line 2: cause 3|
cltu cltu=a MOC 1 65537 1 = line 2: cause 3|
cltu cltu=a MOC 1 1 0 = line 2: cause 3|
cltu cltu=a MOC 1 1 601 = line 2: cause 3|";
