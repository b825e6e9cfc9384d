// What is expected was taken from the grammar by hand.
use crate::rows::{told, wrong_row};
use std::process::Abort;
use std::test::Fail;

#[test]
fn words_ask_for_what_their_rows_say(rt: HostRuntime) -> Result<(), Fail> {
    assert_eq!(rt; wrong_row(rt.alloc(), ASKED)?, None);
    Ok(())
}

#[test]
fn other_words_ask_for_nothing(rt: HostRuntime) -> Result<(), Fail> {
    assert_eq!(rt; told(rt.alloc(), &[])?.as_str(), "usage");
    assert_eq!(rt; wrong_row(rt.alloc(), USAGE)?, None);
    Ok(())
}

const ASKED: &str = "
show raf = show rtnAllFrames|
show rcf = show rtnChFrames|
show cltu = show fwdCltu|
raf 5000 MOC none sagr=1.spack=P.rsl-fg=1.raf=onlc1 none none 2 100 = 5000 MOC none
    sagr=1.spack=P.rsl-fg=1.raf=onlc1
    Raf { start: None, stop: None, quality: AllFrames, report: None } 100|
raf 1 ABC sha1:6162636465fF raf=a none none 0 1 = 1 ABC Sha1:? raf=a
    Raf { start: None, stop: None, quality: GoodFramesOnly, report: None } 1|
raf 65535 ABCDEFGHIJKLMNOP sha256:616263646566 raf=a none none 1 1099511627776
    = 65535 ABCDEFGHIJKLMNOP Sha256:abcdef raf=a
    Raf { start: None, stop: None, quality: ErredFrameOnly, report: None } 1099511627776|
raf 5000 MOC none raf=a 20000/1000/999 20000/86399999/5p 2 100 = 5000 MOC none raf=a
    Raf { start: Some(Cds { days: 20000, millis: 1000, rest: Micros(999) }),
    stop: Some(Cds { days: 20000, millis: 86399999, rest: Picos(5) }),
    quality: AllFrames, report: None } 100|
rcf 5000 MOC none rcf=a none none 1023/3/63 100 = 5000 MOC none rcf=a
    Rcf { start: None, stop: None,
    channel: Gvcid { spacecraft: 1023, version: 3, channel: Virtual(63) }, report: None } 100|
rcf 5000 MOC none rcf=a none none 0/0/* 100 = 5000 MOC none rcf=a
    Rcf { start: None, stop: None,
    channel: Gvcid { spacecraft: 0, version: 0, channel: Master }, report: None } 100|
cltu 5000 MOC none cltu=a 0 100 = 5000 MOC none cltu=a Cltu { first: 0, report: None } 100|
cltu 5000 MOC none cltu=a 4294967295 100 = 5000 MOC none cltu=a
    Cltu { first: 4294967295, report: None } 100|
raf 5000 MOC none raf=a none none 2 100 2 = 5000 MOC none raf=a
    Raf { start: None, stop: None, quality: AllFrames, report: Some(2) } 100|
rcf 5000 MOC none rcf=a none none 0/0/* 100 30 = 5000 MOC none rcf=a
    Rcf { start: None, stop: None,
    channel: Gvcid { spacecraft: 0, version: 0, channel: Master }, report: Some(30) } 100|
cltu 5000 MOC none cltu=a 7 100 600 = 5000 MOC none cltu=a Cltu { first: 7, report: Some(600) } 100|";

const USAGE: &str = "
 = usage|
help = usage|
--help = usage|
SHOW raf = usage|
show = usage|
show rocf = usage|
show raf raf = usage|
show -h = usage|
raf = usage|
raf 5000 MOC none raf=a none none 2 = usage|
raf 5000 MOC none raf=a none none 2 100 1 = usage|
raf 5000 MOC none raf=a none none 2 100 601 = usage|
raf 5000 MOC none raf=a none none 2 100 02 = usage|
raf 5000 MOC none raf=a none none 2 100 none = usage|
raf 5000 MOC none raf=a none none 2 100 -2 = usage|
raf 5000 MOC none raf=a none none 2 100 30 30 = usage|
show raf 30 = usage|
raf 0 MOC none raf=a none none 2 100 = usage|
raf 65536 MOC none raf=a none none 2 100 = usage|
raf 05000 MOC none raf=a none none 2 100 = usage|
raf +5000 MOC none raf=a none none 2 100 = usage|
raf -1 MOC none raf=a none none 2 100 = usage|
raf  MOC none raf=a none none 2 100 = usage|
raf 5000 MO none raf=a none none 2 100 = usage|
raf 5000 ABCDEFGHIJKLMNOPQ none raf=a none none 2 100 = usage|
raf 5000 MOC None raf=a none none 2 100 = usage|
raf 5000 MOC sha1 raf=a none none 2 100 = usage|
raf 5000 MOC sha1: raf=a none none 2 100 = usage|
raf 5000 MOC sha1:6162636465 raf=a none none 2 100 = usage|
raf 5000 MOC sha1:616263646566676869707172737475767 raf=a none none 2 100 = usage|
raf 5000 MOC sha1:6162636465666768697071727374757677 raf=a none none 2 100 = usage|
raf 5000 MOC sha512:616263646566 raf=a none none 2 100 = usage|
raf 5000 MOC sha1:61626364656g raf=a none none 2 100 = usage|
raf 5000 MOC none raf none none 2 100 = usage|
raf 5000 MOC none ra=a none none 2 100 = usage|
raf 5000 MOC none raf=a 20000 none 2 100 = usage|
raf 5000 MOC none raf=a none 20000/86400000/0 2 100 = usage|
raf 5000 MOC none raf=a none none 3 100 = usage|
raf 5000 MOC none raf=a none none 2 0 = usage|
raf 5000 MOC none raf=a none none 2 1099511627777 = usage|
raf 5000 MOC none raf=a none none 2 -n = usage|
rcf 5000 MOC none rcf=a none none 2 100 = usage|
rcf 5000 MOC none rcf=a none none 1024/0/0 100 = usage|
rcf 5000 MOC none rcf=a none none 0/4/0 100 = usage|
rcf 5000 MOC none rcf=a none none 0/0/64 100 = usage|
rcf 5000 MOC none rcf=a none none 0/0 100 = usage|
rcf 5000 MOC none rcf=a none none 0/0/0 100 1 = usage|
cltu 5000 MOC none cltu=a 100 = usage|
cltu 5000 MOC none cltu=a 7 100 601 = usage|
cltu 5000 MOC none cltu=a 4294967296 100 = usage|
cltu 5000 MOC none cltu=a none 100 = usage|";
