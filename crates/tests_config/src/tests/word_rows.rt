// Words: each is written as it was read, or is `bad`. The expected values are written out by hand
// from the forms of the words: digits in decimal and hexadecimal.
use cds_time::{Cds, Rest};
use sle_common::{Channel, Gvcid};
use std::alloc::{AllocError, Global};
use std::process::Abort;
use std::test::Fail;
use words::{ChannelWord, Fraction, Hex, LentOctets, Time, When, WriteWords, laws, read_word};

// From 3 to 16777215.
pub const NUMBER: &str = "
3|
16777215|
 = bad|
2 = bad|
16777216 = bad|
03 = bad|
+3 = bad|
-3 = bad|
\x203 = bad|
3  = bad|
4294967299 = bad|
18446744073709551619 = bad|";

pub const ANY_NUMBER: &str = "
0|
4294967295|
00 = bad|
4294967296 = bad|";

pub const SHORT: &str = "
0|
65535|
65536 = bad|
01 = bad|";

// From 1.
pub const OCTET: &str = "
1|
255|
0 = bad|
256 = bad|
257 = bad|";

// From 1.
pub const LONG: &str = "
1|
4294967296|
18446744073709551615|
0 = bad|
18446744073709551616 = bad|
18446744073709551620 = bad|
99999999999999999999 = bad|
340282366920938463463374607431768211457 = bad|
01 = bad|";

#[test]
fn octets_are_pairs_of_digits(rt: HostRuntime) -> Result<(), Fail> {
    let octets = read_word::<Hex<2, 3>>(rt.alloc(), b"0aFf")?;
    assert_eq!(rt; octets.as_slice(), [10, 255].as_slice());
    Ok(())
}

fn lent_octets(alloc: Global) -> Result<Vec<u8>, AllocError> {
    let mut text = Vec::new(alloc);
    LentOctets::put(b' ', &[0xab, 0x0c], &mut text)?;
    LentOctets::put(b'/', &[], &mut text)?;
    Ok(text)
}

#[test]
fn lent_octets_are_written_in_lower_case(rt: HostRuntime) -> Result<(), Fail> {
    assert_eq!(rt; lent_octets(rt.alloc())?.as_slice(), b" ab0c/".as_slice());
    Ok(())
}

// 2 or 3 octets. Digits are written in lower case.
pub const HEX: &str = "
00ff|
0123ab|
AbCD = abcd|
 = bad|
00 = bad|
00f = bad|
00ffa = bad|
00ffaabb = bad|
00fg = bad|
0x00 = bad|";

// 3 to 5 characters.
pub const NAME: &str = "
!~#|
USER1|
 = bad|
ab = bad|
abcdef = bad|
a b = bad|
ab\x7f = bad|";

#[test]
fn times_and_channels_have_their_values(rt: HostRuntime) {
    assert_eq!(rt; read_word::<When>(rt.alloc(), b"none"), Ok(None));
    assert_eq!(rt; read_word::<Time>(rt.alloc(), b"20000/1000/5p"), Ok(AT));
    assert_eq!(rt;
        read_word::<Fraction>(rt.alloc(), b"5"),
        Ok(Rest::Micros(5))
    );
    assert_eq!(rt; read_word::<ChannelWord>(rt.alloc(), b"9/1/*"), Ok(MASTER));
}

const AT: Cds = Cds {
    days: 20_000,
    millis: 1_000,
    rest: Rest::Picos(5),
};

const MASTER: Gvcid = Gvcid {
    spacecraft: 9,
    version: 1,
    channel: Channel::Master,
};

pub const NO_TIME: &str = "none = bad|";

pub const TIME: &str = "
0/0/0|
65535/86399999/999|
0/0/0p|
65535/86399999/999999999p|
 = bad|
0/0 = bad|
0/0/ = bad|
0/0/p = bad|
0/0/0/0 = bad|
00/0/0 = bad|
65536/0/0 = bad|
0/86400000/0 = bad|
0/0/1000 = bad|
0/0/1000000000p = bad|
0/0/0P = bad|
0/0/0pp = bad|";

pub const NONE: &str = "
none|
None = bad|
non = bad|
none  = bad|";

pub const CHANNEL: &str = "
0/0/0|
1023/3/63|
0/0/*|
1023/3/*|
0/0 = bad|
1024/0/0 = bad|
0/4/0 = bad|
0/0/64 = bad|
0/0/00 = bad|
0/0/ = bad|
0/0/** = bad|
0/*/0 = bad|
0/0/0/0 = bad|";

#[test]
fn identifiers_are_texts() {
    laws::identifiers_are_texts();
}

pub const PART: &str = "raf=1|raf=1.raf=2 = bad|";

// 1 to 256 characters.
pub const VALUE: &str = "v| = bad|%256*v%|%257*v% = bad|";

pub const IDENTIFIER: &str = "
sagr=1.spack=P.rsl-fg=1.raf=onlc1|
fsl-fg=!.cltu=~|
rcf=a.rcf=a.rocf=-/:<>|
raf=1.raf=2.raf=3.raf=4.raf=5.raf=6.raf=7.raf=8|
sagr=1.cltu=x|
 = bad|
raf = bad|
raf= = bad|
raf=1= = bad|
raf=1. = bad|
Raf=1 = bad|
rx=1 = bad|
raf= 1 = bad|
raf=\x7f = bad|
raf=1.raf=2.raf=3.raf=4.raf=5.raf=6.raf=7.raf=8.raf=9 = bad|";

pub const ATTRIBUTE: &str = "
sagr|
spack|
rsl-fg|
fsl-fg|
raf|
rcf|
rocf|
cltu|
 = bad|
sag = bad|
sagrs = bad|
RAF = bad|";
