// Texts of service instance identifiers (CCSDS 911.1-B, annex A).

// Its attributes and values.
pub const PARTS: &str = "
sagr=1.spack=P.rsl-fg=1.raf=onlc1 = Sagr 1 Spack P RslFg 1 Raf onlc1|";

// Each attribute, repeated attributes, both ends of a value's characters, and the longest value.
pub const TEXTS: &str = "
sagr=1.spack=P.rsl-fg=1.raf=onlc1|
sagr=1|
sagr=%256*v%|
fsl-fg=!.cltu=~|
rcf=a.rcf=a.rocf=-/:<>|
raf=1.raf=2.raf=3.raf=4.raf=5.raf=6.raf=7.raf=8|";

// The places are counted by hand: the length of the longest prefix with which some text begins.
pub const FAULTS: &str = "
 = no identifier from octet 0 on|
x = no identifier from octet 0 on|
Sagr=1 = no identifier from octet 0 on|
.sagr=1 = no identifier from octet 0 on|
sag = no identifier from octet 3 on|
sagr = no identifier from octet 4 on|
sagr  = no identifier from octet 4 on|
sagr= = no identifier from octet 5 on|
sagr== = no identifier from octet 5 on|
sagr=. = no identifier from octet 5 on|
sagr= 1 = no identifier from octet 5 on|
sagr=1= = no identifier from octet 6 on|
sagr=1  = no identifier from octet 6 on|
sagr=1\x7f = no identifier from octet 6 on|
sagr=%257*v% = no identifier from octet 261 on|
sagr=1. = no identifier from octet 7 on|
sagr=1.. = no identifier from octet 7 on|
sagr=1.sagr = no identifier from octet 11 on|
sagr=1.s=1 = no identifier from octet 8 on|
rx=1 = no identifier from octet 1 on|
rsl=1 = no identifier from octet 3 on|
ra=1 = no identifier from octet 2 on|
rafx = no identifier from octet 3 on|
sagr=\u{e9} = no identifier from octet 5 on|
raf=1.raf=2.raf=3.raf=4.raf=5.raf=6.raf=7.raf=8. = no identifier from octet 47 on|";
