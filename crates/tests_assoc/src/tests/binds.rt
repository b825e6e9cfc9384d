// The BINDs of a station, and outer tags.

// The initiator, the service, the version and the instance. Behind a digit, the diagnostic of the
// return of BIND, stands the fault. The last rows have each fault before the next.
pub const BINDS: &str = "
MOC 0 5 sagr=1.spack=P.rsl-fg=1.raf=onlc1 = instance 1|
MOC 0 4 sagr=1.spack=P.rsl-fg=1.raf=onlc1 = instance 1|
MOC 0 5 sagr=1.spack=P.rsl-fg=1.raf=onlc2 = instance 3|
MOC 2 5 sagr=1.spack=P.rsl-fg=1.rcf=onlc1 = instance 4|
MOC 16 5 sagr=1.spack=P.fsl-fg=1.cltu=cltu1 = instance 5|
MOC 2 5 sagr=1.spack=P.rsl-fg=1.raf=onlc1 = 6 inconsistentServiceType|
MOC 0 5 sagr=1.spack=P.fsl-fg=1.cltu=cltu1 = 6 inconsistentServiceType|
OTHER 0 5 sagr=1.spack=P.rsl-fg=1.raf=onlc1
    = 5 siNotAccessibleToThisInitiator|
SEC 0 5 sagr=1.spack=P.rsl-fg=1.raf=onlc1 = 5 siNotAccessibleToThisInitiator|
MOC 0 5 sagr=9.raf=x = 3 noSuchServiceInstance|
MOC 0 3 sagr=1.spack=P.rsl-fg=1.raf=onlc1 = 2 versionNotSupported|
MOC 0 6 sagr=1.spack=P.rsl-fg=1.raf=onlc1 = 2 versionNotSupported|
MOC 0 261 sagr=1.spack=P.rsl-fg=1.raf=onlc1 = 2 versionNotSupported|
MOC 4 5 sagr=1.spack=P.rsl-fg=1.raf=onlc1 = 1 serviceTypeNotSupported|
MOC 65535 5 sagr=1.spack=P.rsl-fg=1.raf=onlc1 = 1 serviceTypeNotSupported|
NOBODY 0 5 sagr=1.spack=P.rsl-fg=1.raf=onlc1 = 0 accessDenied|
MO 1 3 sagr=9.raf=x = 0 accessDenied|
OTHER 1 3 sagr=9.raf=x = 1 serviceTypeNotSupported|
OTHER 2 3 sagr=9.raf=x = 2 versionNotSupported|
OTHER 2 5 sagr=1.spack=P.rsl-fg=1.raf=onlc1
    = 5 siNotAccessibleToThisInitiator|";

// sagr=1.spack=P.rsl-fg=1.raf=onlc1 as a BIND spells it, and the same with onlc3.
pub const SPELLED: &str = "
310e300c06072b7004030102341a0131
    310e300c06072b7004030102351a0150
    310e300c06072b7004030102261a0131
    3112301006072b7004030102161a056f6e6c6331
    = instance 1|
310e300c06072b7004030102341a0131
    310e300c06072b7004030102351a0150
    310e300c06072b7004030102261a0131
    3112301006072b7004030102161a056f6e6c6333
    = 3 noSuchServiceInstance|";

// By their whole names.
pub const PEERS: &str = "
MOC = peer 0|
OTHER = peer 1|
SEC = peer 2|
MO = no peer|
MOCK = no peer|
moc = no peer|";

// The same numbers, but constructed where they are primitive and the other way round; UNBIND, its
// return, the return of BIND, START, another class; octets that end too early; a number below 31,
// and one with a superfluous octet, which are no tag in several octets.
pub const OUTER_TAGS: &str = "
bf6400 = Bind|
bf64 = Bind|
9f68017f = PeerAbort|
9f64017f = Other|
bf6800 = Other|
bf6600 = Other|
bf6700 = Other|
bf6500 = Other|
a000 = Other|
7f6400 = Other|
 = Missing|
bf = Missing|
bfe4 = Missing|
bf1e00 = Missing|
bf806400 = Missing|";
