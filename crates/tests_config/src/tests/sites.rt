// Whole sites.

// What no line gives has its default; each setting, in another order; owners by their places.
pub const SITES: &str = "
# nothing
 = provider STATION [0, 0, 0, 0, 0, 0], capacity 268435456, intervals 5 to 3600, factors 2 to 100,
    versions [4, 5]|
versions 9 4
heartbeat 7 8 9 10
capacity 64
password 0AfF01020304
provider ~me! = provider ~me! [10, 255, 1, 2, 3, 4], capacity 64, intervals 7 to 8,
    factors 9 to 10, versions [9, 4]|
peer ABC none sha1 1 000000000000
peer ABCD all sha256 86400 00112233445566
raf raf=a ABCD timely 1 1 600
peer AB! none sha1 1 000000000000
raf raf=b ABC timely 1 1 1 = provider STATION [0, 0, 0, 0, 0, 0], capacity 268435456,
    intervals 5 to 3600, factors 2 to 100, versions [4, 5];
    peer ABC Nothing SHA-1 1 [0, 0, 0, 0, 0, 0];
    peer ABCD All SHA-256 86400 [0, 17, 34, 51, 68, 85, 102];
    peer AB! Nothing SHA-1 1 [0, 0, 0, 0, 0, 0];
    return instance raf=a of 1, 600 seconds: Raf { mode: TimelyOnline, size: 1, latency: 1 };
    return instance raf=b of 0, 1 seconds: Raf { mode: TimelyOnline, size: 1, latency: 1 }|";

// A station with an instance of each kind.
pub const STATION: &str = "
peer MOC none sha1 60 000000000000
peer OTHER none sha1 60 000000000000
peer SEC bind sha1 60 000000000000
raf sagr=1.spack=P.rsl-fg=1.raf=onlt1 MOC timely 1 5 60
raf sagr=1.spack=P.rsl-fg=1.raf=onlc1 MOC complete 1 5 60
raf sagr=1.spack=P.rsl-fg=1.raf=offl1 MOC offline 2 0 60
raf sagr=1.spack=P.rsl-fg=1.raf=onlc2 MOC complete 10 5 60
rcf sagr=1.spack=P.rsl-fg=1.rcf=onlc1 MOC complete 1 5 60 1/1/63
cltu sagr=1.spack=P.fsl-fg=1.cltu=cltu1 MOC 1000 100 60
 = provider STATION [0, 0, 0, 0, 0, 0], capacity 268435456, intervals 5 to 3600, factors 2 to 100,
    versions [4, 5];
    peer MOC Nothing SHA-1 60 [0, 0, 0, 0, 0, 0];
    peer OTHER Nothing SHA-1 60 [0, 0, 0, 0, 0, 0];
    peer SEC Bind SHA-1 60 [0, 0, 0, 0, 0, 0];
    return instance sagr=1.spack=P.rsl-fg=1.raf=onlt1 of 0, 60 seconds:
        Raf { mode: TimelyOnline, size: 1, latency: 5 };
    return instance sagr=1.spack=P.rsl-fg=1.raf=onlc1 of 0, 60 seconds:
        Raf { mode: CompleteOnline, size: 1, latency: 5 };
    return instance sagr=1.spack=P.rsl-fg=1.raf=offl1 of 0, 60 seconds:
        Raf { mode: Offline, size: 2, latency: 0 };
    return instance sagr=1.spack=P.rsl-fg=1.raf=onlc2 of 0, 60 seconds:
        Raf { mode: CompleteOnline, size: 10, latency: 5 };
    return instance sagr=1.spack=P.rsl-fg=1.rcf=onlc1 of 0, 60 seconds:
        Rcf { mode: CompleteOnline, size: 1, latency: 5, channels: Channels { held: [Gvcid {
        spacecraft: 1,
        version: 1, channel: Virtual(63) }] } };
    forward instance sagr=1.spack=P.fsl-fg=1.cltu=cltu1 of 0, 60 seconds:
        Cltu { room: 1000, longest: 100 }|";

// The text of `examples/station.conf`, and what it says.
pub const EXAMPLE: &str = "
# A station's configuration. Words are one blank apart; empty lines and comments say nothing.

# The name that our returns carry, and our password: 6 to 16 octets in hexadecimal digits.
provider GROUND-1
password 5e6f70819293

# The archive's file grows to at most this many octets.
capacity 268435456

# A control centre may ask for heartbeats every 5 to 60 seconds, and a dead factor of 2 to 5.
heartbeat 5 60 2 5

# The service versions that a BIND may ask for.
versions 4 5

# Who may bind: peer NAME LEVEL HASH DELAY PASSWORD. LEVEL says what carries credentials: none,
# bind (BIND and its return) or all. DELAY says how many seconds their time may be from ours.
peer MOC bind sha256 60 a1b2c3d4e5f6
peer SCIENCE none sha1 60 000000000000

# Return all frames: raf ID OWNER MODE SIZE LATENCY TIMEOUT. OWNER is a peer of a line above. MODE
# is timely, complete or offline; SIZE is a transfer buffer's items; LATENCY is seconds, and 0 for
# offline; TIMEOUT is the return timeout in seconds.
raf sagr=1.spack=pass-1.rsl-fg=1.raf=onlt1 MOC timely 10 2 60
raf sagr=1.spack=pass-1.rsl-fg=1.raf=onlc1 MOC complete 100 5 60
raf sagr=1.spack=pass-1.rsl-fg=1.raf=offl1 SCIENCE offline 1000 0 60

# Return channel frames: the same, and 1 to 8 channels SPACECRAFT/VERSION/CHANNEL, with * for the
# master channel.
rcf sagr=1.spack=pass-1.rsl-fg=1.rcf=onlc1 MOC complete 100 5 60 171/0/0 171/0/7
rcf sagr=1.spack=pass-1.rsl-fg=1.rcf=offl1 SCIENCE offline 1000 0 60 171/0/*

# Forward CLTU: cltu ID OWNER ROOM LONGEST TIMEOUT. ROOM is how many octets may wait, LONGEST how
# many a CLTU has at most. A station has one such instance at most.
cltu sagr=1.spack=pass-1.fsl-fg=1.cltu=cltu1 MOC 1048576 2048 60
 = provider GROUND-1 [94, 111, 112, 129, 146, 147], capacity 268435456, intervals 5 to 60,
    factors 2 to 5, versions [4, 5];
    peer MOC Bind SHA-256 60 [161, 178, 195, 212, 229, 246];
    peer SCIENCE Nothing SHA-1 60 [0, 0, 0, 0, 0, 0];
    return instance sagr=1.spack=pass-1.rsl-fg=1.raf=onlt1 of 0, 60 seconds:
        Raf { mode: TimelyOnline, size: 10, latency: 2 };
    return instance sagr=1.spack=pass-1.rsl-fg=1.raf=onlc1 of 0, 60 seconds:
        Raf { mode: CompleteOnline, size: 100, latency: 5 };
    return instance sagr=1.spack=pass-1.rsl-fg=1.raf=offl1 of 1, 60 seconds:
        Raf { mode: Offline, size: 1000, latency: 0 };
    return instance sagr=1.spack=pass-1.rsl-fg=1.rcf=onlc1 of 0, 60 seconds:
        Rcf { mode: CompleteOnline, size: 100, latency: 5, channels: Channels { held: [Gvcid {
        spacecraft: 171,
        version: 0, channel: Virtual(0) }, Gvcid { spacecraft: 171, version: 0,
        channel: Virtual(7) }] } };
    return instance sagr=1.spack=pass-1.rsl-fg=1.rcf=offl1 of 1, 60 seconds:
        Rcf { mode: Offline, size: 1000, latency: 0, channels: Channels { held: [Gvcid {
        spacecraft: 171,
        version: 0, channel: Master }] } };
    forward instance sagr=1.spack=pass-1.fsl-fg=1.cltu=cltu1 of 0, 60 seconds:
        Cltu { room: 1048576, longest: 2048 }|";
