// Scripts of RAF instances (CCSDS 911.1-B): a frame's step names the milliseconds of its time.

// START, a buffer in each round, STOP, and a START again, which begins behind what is there.
pub const STARTED: &str = "\
open 1
in 1 CONTEXT=heard 20
frame 1000 0010a1
in 1 MOC-0-5-RC=heard 101 sent OK-5
round 1=silence
in 1 START=heard 22 sent SR
frame 2000 0010a2
frame 3000 0010a3
round 1=silence sent A2
round 1=silence sent A3
round 1=silence
in 1 STOP=heard 15 sent STOPPED
frame 3500 0010a3
round 1=silence
in 1 START=heard 22 sent SR
frame 4000 0010a4
round 1=silence sent A4
in 1 START=heard 22 Aborted { diagnostic: ProtocolError }
frame 5000 0010a5
round 1=Aborted { diagnostic: ProtocolError }
new
open 1
in 1 CONTEXT=heard 20
in 1 MOC-0-5-RC=heard 101 sent OK-5
in 1 START=heard 22 sent SR
in 1 UNBIND=heard 16 Aborted { diagnostic: ProtocolError }
new
open 1
in 1 CONTEXT=heard 20
in 1 MOC-0-5-RC=heard 101 sent OK-5
in 1 START=heard 22 sent SR
in 1 STOP=heard 15 sent STOPPED
in 1 UNBIND=heard 16 sent UNBOUND Unbound
";

// A complete delivery keeps a buffer that stalls, until it is taken or the user stops.
pub const KEPT: &str = "\
open 1
in 1 CONTEXT=heard 20
in 1 MOC-0-5-RC=heard 101 sent OK-5
stall 1 1
in 1 START=heard 22 stalled SR
frame 1000 0010a1
frame 2000 0010a2
stall 1 2
round 1=stalled SR
round 1=stalled SR
round 1=sent SR silence sent A1
stall 1 1
in 1 BEAT=heard 8 stalled A2-0
frame 3000 0010a3
round 1=silence sent A2-0
round 1=silence sent A3
frame 4000 0010a4
stall 1 1
round 1=silence stalled A4-0
in 1 STOP=heard 15 sent STOPPED
round 1=silence
";

// A timely one drops a buffer with entries that stalls, and tells so before the next.
pub const DROPPED: &str = "\
open 1
in 1 CONTEXT=heard 20
in 1 BIND RT=heard 101 sent OK-5
in 1 START=heard 22 sent SR
frame 1000 0010a1
stall 1 2
round 1=silence stalled A1 dropped 1
round 1=silence stalled BACKLOG
frame 2000 0010a2
round 1=silence sent BACKLOG
round 1=silence sent A2
";

// An offline one hands over what is there, and the end of data once nothing more can come.
pub const OFFLINE: &str = "\
open 1
in 1 CONTEXT=heard 20
in 1 BIND RO=heard 101 sent OK-5
in 1 START-0=heard 32 sent SR-4
in 1 START-2-1=heard 42 sent SR-3
frame 1000 0010a1
in 1 START-0-1=heard 42 sent SR
round 1=silence
frame 1001 0010a2
round 1=silence sent A1
round 1=silence sent END
round 1=silence
";

// A buffer of ten waits for its latency limit; two users are served side by side, and one that
// stalls doesn't hold the other up.
pub const TWO: &str = "\
open 1
in 1 CONTEXT=heard 20
in 1 BIND RX=heard 101 sent OK-5
in 1 START=heard 22 sent SR
open 2
in 2 CONTEXT=heard 20
in 2 MOC-0-5-RC=heard 101 sent OK-5
in 2 START=heard 22 sent SR
frame 1000 0010a1
round 1=silence
stall 2 9
round 2=silence stalled A1
clock 4999999
round 1=silence
round 2=silence stalled A1
frame 2000 0010a2
clock 5000000
round 1=silence sent A12
round 2=silence stalled A1
";

// Each call of the link fails: a poll, the return, a poll, and the buffer behind it.
pub const FAILED: &str = "\
open 1 4
in 1 CONTEXT=heard 20
in 1 MOC-0-5-RC=heard 101 sent OK-5
in 1 START=unheard LinkFault
new
open 1 5
in 1 CONTEXT=heard 20
in 1 MOC-0-5-RC=heard 101 sent OK-5
in 1 START=heard 22 unsent SR LinkFault
frame 1000 0010a1
round 1=LinkFault
new
open 1 6
in 1 CONTEXT=heard 20
in 1 MOC-0-5-RC=heard 101 sent OK-5
in 1 START=heard 22 sent SR
frame 1000 0010a1
round 1=unheard LinkFault
round 1=LinkFault
new
open 1 7
in 1 CONTEXT=heard 20
in 1 MOC-0-5-RC=heard 101 sent OK-5
in 1 START=heard 22 sent SR
frame 1000 0010a1
round 1=silence unsent A1 LinkFault
clock 7000000
round 1=LinkFault
in 1 STOP=LinkFault
listen 1
step 1
speak 1=LinkFault
moment=0
";

// Where every message of the user is signed, so are the returns and each item of a buffer. The
// octets were made with Python's hashlib.
pub const SITE_SIGNED: &[u8] = b"\
password 70617373776f7264\n\
peer MOC all sha1 60 6d6f632d70617373\n\
raf sagr=1.spack=P.rsl-fg=1.raf=onlc1 MOC complete 2 5 60\n";

pub const SIGNED: &str = "\
clock 100000000
open 1
in 1 CONTEXT=heard 20
frame 1000 0010a1
in 1 0100000000000082bf647f8125302304080000000186a00000020101041467d2e08afdf131b6f73c20b590bb78f6f\
615d4b41a034d4f431a05504f5254310201000201053044310e300c06072b7004030102341a0131310e300c06072b70040\
30102351a0150310e300c06072b7004030102261a01313112301006072b7004030102161a056f6e6c6331=heard 138 se\
nt 0100000000000039bf65368128302604080000000186a000000204038ccd130414eb199d640667cb3a9b205656128f1\
e99047ac0521a0753544154494f4e800105
in 1 0100000000000034a0328125302304080000000186a0000002010704141f65ff6cfa472d6fe6227603419f28ee5ae\
201040202010280008000020102=heard 60 sent 0100000000000032a1308128302604080000000186a0000002045921\
4b5004143280abc7ca085a5afd4743a600fdb58c8325d42a020201028000
frame 2000 0010a2
frame 3000 0010a3
round 1=silence sent 010000000000008fa8818ca0448128302604080000000186a00000020427ffa1490414451ece6\
7272ea4b728b53ca5b17944dba6dcbad980084e20000007d000008101410201ff020100800004030010a2a044812830260\
4080000000186a00000020432721a4e041425c914d4785a30a6af64a17a649c08adddb3ee5c80084e2000000bb80000810\
141020100020100800004030010a3
in 1 010000000000002da22b8125302304080000000186a00000020109041469a52d7cd5a80546eedf72397668315de59\
6cdf702020103=heard 53 sent 0100000000000032a3308128302604080000000186a00000020464ed276f0414979995\
addf2ba83e32a97342177ecfbd1ef34a98020201038000
";
