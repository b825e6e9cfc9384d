// Streams of RAF. The lines were written by hand from the table of lines.

/// To one who reads it.
pub const SHOWN: &str = "
A1, EOD = | frame 20000/1000/0 0 -1 41 0010a1| end| Done;
a83c a01c 8000 80084e20000003e80000 810141 0201ff 020100 8000 04030010a1 a01c 8000
    80084e20000007d00000 810141 020100 020101 8000 04030010a2
    = | frame 20000/1000/0 0 -1 41 0010a1| frame 20000/2000/0 1 0 41 0010a2| Done;
a838 a036 81080102030405060708 810affffffffffffffffffff 8110000102030405060708090a0b0c0d0e0f
    020400ffffff 020102 8000 0401ff
    = | frame 65535/4294967295/4294967295p 2 16777215 000102030405060708090a0b0c0d0e0f ff| Done;
a820 a01e 8000 80084e20000003e803e7 80032a0304 0201ff 020101 8000 04030010a1
    = | frame 20000/1000/999 1 -1 oid:2a0304 0010a1| Done;
a819 a117 8000 a013 80084e20000005dc0000 020100 020103 020101, a807 a105 8000 810102,
    a806 a104 8000 8200, EOD, a800
    = | loss 20000/1500/0 0 3 1| production 2| backlog| end| Done;
a917 8000 020101 020102 020103 020100 020101 020102 020100 = | report 1 2 3 0 1 2 0| Done;
SR = | ok 1| Done;
START, START-SOME = | invoke 0| invoke 0| Done;
A1, START-RCF = | frame 20000/1000/0 0 -1 41 0010a1| bad message 40| BadMessage;
a821 a104 8000 8200 a019 8000 80084e20000003e80000 810141 0201ff 8000 0403407fa1
    = | bad message 0| BadMessage;
EOD, a914 8000 020100 020103 020103 020103 020103 020100 = | end| bad message 16| BadMessage;
EOD, TRANSFERRED-7 = | end| bad message 16| BadMessage;";

/// To one who receives frames.
pub const HEARD: &str = "
= CONTEXT, BIND| PeerEnded;
BR, SR, A1, EOD, STOPPED-1, UNBOUND = CONTEXT, BIND, START, STOP-1, UNBIND
    | ok 101| ok 1| frame 20000/1000/0 0 -1 41 0010a1| end| ok 3| ok 103| Done;
BR, NO-START, SR = CONTEXT, BIND, START| ok 101| no 1 4| Refused;
bf650e 8000 1a0753544154494f4e 810104, BR = CONTEXT, BIND| no 101 4| Refused;
BR, SR, A1 = CONTEXT, BIND, START| ok 101| ok 1| frame 20000/1000/0 0 -1 41 0010a1| PeerEnded;
BR, SR, !0100000000000020a81e = CONTEXT, BIND, START| ok 101| ok 1| PeerEnded;
BR, ABORT, SR = CONTEXT, BIND, START| ok 101| abort 127| PeerEnded;
BR, SR, !04, A1 = CONTEXT, BIND, START| ok 101| ok 1| bad message 42| BadMessage;
BR, TRANSFERRED-7, SR = CONTEXT, BIND, START| ok 101| bad message 25| BadMessage;
SR, BR, EOD, SR, UNBOUND = CONTEXT, BIND, START, STOP-1
    | ok 1| ok 101| end| ok 1| ok 103| PeerEnded;";
