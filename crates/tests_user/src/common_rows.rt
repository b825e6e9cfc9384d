// What a stream of any service says to one who reads it. The lines were written by hand from the
// table of lines.

pub const SHOWN: &str = "
= | Done;
CONTEXT, BEAT = | Done;
BR, STOPPED-1, a507 8000 020100 8000, UNBOUND = | ok 101| ok 3| ok 5| ok 103| Done;
bf650e 8000 1a0753544154494f4e 810108, NO-START, a10a 8000 020100 a103 80017f,
    a308 8000 020100 81017f, a50a 8000 020100 a103 810102, a70a 8000 020100 a103 810100
    = | no 101 8| no 1 4| no 1 127| no 3 127| no 5 2| no 7 0| Done;
a70f 8000 020100 a008 a006 020104 02010a, a70f 8000 020100 a008 a106 020106 020102,
    a70f 8000 020100 a008 a206 02010f 800105, a70e 8000 020100 a007 a305 02011a 8000,
    a70f 8000 020100 a008 a406 02011b 020102, a70e 8000 020100 a007 a405 02011c 8000,
    a717 8000 020100 a010 a40e 02011c a109 020101 020101 81013f,
    a70f 8000 020100 a008 a506 02011d 02013c
    = | parameter 4| parameter 6| parameter 15| parameter 26| parameter 27| parameter 28
      | parameter 28| parameter 29| Done;
ABORT, BEAT, UNBOUND = | abort 127| ok 103| Done;
BIND, UNBIND, STOP-1, a407 8000 020100 8000, a407 8000 020100 8200, a608 8000 020100 020104
    = | invoke 100| invoke 102| invoke 2| invoke 4| invoke 4| invoke 6| Done;
STOP-1, !0100000000000000, STOP-1 = | invoke 2| bad message 15| BadMessage;
BEAT, !04, BEAT = | bad message 8| BadMessage;
BEAT, !010001, BEAT = | bad message 8| BadMessage;
BEAT, !0100000000100001, BEAT = | bad message 8| BadMessage;
BEAT, !0300000000000001, BEAT = | bad message 8| BadMessage;
!020000000000000c495350310000000001001e0005 = | bad message 0| BadMessage;
STOP-1, a205 8000 0201ff, STOP-1 = | invoke 2| bad message 15| BadMessage;
UNBOUND, a20b 8000 020100 8000 8000 8000 = | ok 103| bad message 15| BadMessage;
BEAT, a70f 8000 020100 a008 a006 020106 02010a = | bad message 8| BadMessage;
BEAT, BEAT, bf690100 = | bad message 16| BadMessage;
UNBOUND, !0100000000000007bf6704800080 = | ok 103| bad message 15| BadMessage;
UNBOUND, !01 = | ok 103| bad message 15| BadMessage;";
