// Streams of RCF, where they differ from those of RAF. The lines were written by hand from the table
// of lines.

/// To one who reads it.
pub const SHOWN: &str = "
a81b a019 8000 80084e20000003e80000 810141 0201ff 8000 0403407fa1, EOD
    = | frame 20000/1000/0 -1 41 407fa1| end| Done;
a81d a01b 8000 80084e20000003e803e7 80032a0304 0201ff 8000 04030010a1
    = | frame 20000/1000/999 -1 oid:2a0304 0010a1| Done;
a819 a117 8000 a013 80084e20000005dc0000 020100 020103 020101, a807 a105 8000 810102,
    a806 a104 8000 8200, a800
    = | loss 20000/1500/0 0 3 1| production 2| backlog| Done;
a914 8000 020102 020103 020100 020101 020102 020100 = | report 2 3 0 1 2 0| Done;
SR = | ok 1| Done;
START-RCF = | invoke 0| Done;
EOD, START = | end| bad message 16| BadMessage;
EOD, A1 = | end| bad message 16| BadMessage;
EOD, a917 8000 020100 020100 020103 020103 020103 020103 020100
    = | end| bad message 16| BadMessage;";

/// To one who receives frames.
pub const HEARD: &str = "
BR, SR, a81b a019 8000 80084e20000003e80000 810141 0201ff 8000 0403407fa1, EOD, STOPPED-1, UNBOUND
    = CONTEXT, BIND-RCF, START-RCF, STOP-1, UNBIND
    | ok 101| ok 1| frame 20000/1000/0 -1 41 407fa1| end| ok 3| ok 103| Done;
BR, a10a 8000 020100 a103 810105 = CONTEXT, BIND-RCF, START-RCF| ok 101| no 1 5| Refused;";
