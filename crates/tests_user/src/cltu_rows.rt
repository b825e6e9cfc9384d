// Streams of the forward service. The lines were written by hand from the table of lines.

/// To one who reads it.
pub const SHOWN: &str = "
SF, a90a 8000 020100 020107 8000, TRANSFERRED-7 = | ok 1| ok 9| ok 11 8 997| Done;
a90d 8000 020100 020107 a103 810101, ab11 8000 020101 020107 020203e5 a103 810102,
    ab16 8000 020101 020500ffffffff 020300ffff a103 80017f
    = | no 9 1| no 11 2 7 997| no 11 127 4294967295 65535| Done;
ac0e 8000 8000 8000 8000 020100 020103, ac0e 8000 8100 8000 8000 020100 020103,
    ac0e 8000 8200 8000 8000 020102 020103, ac0e 8000 8300 8000 8000 020103 020103,
    ac0e 8000 8400 8000 8000 020100 020103, EMPTY-7, ac0f 8000 860107 8000 8000 020100 020103,
    ac0f 8000 870107 8000 8000 020100 020103, ac0f 8000 880107 8000 8000 020100 020103
    = | notice 0| notice 1| notice 2| notice 3| notice 4| notice 5| notice 6| notice 7| notice 8
      | Done;
ad2b 8000 a112 020107 a10a 80084e20000000000000 020104 8000 020100 020103 020103 020102 020101
    020203e5
    = | report 0 3 3 2 1 997| Done;
START-CLTU, TRANSFER-7, TRANSFER-8, a80d 8000 020100 020107 020101 0400
    = | invoke 0| invoke 10| invoke 10| invoke 8| Done;
START-CLTU, START = | invoke 0| bad message 18| BadMessage;
BEAT, A1 = | bad message 8| BadMessage;
SF, SR = | ok 1| bad message 29| BadMessage;
BEAT, a917 8000 020100 020100 020103 020103 020103 020103 020100 = | bad message 8| BadMessage;";

/// To one who sends the telecommand 7.
pub const ONE: &str = "
BR, SF, TRANSFERRED-7, EMPTY-7, STOPPED-2, UNBOUND
    = CONTEXT, BIND-CLTU, START-CLTU, TRANSFER-7, STOP-2, UNBIND
    | ok 101| ok 1| ok 11 8 997| notice 5| ok 3| ok 103| Done;
BR, SF, ab11 8000 020101 020107 020203e5 a103 810102, EMPTY-7
    = CONTEXT, BIND-CLTU, START-CLTU, TRANSFER-7| ok 101| ok 1| no 11 2 7 997| Refused;";

/// To one who sends the telecommands 7 and 8.
pub const TWO: &str = "
BR, SF, TRANSFERRED-7, EMPTY-7, TRANSFERRED-8, EMPTY-8, STOPPED-3, UNBOUND
    = CONTEXT, BIND-CLTU, START-CLTU, TRANSFER-7, TRANSFER-8, STOP-3, UNBIND
    | ok 101| ok 1| ok 11 8 997| notice 5| ok 11 9 994| notice 5| ok 3| ok 103| Done;";
