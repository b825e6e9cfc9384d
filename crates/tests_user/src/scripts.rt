// Scripts of turns. The lines were written by hand from the table of lines.

/// One who reads a stream of RAF.
pub const SHOWN: &str = "\
0: A1=| frame 20000/1000/0 0 -1 41 0010a1
1: EOD=| end
2: shut=| Done
3: A1=| Done
new
0: !0100000000000008a8=
40:=
80: !06a10480008300=| end
120: !01=
160: shut=| bad message 16| BadMessage
200: EOD=| BadMessage
";

/// One who receives all frames: as it is served, as its START is refused, with returns that it
/// doesn't wait for, and as it is left.
pub const RAF: &str = "\
0:=CONTEXT, BIND
1: BR=START| ok 101
2: SR=| ok 1
3: A1=| frame 20000/1000/0 0 -1 41 0010a1
4: EOD=STOP-1| end
5: STOPPED-1=UNBIND| ok 3
6: UNBOUND=| ok 103| Done
100: A1=| Done
new
0:=CONTEXT, BIND
1: BR=START| ok 101
2: NO-START=| no 1 4| Refused
40: SR=| Refused
new
0: SR=CONTEXT, BIND| ok 1
1: EOD=| end
2: BR=START| ok 101
3: BR=| ok 101
4: a107 8000 020101 8000=| ok 1
5: a10a 8000 020101 a103 810104=| no 1 4
6: SR=| ok 1
7: STOPPED-1=| ok 3
8: EOD=STOP-1| end
9: EOD=| end
10: a307 8000 020100 8000=| ok 3
11: STOPPED-1=UNBIND| ok 3
12: STOPPED-1=| ok 3
13: UNBOUND=| ok 103| Done
new
0:=CONTEXT, BIND
1: BR=START| ok 101
2: EOD=| end
3: SR=STOP-1| ok 1
4: a308 8000 020101 81017f, UNBOUND=| no 3 127| Refused
new
0:=CONTEXT, BIND
1: 9f680103, BR=| abort 3| PeerEnded
new
0:=CONTEXT, BIND
1: BR=START| ok 101
2: !01=
3: shut=| PeerEnded
new
0:=CONTEXT, BIND
1: BR, !02=START| ok 101
2: !01=| bad message 25| BadMessage
";

/// Heartbeats, also as blocks wait, and no dead timer.
pub const BEATING: &str = "\
0:=CONTEXT, BIND
29:=
30:=BEAT
59: BEAT=
60:=BEAT
89: BR=START| ok 101
118:=
119: BEAT=BEAT
150 waits:=
179: SR=| ok 1
180: A1=BEAT| frame 20000/1000/0 0 -1 41 0010a1
240 waits: EOD=STOP-1| end
269 waits:=
298:=
299:=BEAT
1000000:=BEAT
1000030: STOPPED-1=UNBIND| ok 3
1000060:=BEAT
1000090: UNBOUND=| ok 103| Done
1000120:=| Done
";

/// One who is asked to end: while frames come, once is enough; before START's return came, which STOP
/// waits for; before BIND's; and where STOP was said already.
pub const ASKED: &str = "\
0:=CONTEXT, BIND
1: BR=START| ok 101
2: SR=| ok 1
3: A1=| frame 20000/1000/0 0 -1 41 0010a1
4 asked:=STOP-1
5: A1=| frame 20000/1000/0 0 -1 41 0010a1
6: STOPPED-1=UNBIND| ok 3
7: UNBOUND=| ok 103| Done
8 asked:=| Done
new
0:=CONTEXT, BIND
1: BR=START| ok 101
2 asked:=
3:=
4: SR=STOP-1| ok 1
5 asked: STOPPED-1=UNBIND| ok 3
6 asked: UNBOUND=| ok 103| Done
new
0 asked:=CONTEXT, BIND
1: BR=START| ok 101
2: SR, A1=STOP-1| ok 1| frame 20000/1000/0 0 -1 41 0010a1
3: STOPPED-1, UNBOUND=UNBIND| ok 3| ok 103| Done
new
0:=CONTEXT, BIND
1: BR=START| ok 101
2: SR=| ok 1
3 asked: EOD=STOP-1| end
4 asked: EOD=| end
5: STOPPED-1=UNBIND| ok 3
6: UNBOUND=| ok 103| Done
new
0:=CONTEXT, BIND
1 asked: BR=START| ok 101
2 asked: NO-START=| no 1 4| Refused
";

/// One who only reads, or who sends a telecommand, goes on though it is asked to end.
pub const ASKED_TO_SHOW: &str = "\
0 asked: A1=| frame 20000/1000/0 0 -1 41 0010a1
1 asked: EOD=| end
2 asked: shut=| Done
";

pub const ASKED_TO_SEND: &str = "\
0:=CONTEXT, BIND-CLTU
1: BR=START-CLTU| ok 101
2 asked: SF=TRANSFER-7| ok 1
3 asked:=
";

/// One who wants status reports: they are asked for once, after START's positive return, and their
/// return decides nothing.
pub const REPORTED: &str = "\
0:=CONTEXT, BIND
1: BR=START| ok 101
2: A1=| frame 20000/1000/0 0 -1 41 0010a1
3: SR=SCHEDULE-1| ok 1
4: SCHEDULED-1=| ok 5
5: a917 8000 020101 020102 020103 020100 020101 020102 020100=| report 1 2 3 0 1 2 0
6: SR=| ok 1
7: EOD=STOP-2| end
8: SCHEDULED-1=| ok 5
9: STOPPED-2=UNBIND| ok 3
10: UNBOUND=| ok 103| Done
new
0:=CONTEXT, BIND
1: BR=START| ok 101
2: SR=SCHEDULE-1| ok 1
3: a50a 8000 020101 a103 810102=| no 5 2
4: A1=| frame 20000/1000/0 0 -1 41 0010a1
5 asked:=STOP-2
6: STOPPED-2=UNBIND| ok 3
7: UNBOUND=| ok 103| Done
new
0:=CONTEXT, BIND
1: BR=START| ok 101
2: NO-START=| no 1 4| Refused
new
0:=CONTEXT, BIND
1: BR=START| ok 101
2: a107 8000 020101 8000=| ok 1
3: EOD=| end
4: SR=SCHEDULE-1, STOP-2| ok 1
5: STOPPED-2=UNBIND| ok 3
6: UNBOUND=| ok 103| Done
new
0:=CONTEXT, BIND
1: BR=START| ok 101
2 asked:=
3: SR=SCHEDULE-1, STOP-2| ok 1
4: STOPPED-2, SCHEDULED-1=UNBIND| ok 3| ok 5
5: UNBOUND=| ok 103| Done
";

pub const REPORTED_RCF: &str = "\
0:=CONTEXT, BIND-RCF
1: BR=START-RCF| ok 101
2: SR=a408 8000 020101 810102| ok 1
3: SCHEDULED-1=| ok 5
4: a914 8000 020102 020103 020103 020103 020103 020100=| report 2 3 3 3 3 0
5: EOD=STOP-2| end
";

/// One who sends no telecommand, and wants status reports.
pub const REPORTED_NO_CLTU: &str = "\
0:=CONTEXT, BIND-CLTU
1: BR=START-CLTU| ok 101
2: SF=SCHEDULE-1, STOP-2| ok 1
3: SCHEDULED-1=| ok 5
4: STOPPED-2=UNBIND| ok 3
5: UNBOUND=| ok 103| Done
";

/// One who sends the telecommands 7 and 8, and wants status reports: telecommands have the numbers
/// after theirs, and what STOP waits for comes after the last of them.
pub const REPORTED_CLTUS: &str = "\
0:=CONTEXT, BIND-CLTU
1: BR=START-CLTU| ok 101
2: SF=SCHEDULE-600, TRANSFER-7-2| ok 1
3: EMPTY-8=| notice 5
4: ab0e 8000 020102 020108 020203e5 8000=TRANSFER-8-3| ok 11 8 997
5: SCHEDULED-1=| ok 5
6: ab0e 8000 020103 020109 020203e2 8000=| ok 11 9 994
7: EMPTY-7=| notice 5
8: EMPTY-8=a205 8000 020104| notice 5
";

/// One who receives good frames of a second.
pub const SOME: &str = "\
0:=CONTEXT, BIND
1: BR=START-SOME| ok 101
2: SR=| ok 1
";

/// One who sends no telecommand.
pub const NO_CLTU: &str = "\
0:=CONTEXT, BIND-CLTU
1: BR=START-CLTU| ok 101
2: SF=STOP-1| ok 1
3: STOPPED-1=UNBIND| ok 3
4: UNBOUND=| ok 103| Done
";

/// One who sends the telecommand 7: what STOP waits for comes behind its return, of each kind, and
/// before it; notices before START was said don't count.
pub const ONE_CLTU: &str = "\
0:=CONTEXT, BIND-CLTU
1: BR=START-CLTU| ok 101
2: SF=TRANSFER-7| ok 1
3: TRANSFERRED-7=| ok 11 8 997
4: ac0e 8000 8000 8000 8000 020100 020103=| notice 0
5: ac0e 8000 8400 8000 8000 020100 020103=| notice 4
6: ac0e 8000 8500 8000 8000 020100 020103=| notice 5
7: EMPTY-8=| notice 5
8: ac0f 8000 860107 8000 8000 020100 020103=| notice 6
9: ac0f 8000 870107 8000 8000 020100 020103=| notice 7
10: ac0f 8000 880107 8000 8000 020100 020103=| notice 8
11: EMPTY-7=STOP-2| notice 5
12: EMPTY-7=| notice 5
13: STOPPED-2=UNBIND| ok 3
14: UNBOUND=| ok 103| Done
new
0:=CONTEXT, BIND-CLTU
1: BR=START-CLTU| ok 101
2: SF=TRANSFER-7| ok 1
3: TRANSFERRED-7=| ok 11 8 997
4: ac0e 8000 8100 8000 8000 020100 020103=STOP-2| notice 1
new
0:=CONTEXT, BIND-CLTU
1: BR=START-CLTU| ok 101
2: SF=TRANSFER-7| ok 1
3: TRANSFERRED-7=| ok 11 8 997
4: ac0e 8000 8200 8000 8000 020102 020103=STOP-2| notice 2
new
0:=CONTEXT, BIND-CLTU
1: BR=START-CLTU| ok 101
2: SF=TRANSFER-7| ok 1
3: TRANSFERRED-7=| ok 11 8 997
4: ac0e 8000 8300 8000 8000 020103 020103=STOP-2| notice 3
new
0:=CONTEXT, BIND-CLTU
1: BR=START-CLTU| ok 101
2: SF=TRANSFER-7| ok 1
3: EMPTY-7=| notice 5
4: TRANSFERRED-7=STOP-2| ok 11 8 997
new
0:=CONTEXT, BIND-CLTU
1: BR=START-CLTU| ok 101
2: ac0e 8000 8300 8000 8000 020103 020103=| notice 3
3: SF=TRANSFER-7| ok 1
4: TRANSFERRED-7=STOP-2| ok 11 8 997
new
0:=CONTEXT, BIND-CLTU
1: ac0e 8000 8300 8000 8000 020103 020103=| notice 3
2: BR=START-CLTU| ok 101
3: SF=TRANSFER-7| ok 1
4: TRANSFERRED-7=| ok 11 8 997
5: EMPTY-7=STOP-2| notice 5
";

/// One who sends the telecommands 7 and 8: one behind the return of the other.
pub const TWO_CLTUS: &str = "\
0:=CONTEXT, BIND-CLTU
1: BR=START-CLTU| ok 101
2: SF=TRANSFER-7| ok 1
3: EMPTY-7=| notice 5
4: TRANSFERRED-7=TRANSFER-8| ok 11 8 997
5: TRANSFERRED-7=| ok 11 8 997
6: EMPTY-7=| notice 5
7: TRANSFERRED-8=| ok 11 9 994
8: EMPTY-7=| notice 5
9: EMPTY-8=STOP-3| notice 5
10: STOPPED-3=UNBIND| ok 3
11: UNBOUND=| ok 103| Done
new
0:=CONTEXT, BIND-CLTU
1: BR=START-CLTU| ok 101
2: SF=TRANSFER-7| ok 1
3: ac0e 8000 8100 8000 8000 020100 020103=| notice 1
4: TRANSFERRED-7=TRANSFER-8| ok 11 8 997
5: TRANSFERRED-8=STOP-3| ok 11 9 994
";

/// One whose credentials are by SHA-1.
pub const SIGNED_RAF: &str = "\
0:=CONTEXT, BIND-SHA-1
1: BR=START-SHA-1| ok 101
2: SR=| ok 1
4: EOD=STOP-SHA-1| end
5: STOPPED-1=UNBIND-SHA-1| ok 3
6: UNBOUND=| ok 103| Done
";

/// One whose credentials are by SHA-256.
pub const SIGNED_CLTU: &str = "\
0:=CONTEXT, BIND-SHA-256
30:=BEAT
31: BR=START-SHA-256| ok 101
32: SF=TRANSFER-SHA-256| ok 1
33: TRANSFERRED-7, EMPTY-7=STOP-SHA-256| ok 11 8 997| notice 5
34: STOPPED-2=UNBIND-SHA-256| ok 3
35: UNBOUND=| ok 103| Done
";
