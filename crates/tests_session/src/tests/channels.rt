// Scripts of RCF instances (CCSDS 911.2-B), and of status reports and parameters of both return
// services.

// A channel that isn't permitted, and one that is: its good frames, and no others.
pub const SELECTED: &str = "\
open 1
in 1 CONTEXT=heard 20
in 1 BIND-2 CC=heard 101 sent OK-5
in 1 START-62=heard 30 sent SR-5
in 1 GET-28=heard 18 sent NO-CHANNEL
in 1 START-63=heard 40 sent SR
in 1 GET-28=heard 18 sent CHANNEL-63
in 1 GET-27=heard 18 sent UNKNOWN
frame 500 007ea0
frame 1000 407fa1
round 1=silence sent C1
round 1=silence
in 1 STOP=heard 15 sent STOPPED
in 1 START=heard 22 Aborted { diagnostic: EncodingError }
new
open 1
in 1 CONTEXT=heard 20
in 1 MOC-0-5-RC=heard 101 sent OK-5
in 1 START-62=heard 30 Aborted { diagnostic: EncodingError }
";

// Reports at once, and what is refused, in the order of the diagnostics.
pub const ASKED: &str = "\
open 1
in 1 CONTEXT=heard 20
in 1 MOC-0-5-RC=heard 101 sent OK-5
in 1 REPORT=heard 17 sent SCHEDULED-NOTHING
in 1 REPORT-STOP=heard 17 sent REPORT-1
in 1 REPORT-OF-1=heard 18 sent REPORT-2
round 1=silence
new
open 1
in 1 CONTEXT=heard 20
in 1 BIND RO=heard 101 sent OK-5
in 1 REPORT=heard 17 sent REPORT-0
in 1 REPORT-STOP=heard 17 sent REPORT-0
in 1 REPORT-OF-1=heard 18 sent REPORT-0
new
open 1
in 1 CONTEXT=heard 20
in 1 BIND RX=heard 101 sent OK-5
in 1 GET-4=heard 18 sent SIZE-10
in 1 GET-9=heard 18 sent UNKNOWN
in 1 UNBIND=heard 16 sent UNBOUND Unbound
";

// A cycle of two seconds, over a START and a STOP, with the counts since the BIND; another user is
// told nothing of it.
pub const CYCLED: &str = "\
open 1
in 1 CONTEXT=heard 20
in 1 MOC-0-5-RC=heard 101 sent OK-5
open 2
in 2 CONTEXT=heard 20
in 2 BIND RX=heard 101 sent OK-5
in 1 REPORT-OF-2=heard 18 sent SCHEDULED-NOTHING
clock 1999999
round 1=silence
clock 2000000
round 2=silence
round 1=silence sent NOTHING
round 1=silence
in 1 START=heard 22 sent SR
frame 1000 0010a1
round 1=silence sent A1
in 1 STOP=heard 15 sent STOPPED
in 1 START=heard 22 sent SR
clock 4000000
round 1=silence sent ONE
in 1 REPORT-STOP=heard 17 sent SCHEDULED
clock 9000000
round 1=silence
";
