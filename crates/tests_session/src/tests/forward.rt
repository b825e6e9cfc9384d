// Scripts of an FCLTU instance (CCSDS 912.1-B): its START, CLTUs and what became of them, and STOP.

// CLTUs are taken one after the other, and one whose window has passed blocks the run. That a CLTU was
// radiated isn't told where it wasn't wanted.
pub const QUEUED: &str = "\
open 1
in 1 CONTEXT=heard 20
in 1 MOC-16-5-FW=heard 101 sent OK-5
in 1 CLTU-7=heard 33 Aborted { diagnostic: ProtocolError }
quit 1
open 1
in 1 CONTEXT=heard 20
in 1 MOC-16-5-FW=heard 101 sent OK-5
in 1 START-7=heard 18 sent SF
in 1 CLTU-7-10=heard 43 sent TAKEN-8-997
in 1 CLTU-8-9=heard 43 sent TAKEN-9-994
in 1 CLTU-9=heard 33 sent TAKEN-10-991
in 1 CLTU-9=heard 33 sent REFUSED-2-991
clock 10
take=radiated 7 aa0007
done=
take=expired 8
round 1=silence sent EXPIRED-8
round 1=silence
in 1 CLTU-10=heard 33 sent BLOCKED-1000
take=idle
in 1 STOP=heard 15 sent STOPPED
in 1 UNBIND=heard 16 sent UNBOUND Unbound
";

// A round tells one notice, behind its return and its report. While a block waits none is told, and a
// later one of production takes the place of the last.
pub const TOLD: &str = "\
open 1
in 1 CONTEXT=heard 20
in 1 MOC-16-5-FW=heard 101 sent OK-5
in 1 REPORT=heard 17 sent SCHEDULED-NONE
stall 1 2
in 1 START-7=heard 18 stalled SF
uplink 3
round 1=stalled SF
uplink 0
round 1=sent SF silence sent OPERATING
round 1=silence
in 1 CLTU-7=heard 33 sent BLOCKED-7-1000
in 1 STOP=heard 15 sent STOPPED
in 1 START-7=heard 18 sent SF
in 1 CLTU-7-TOLD=heard 33 sent TAKEN-8-997
take=radiated 7 aa0007
in 1 REPORT=heard 17 sent SCHEDULED-AIR
done=
round 1=silence sent RADIATED-7
round 1=silence sent EMPTY-7
round 1=silence
uplink 3
in 1 REPORT=heard 17 sent SCHEDULED-HALTED
in 1 STOP=heard 15 sent STOPPED
in 1 START-7=heard 18 sent SR-0
";

// What is asked besides, and an ask that doesn't fit what the door has begun by itself.
pub const BESIDES: &str = "\
open 1
in 1 CONTEXT=heard 20
in 1 MOC-16-5-FW=heard 101 sent OK-5
in 1 THROW=heard 23 sent NOT-SUPPORTED
in 1 GET-6=heard 18 sent FORWARD
in 1 GET-4=heard 18 sent UNKNOWN
in 1 START-7=heard 18 sent SF
in 1 THROW=heard 23 sent NOT-SUPPORTED
in 1 START=heard 22 Aborted { diagnostic: EncodingError }
new
open 1
in 1 CONTEXT=heard 20
in 1 MOC-16-5-FW=heard 101 sent OK-5
start 1 7=Started { now: 0 }
in 1 START-7=heard 18 Aborted { diagnostic: OtherReason }
";
