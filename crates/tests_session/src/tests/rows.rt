// Scripts of rounds.

// BINDs at a second door, refused for each cause; two end the session. Where a peer's level asks
// for none, its credentials may be any.
pub const REFUSED: &str = "\
open 1
in 1 CONTEXT=heard 20
in 1 MOC-0-5-RC=heard 101 sent OK-5
open 2
in 2 CONTEXT=heard 20
in 2 MOC-0-5-RC=heard 101 sent NO-4
in 2 MOC-2-5-RC=heard 101 sent NO-6
in 2 OTHER-0-5-RC=heard 103 sent NO-5
in 2 MOC-0-5-X=heard 65 sent NO-3
in 2 MOC-0-3-RC=heard 101 sent NO-2
in 2 MOC-4-5-RC=heard 101 sent NO-1
in 2 SEC-0-5-RC=heard 101 sent NO-0 Denied
open 3
in 3 CONTEXT=heard 20
in 3 NOBODY-0-5-RC=heard 104 sent NO-0 Denied
open 4
in 4 CONTEXT=heard 20
in 4 MOC-0-5-RC=heard 101 sent NO-4
in 4 MOC-0-4-RT=heard 101 sent OK-4
bind 9 0=AlreadyBound
bind 9 2=Bound
new
open 1
in 1 CONTEXT=heard 20
in 1 MOC-USED=heard 109 sent OK-5
";

// Each pair of a state and a message that has no place there, or doesn't decode.
pub const OUT_OF_PLACE: &str = "\
open 1
in 1 BEAT=heard 8 Aborted { diagnostic: ProtocolError }
new
open 1
in 1 MOC-0-5-RC=heard 101 Aborted { diagnostic: ProtocolError }
new
open 1
in 1 ABORT=heard 12 Aborted { diagnostic: ProtocolError }
new
open 1
in 1 0100000000000004bf640130=heard 12 Aborted { diagnostic: ProtocolError }
new
open 1
in 1 CONTEXT=heard 20
in 1 CONTEXT=heard 20 Aborted { diagnostic: ProtocolError }
new
open 1
in 1 CONTEXT=heard 20
in 1 UNBIND=heard 16 Aborted { diagnostic: ProtocolError }
new
open 1
in 1 CONTEXT=heard 20
in 1 STOP=heard 15 Aborted { diagnostic: ProtocolError }
new
open 1
in 1 CONTEXT=heard 20
in 1 01000000000000039f6400=heard 11 Aborted { diagnostic: ProtocolError }
new
open 1
in 1 CONTEXT=heard 20
in 1 0100000000000003bf6800=heard 11 Aborted { diagnostic: ProtocolError }
new
open 1
in 1 CONTEXT=heard 20
in 1 MOC-0-5-RC=heard 101 sent OK-5
in 1 MOC-0-5-RC=heard 101 Aborted { diagnostic: ProtocolError }
bind 9 1=AlreadyBound
quit 1
bind 9 1=Bound
new
open 1
in 1 CONTEXT=heard 20
in 1 MOC-0-5-RC=heard 101 sent OK-5
in 1 NOBODY-0-5-RC=heard 104 Aborted { diagnostic: ProtocolError }
new
open 1
in 1 CONTEXT=heard 20
in 1 MOC-0-5-RC=heard 101 sent OK-5
in 1 CONTEXT=heard 20 Aborted { diagnostic: ProtocolError }
";

pub const MALFORMED: &str = "\
open 1
in 1 CONTEXT=heard 20
in 1 0100000000000004bf640130=heard 12 Aborted { diagnostic: EncodingError }
round 1=Aborted { diagnostic: EncodingError }
new
open 1
in 1 CONTEXT=heard 20
in 1 0100000000000000=heard 8 Aborted { diagnostic: EncodingError }
new
open 1
in 1 CONTEXT=heard 20
in 1 0100000000000001bf=heard 9 Aborted { diagnostic: EncodingError }
new
open 1
in 1 CONTEXT=heard 20
in 1 0100000000000002bfe4=heard 10 Aborted { diagnostic: EncodingError }
new
open 1
in 1 CONTEXT=heard 20
in 1 01000000000000049f6801ff=heard 12 Aborted { diagnostic: EncodingError }
new
open 1
in 1 CONTEXT=heard 20
in 1 01000000000000059f68017f00=heard 13 Aborted { diagnostic: EncodingError }
new
open 1
in 1 CONTEXT=heard 20
in 1 MOC-0-5-RC=heard 101 sent OK-5
in 1 0100000000000004bf640130=heard 12 Aborted { diagnostic: EncodingError }
new
open 1
in 1 CONTEXT=heard 20
in 1 MOC-0-5-RC=heard 101 sent OK-5
in 1 0100000000000004bf660130=heard 12 Aborted { diagnostic: EncodingError }
new
open 1
in 1 CONTEXT=heard 20
in 1 MOC-0-5-RC=heard 101 sent OK-5
in 1 STOP=heard 15 Aborted { diagnostic: ProtocolError }
new
open 1
in 1 CONTEXT=heard 20
in 1 MOC-0-5-RC=heard 101 sent OK-5
in 1 0100000000000000=heard 8 Aborted { diagnostic: EncodingError }
";

pub const ENDED: &str = "\
open 1
in 1 020000000000000c495350310000000100010005=heard 20 Range { interval: 1, factor: 5 }
new
open 1
in 1 CONTEXT=heard 20
in 1 030000000000000100=heard 9 Broken(BadLength { place: 24 })
new
open 1
in 1 CONTEXT=heard 20
in 1 0100000000100001=heard 8 Broken(TooLong { length: 1048577 })
new
open 1
in 1 CONTEXT=heard 20
clock 150000000
round 1=silence Aborted { diagnostic: CommunicationsFailure }
new
open 1
in 1 CONTEXT=heard 20
in 1 ABORT=heard 12 PeerAborted { diagnostic: 127 }
new
open 1
in 1 CONTEXT=heard 20
shut 1
round 1=close PeerClosed
new
open 1
in 1 CONTEXT=heard 20
break 1
round 1=unheard LinkFault
new
open 1
in 1 04=heard 1 Broken(BadType { place: 0 })
new
open 1
in 1 CONTEXT=heard 20
in 1 BEAT 030001=heard 11 Broken(NotZero { place: 30 })
new
open 1
in 1 020000000000000c49535031000000000100=heard 18 Broken(BadContext { place: 15 })
";

pub const AGREED: &str = "\
open 1
in 1 020000000000000c495350310000000100050002=heard 20
open 2
in 2 020000000000000c49535031000000010e100064=heard 20
open 3
in 3 020000000000000c495350310000000100000002=heard 20
open 4
in 4 020000000000000c495350310000000100040002=heard 20 Range { interval: 4, factor: 2 }
open 5
in 5 020000000000000c49535031000000010e110064=heard 20 Range { interval: 3601, factor: 100 }
open 6
in 6 020000000000000c495350310000000100050001=heard 20 Range { interval: 5, factor: 1 }
open 7
in 7 020000000000000c49535031000000010e100065=heard 20 Range { interval: 3600, factor: 101 }
open 8
in 8 020000000000000c495350310000000100000001=heard 20 Range { interval: 0, factor: 1 }
clock 4000000000
in 3 BEAT=heard 8
round 3=silence
";

pub const REPEATED: &str = "\
open 1
in 1 CONTEXT=heard 20
in 1 ABORT=heard 12 PeerAborted { diagnostic: 127 }
clock 40000000
in 1 MOC-0-5-RC=PeerAborted { diagnostic: 127 }
break 1
round 1=PeerAborted { diagnostic: 127 }
moment=0
listen 1=
step 1=
speak 1=PeerAborted { diagnostic: 127 }
moment=0
bind 9 1=Bound
";

pub const ONE_A_ROUND: &str = "\
open 1
piece 1 CONTEXT MOC-0-5-RC UNBIND
piece 1 BEAT
round 1=heard 137
round 1=sent OK-5
round 1=sent UNBOUND Unbound
new
open 1
piece 1 CONTEXT MOC-0-5-RC 0300
shut 1
round 1=heard 123
round 1=sent OK-5
round 1=close PeerClosed
new
open 1
in 1 CONTEXT=heard 20
in 1 BEAT MOC-0-5-RC 00=heard 110 Broken(BadType { place: 129 })
bind 9 1=Bound
new
open 1
piece 1 CONTEXT
listen 1=heard 20
step 1=
speak 1=
piece 1 MOC-0-5-RC BEAT
piece 1 BEAT
listen 1=heard 109
bind 9 1=Bound
quit 9
step 1=
bind 9 1=AlreadyBound
speak 1=sent OK-5
listen 1=
step 1=
speak 1=
round 1=heard 8
round 1=silence
";

pub const STALLED: &str = "\
open 1
in 1 CONTEXT=heard 20
stall 1 2
in 1 MOC-0-5-RC=heard 101 stalled OK-5
in 1 UNBIND=stalled OK-5
bind 9 1=AlreadyBound
round 1=sent OK-5 heard 16 sent UNBOUND Unbound
new
open 1
in 1 CONTEXT=heard 20
stall 1 1
in 1 MOC-0-5-RC ABORT=heard 113 stalled OK-5
round 1=sent OK-5 PeerAborted { diagnostic: 127 }
new
open 1
in 1 CONTEXT=heard 20
in 1 MOC-0-5-RC=heard 101 sent OK-5
stall 1 3
in 1 UNBIND BEAT=heard 24 stalled UNBOUND
bind 9 1=Bound
piece 1 BEAT
round 1=stalled UNBOUND
round 1=stalled UNBOUND
round 1=sent UNBOUND Unbound
round 1=Unbound
new
open 1
in 1 CONTEXT=heard 20
stall 1 1
in 1 NOBODY-0-5-RC=heard 104 stalled NO-0
round 1=sent NO-0 Denied
new
open 1
in 1 CONTEXT=heard 20
stall 1 2
in 1 MOC-16-5-FW=heard 101 stalled OK-5
start 1 7=Started { now: 0 }
uplink 3
round 1=stalled OK-5
told 1=notice productionHalted
";

pub const TIMED: &str = "\
open 1
in 1 CONTEXT=heard 20
clock 29999999
round 1=silence
clock 30000000
round 1=silence sent BEAT
round 1=silence
new
clock 1000000
open 1
clock 31000000
in 1 CONTEXT=heard 20 sent BEAT
round 1=silence
new
clock 40000000
open 1
in 1 CONTEXT=heard 20
clock 9000000
open 2
in 2 CONTEXT=heard 20 sent BEAT
moment=40000000
new
open 1
in 1 CONTEXT=heard 20
clock 20000000
in 1 MOC-0-5-RC=heard 101 sent OK-5
clock 49999999
round 1=silence
clock 50000000
in 1 BEAT=heard 8 sent BEAT
new
open 1
in 1 CONTEXT=heard 20
stall 1 1
clock 30000000
round 1=silence stalled BEAT
clock 60000000
round 1=sent BEAT silence
clock 89999999
round 1=silence
clock 90000000
round 1=silence sent BEAT
";

pub const DEAD: &str = "\
open 1
in 1 CONTEXT=heard 20
clock 149999999
in 1 03=heard 1 sent BEAT
clock 299999998
round 1=silence sent BEAT
clock 299999999
round 1=silence Aborted { diagnostic: CommunicationsFailure }
new
open 1
in 1 CONTEXT=heard 20
stall 1 9
clock 30000000
round 1=silence stalled BEAT
piece 1 BEAT
clock 149999999
round 1=stalled BEAT
clock 150000000
round 1=stalled BEAT Aborted { diagnostic: CommunicationsFailure }
round 1=Aborted { diagnostic: CommunicationsFailure }
new
open 1
in 1 CONTEXT MOC-0-5-RC=heard 121
clock 150000000
round 1=Aborted { diagnostic: CommunicationsFailure }
bind 9 1=AlreadyBound
new
open 1
in 1 CONTEXT=heard 20
in 1 MOC-0-5-RC=heard 101 sent OK-5
stall 1 1
in 1 UNBIND=heard 16 stalled UNBOUND
clock 150000000
round 1=sent UNBOUND Aborted { diagnostic: CommunicationsFailure }
new
open 1
in 1 CONTEXT=heard 20
shut 1
clock 150000000
round 1=close PeerClosed
new
open 1
in 1 CONTEXT=heard 20
break 1
clock 150000000
round 1=unheard LinkFault
";

pub const LOST: &str = "\
open 1
in 1 CONTEXT=heard 20
bind 1 0=Bound
in 1 MOC-0-5-RC=heard 101 Aborted { diagnostic: OtherReason }
bind 9 1=Bound
new
open 1
in 1 CONTEXT=heard 20
in 1 MOC-0-5-RC=heard 101 sent OK-5
quit 1
in 1 UNBIND=heard 16 Aborted { diagnostic: OtherReason }
";

// Each of the first seven calls of a link fails in turn, and at last the offer of a heartbeat.
// Behind the round in which one failed, the book has no later moment.
pub const FAILING: &str = "\
open 1 1
clock 10000000
in 1 CONTEXT=unheard LinkFault
moment=10000000
clock 40000000
round 1=LinkFault
listen 1=
step 1=
speak 1=LinkFault
moment=10000000
new
open 1 2
in 1 CONTEXT=heard 20
in 1 MOC-0-5-RC=unheard LinkFault
round 1=LinkFault
bind 9 1=Bound
new
open 1 3
in 1 CONTEXT=heard 20
in 1 MOC-0-5-RC=heard 101 unsent OK-5 LinkFault
round 1=LinkFault
bind 9 1=AlreadyBound
new
open 1 4
in 1 CONTEXT=heard 20
stall 1 2
in 1 MOC-0-5-RC UNBIND=heard 117 stalled OK-5
clock 20000000
round 1=unsent OK-5 LinkFault
clock 40000000
round 1=LinkFault
moment=20000000
bind 9 1=AlreadyBound
new
open 1 5
in 1 CONTEXT=heard 20
stall 1 2
in 1 MOC-0-5-RC UNBIND=heard 117 stalled OK-5
round 1=stalled OK-5
round 1=unsent OK-5 LinkFault
in 1 BEAT=LinkFault
bind 9 1=AlreadyBound
new
open 1 6
in 1 CONTEXT=heard 20
stall 1 2
in 1 MOC-0-5-RC=heard 101 stalled OK-5
round 1=stalled OK-5
in 1 UNBIND=sent OK-5 unheard LinkFault
round 1=LinkFault
bind 9 1=AlreadyBound
new
open 1 7
in 1 CONTEXT=heard 20
stall 1 2
in 1 MOC-0-5-RC=heard 101 stalled OK-5
round 1=stalled OK-5
in 1 UNBIND=sent OK-5 heard 16 unsent UNBOUND LinkFault
round 1=LinkFault
bind 9 1=Bound
new
open 1 3
in 1 CONTEXT=heard 20
clock 30000000
round 1=silence unsent BEAT LinkFault
clock 300000000
round 1=LinkFault
moment=30000000
";

pub const LONGEST: &str = "\
open 1
in 1 CONTEXT=heard 20
in 1 0100000000100000 00*100=heard 108
piece 1 00*1048477
round 1=heard 65536
round 1=heard 65536
round 1=heard 65536
round 1=heard 65536
round 1=heard 65536
round 1=heard 65536
round 1=heard 65536
round 1=heard 65536
round 1=heard 65536
round 1=heard 65536
round 1=heard 65536
round 1=heard 65536
round 1=heard 65536
round 1=heard 65536
round 1=heard 65536
round 1=space 65436 heard 65436 Aborted { diagnostic: ProtocolError }
";
