// Associations from their beginning on, and the table of state and message pair by pair.

// A session from BIND to UNBIND; a peer of the level bind, which goes on without credentials; users
// that are denied; and a peer that the site lacks, which sends nothing with credentials.
pub const COURSES: &str = "
station context >context bind=MOC >bound get >kept get >kept unbind >unbound state = P P P P P closing|
bind >context sha1 bind=STATION >bound unused get >kept start >started report >kept stop >stopped
    unbind >unbound state = P P P P P P closing|
station >context bind=SEC >denied bind=MOC state = Dx 3x closing|
station >context bind=NOBODY >denied bind=MOC state = Dx 3x closing|
none >context >bound-1 start state = 0x closing|
none >context >bound-1 heartbeat state = P ready-1|";

// Of each message: context, heartbeat, BIND, UNBIND, PEER-ABORT, START, STOP,
// SCHEDULE-STATUS-REPORT, GET-PARAMETER, THROW-EVENT, TRANSFER-DATA, another tag, and what doesn't
// decode. P is pass, a digit a diagnostic of PEER-ABORT, and `x` says that the association is
// closing then.
pub const MESSAGES: &str = "
station *messages = P 3x 3x 3x 3x 3x 3x 3x 3x 3x 3x 3x 3x|
station >context *messages = 3x P P 3x Px 3x 3x 3x 3x 3x 3x 3x 5x|
station >context >bound *messages = 3x P 3x P Px P 3x P P 5x 5x 5x 5x|
station >context >forward *messages = 3x P 3x P Px P 3x P P P 3x 5x 5x|
station >context >bound >started *messages = 3x P 3x 3x Px 3x P P P 5x 5x 5x 5x|
station >context >forward >started *messages = 3x P 3x 3x Px 3x P P P P P 5x 5x|
station >denied *messages = 3x 3x 3x 3x 3x 3x 3x 3x 3x 3x 3x 3x 3x|";

// Of each outcome: a context, a peer bound to a forward service, a denial, a START, a STOP, an
// UNBIND, and anything else.
pub const OUTCOMES: &str = "
station *outcomes state = unbound opening closing opening opening opening opening|
station >context *outcomes state = unbound ready-forward-7 closing unbound unbound unbound unbound|
station >context >bound *outcomes state = ready-0 ready-0 closing active-0 ready-0 closing ready-0|
station >context >bound >started *outcomes state = active-0 active-0 closing active-0 ready-0 active-0 active-0|
station >denied *outcomes state = closing closing closing closing closing closing closing|";

// Of each sort of credentials. What is out of place, and what doesn't decode, is told before them.
pub const LEVELS: &str = "
none >context *credentials bind=STATION = P P P P P P P|
bind >context *credentials bind=STATION = Dx Dx Dx Dx P P Dx|
all >context *credentials bind=STATION = Dx Dx Dx Dx P P Dx|
all-sha256 >context *credentials bind=STATION = Dx Dx Dx Dx Dx Dx P|
none >context >bound *credentials start = P P P P P P P|
bind >context >bound *credentials start = P P P P P P P|
all >context >bound *credentials start = 0x 0x 0x 0x P P 0x|
all-sha256 >context >bound *credentials unbind = 0x 0x 0x 0x 0x 0x P|
all >context >bound *credentials peer-abort = Px Px Px Px Px Px Px|
all >context >bound *credentials heartbeat = P P P P P P P|
all *credentials context = P P P P P P P|
all >context >bound *credentials stop = 3x 3x 3x 3x 3x 3x 3x|
all >context >bound *credentials undecoded = 5x 5x 5x 5x 5x 5x 5x|";
