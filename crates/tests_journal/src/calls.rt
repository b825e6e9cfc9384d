// A disk in memory by its calls and its owner's orders, and a journal on it. What is expected of the
// disk was written by hand from the picks' rules, and of the journal from the form of its file.
use crate::journals::FILE;
use crate::script::check;
use std::test::Fail;

// What a disk holds at first, and rows.
const SCRIPTS: [(&[u8], &str); 8] = [
    (b"", WRITTEN),
    (b"abcdef", STOPPED),
    (b"abc", FAILED),
    (b"abcd", RESTARTED),
    (b"", NEW),
    (FILE, STOPS),
    (FILE, FAULTS),
    (FILE, TRIED_AGAIN),
];

#[test]
fn scripts_answer_so(rt: HostRuntime) -> Result<(), Fail> {
    for (start, rows) in SCRIPTS {
        check(&rt, rt.alloc(), start, rows)?;
    }
    Ok(())
}

const WRITTEN: &str = "
write 0 abcdef = ok;
cut 4 = ok;
write 2 xyz = ok;
sync = ok;
content = abxyz;
state = 0 faults, stopped false, memory refused false;";

// What is pending at the stop: two writes, the second past the end, and a cut before them. What the
// stop left is the only image then, whatever the next pick.
const STOPPED: &str = "
stop 3 torn;
cut 5 = ok;
write 0 xy = ok;
write 3 12345 = failed;
state = 1 faults, stopped true, memory refused false;
old = abcde;
new = xyc12345;
torn = xZc12ZZZ;
sync = failed;
state = 2 faults, stopped true, memory refused false;
restart = ok;
state = 2 faults, stopped false, memory refused false;
content = xZc12ZZZ;
old = xZc12ZZZ;
new = xZc12ZZZ;
torn = xZc12ZZZ;
sync = ok;";

// Calls fail as listed and leave all as it was. The second write is still pending after the sync,
// so a stop may take it back.
const FAILED: &str = "
fail 1 3;
write 0 x = failed;
content = abc;
write 1 y = ok;
sync = failed;
content = ayc;
stop 0 old;
state = 2 faults, stopped true, memory refused false;
restart = ok;
content = abc;";

// Two stops, the second before any sync: what the first left is the start. A later order replaces a
// stop.
const RESTARTED: &str = "
stop 1 torn;
write 0 xy = failed;
restart = ok;
content = xZcd;
stop 2 old;
write 2 12 = ok;
content = xZ12;
sync = failed;
restart = ok;
content = xZcd;
stop 1 torn;
fail 2;
write 0 abc = ok;
sync = failed;
restart = ok;
content = abcd;";

const NEW: &str = "
create = 9;
octets = 534c45410000000100;
create = no journal: octet 0 isn't the header's;
octets = 534c45410000000100;
append 1 = 40;
octets = 534c454100000001a500000018000101004e20000003e8000000014100000000000000030010a100;";

// The batch is in the file where the disk stops at its gate or behind it, and the pick keeps the
// gate.
const STOPS: &str = "
append 2 stop 2 new = disk fault;
restart = ok;
recover = 40: 1;
append 2 stop 3 old = disk fault;
restart = ok;
recover = 40: 1;
append 2 stop 3 torn = disk fault;
restart = ok;
recover = 40: 1;
append 2 stop 3 new = disk fault;
restart = ok;
recover = 71: 1 2;
append 9 = 102;
recover = 102: 1 2 9;";

// The fourth call fails when the gate is open already.
const FAULTS: &str = "
append 2 fail 1 = disk fault;
recover = 40: 1;
append 2 fail 3 = disk fault;
recover = 40: 1;
append 2 fail 4 = disk fault;
recover = 71: 1 2;
append 9 = 102;
recover = 102: 1 2 9;";

// The third call of an append fails, and then the sync of the recovery.
const TRIED_AGAIN: &str = "
append 2 fail 3 4 = disk fault;
recover = disk fault;
recover = 40: 1;
append 9 = 71;
recover = 71: 1 9;";
