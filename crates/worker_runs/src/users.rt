// Users, and what their links are to be handed, spelled by hand from the standards: CCSDS 913.1-B
// for the transport, CCSDS 911.1-B and 912.1-B, annex A, and X.690 for the PDUs. Clocks stand at
// the epoch.

use Cue::{After, Held};

/// When messages of a user come, in hexadecimal digits: once the link took so many blocks, or once
/// a call of disk or antenna is held, which goes on when the link has then taken a block.
pub enum Cue {
    After(u64, &'static str),
    Held(&'static str),
}

/// A user's messages, and the blocks that its link is handed, each with a blank behind it.
#[derive(Clone, Copy)]
pub struct User {
    pub cues: &'static [Cue],
    pub handed: &'static str,
}

// A context with an interval of 30 seconds and a dead factor of 5, and a BIND of RAF.
const OPEN_RAF: &str = "020000000000000c4953503100000001001e0005\
    010000000000005dbf645a80001a034d4f431a05504f5254310201000201053044310e300c06072b7004\
    030102341a0131310e300c06072b7004030102351a0150310e300c06072b7004030102261a0131311230\
    1006072b7004030102161a056f6e6c6331";

// All frames of the first eight seconds of day 20,000.
const START_RAF: &str = "0100000000000022a0208000020100a10a80084e20000000000000\
    a10a80084e2000001f400000020102";

// A context and a BIND of FCLTU.
const OPEN_CLTU: &str = "020000000000000c4953503100000001001e0005\
    010000000000005dbf645a80001a034d4f431a05504f5254310201100201053044310e300c06072b7004\
    030102341a0131310e300c06072b7004030102351a0150310e300c06072b70040301020e1a0131311230\
    1006072b7004030102071a05636c747531";

// The first CLTU is to be number 7. Each wants to be told of.
const START_CLTU: &str = "010000000000000aa0088000020100020107";

const CLTU_7: &str = "0100000000000019aa178000020100020107800080000201000201000403aa0007";

const CLTU_8: &str = "0100000000000019aa178000020100020108800080000201000201000403aa0008";

// A STOP and an UNBIND.
const LEAVE: &str = "0100000000000007a20580000201000100000000000008bf66058000020100";

// Of five frames two buffers of two, one of one, and the end of data.
const RAF_HANDED: &str = "0100000000000011bf650e80001a0753544154494f4e800105 \
    0100000000000009a10780000201008000 \
    010000000000003ea83c\
    a01c800080084e20000003e800008101410201ff02010080000403001001\
    a01c800080084e20000007d0000081014102010002010080000403001002 \
    010000000000003ea83c\
    a01c800080084e2000000bb8000081014102010002010080000403001003\
    a01c800080084e2000000fa0000081014102010002010080000403001004 \
    0100000000000020a81e\
    a01c800080084e2000001388000081014102010002010080000403001005 \
    0100000000000008a806a10480008300 \
    0100000000000009a30780000201008000 0100000000000007bf670480008000 ";

/// A user of RAF, who waits for all of five frames and the end of data.
pub const RAF: User = User {
    cues: &[After(0, OPEN_RAF), After(1, START_RAF), After(6, LEAVE)],
    handed: RAF_HANDED,
};

/// A user of RAF who comes once a call is held, and then waits as that one does.
pub const LATE: User = User {
    cues: &[Held(OPEN_RAF), After(1, START_RAF), After(6, LEAVE)],
    handed: RAF_HANDED,
};

/// What a link is handed whose BIND is refused, since another user has the instance.
pub const REFUSED: &str = "0100000000000011bf650e80001a0753544154494f4e810104 ";

/// A user of FCLTU, who waits until a CLTU was radiated and the queue is empty, before the next
/// one comes.
pub const PATIENT: User = User {
    cues: &[
        After(0, OPEN_CLTU),
        After(1, START_CLTU),
        After(2, CLTU_7),
        After(5, CLTU_8),
        After(8, LEAVE),
    ],
    handed: "0100000000000011bf650e80001a0753544154494f4e800105 \
        0100000000000015a1138000020100a00c800800000000000000008000 \
        0100000000000010ab0e8000020100020108020203e58000 \
        010000000000002fac2d80008000a112020107a10a80080000000000000000020100\
        a10d02010780080000000000000000020100020103 \
        010000000000002fac2d80008500a112020107a10a80080000000000000000020100\
        a10d02010780080000000000000000020100020103 \
        0100000000000010ab0e8000020100020109020203e58000 \
        010000000000002fac2d80008000a112020108a10a80080000000000000000020100\
        a10d02010880080000000000000000020100020103 \
        010000000000002fac2d80008500a112020108a10a80080000000000000000020100\
        a10d02010880080000000000000000020100020103 \
        0100000000000009a30780000201008000 0100000000000007bf670480008000 ",
};

/// A user of FCLTU whose CLTUs come one behind the other, and who leaves once a call is held. What
/// its link is handed depends on when they are radiated.
pub const HASTY: User = User {
    cues: &[
        After(0, OPEN_CLTU),
        After(1, START_CLTU),
        After(2, CLTU_7),
        After(2, CLTU_8),
        Held(LEAVE),
    ],
    handed: "",
};

/// A user of FCLTU who waits until the radiation of a CLTU, and with it production, is interrupted.
pub const INTERRUPTED: User = User {
    cues: &[
        After(0, OPEN_CLTU),
        After(1, START_CLTU),
        After(2, CLTU_7),
        After(4, LEAVE),
    ],
    handed: "0100000000000011bf650e80001a0753544154494f4e800105 \
        0100000000000015a1138000020100a00c800800000000000000008000 \
        0100000000000010ab0e8000020100020108020203e58000 \
        0100000000000022ac2080008200a112020107a10a80080000000000000000020102\
        8000020102020103 \
        0100000000000009a30780000201008000 0100000000000007bf670480008000 ",
};
