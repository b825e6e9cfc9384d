// What the forward service's queue may hold.

// The octets of CLTUs that may wait, and those that one CLTU may have.
#[derive(Clone, Copy, Debug, PartialEq, Eq)]
pub(crate) struct Limits {
    pub(crate) room: u32,
    pub(crate) longest: u32,
}

impl Limits {
    pub(crate) const NONE: Limits = Limits {
        room: 0,
        longest: 0,
    };
}
