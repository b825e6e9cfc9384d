// A CLTU from the queue to its radiation.

use cds_time::Cds;
use lane_picture::Look;

/// What became of a CLTU.
#[derive(Clone, Copy, Debug, PartialEq, Eq)]
pub enum Fate {
    /// It waits, or nothing was told of it.
    Waiting,
    /// Its TRANSFER-DATA was refused.
    Refused,
    /// It is in the air.
    InAir,
    /// Its radiation ended.
    Radiated,
    /// Its latest time had passed.
    Expired,
    /// Its sending failed.
    Failed,
    /// It was discarded with all that waited.
    Discarded,
}

impl Fate {
    /// The word for it.
    pub fn word(self) -> &'static str {
        match self {
            Fate::Waiting => "waits",
            Fate::Refused => "refused",
            Fate::InAir => "in the air",
            Fate::Radiated => "radiated",
            Fate::Expired => "expired",
            Fate::Failed => "failed",
            Fate::Discarded => "discarded",
        }
    }

    // How the mark of its waiting looks.
    pub(crate) fn look(self) -> Look {
        match self {
            Fate::Refused => Look::Refused,
            Fate::Expired | Fate::Discarded => Look::Late,
            Fate::Failed => Look::Failed,
            _ => Look::Waiting,
        }
    }
}

/// A CLTU that a user hands over.
#[derive(Drop)]
pub struct Cltu {
    /// Its identification.
    pub id: u32,
    /// Its earliest time of radiation.
    pub earliest: Option<Cds>,
    /// Its latest one.
    pub latest: Option<Cds>,
    /// What a pointer over it is told.
    pub tip: Vec<u8>,
}
