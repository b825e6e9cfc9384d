// What a door shows at one moment.

/// What a door is doing.
#[derive(Clone, Copy, Debug, PartialEq, Eq)]
pub enum DoorState {
    /// It waits for a user.
    Waiting,
    /// It serves one.
    Serving,
    /// It gave the last of its connections, and takes no more.
    Spent,
    /// It failed, and takes no more.
    Failed,
    /// It is closed since a stop was asked for.
    Closed,
}

/// What a door shows. A moment of 0 says that the thing hasn't happened yet.
#[derive(Debug, Drop)]
pub struct DoorNow {
    /// Its number, from 1 in the order of the plan.
    pub number: u64,
    /// Where it listens.
    pub address: String,
    /// What it is doing.
    pub state: DoorState,
    /// Whom it serves, and what this user's BIND named: the user and the service instance. Each is
    /// empty if there is none.
    pub peer: String,
    pub user: String,
    pub instance: String,
    /// How many connections it gave, and how many it may give.
    pub links: u64,
    pub most_links: u64,
    /// When it gave the last one.
    pub since: u64,
    /// How many octets came from its users, and how many were taken for them.
    pub octets_in: u64,
    pub octets_out: u64,
    /// When octets came last.
    pub heard: u64,
    /// How often an offer stalled.
    pub stalls: u64,
    /// How often a call of it or of its connections failed.
    pub faults: u64,
    /// When its worker began its last turn.
    pub turned: u64,
    /// How the last servings ended, the last one first.
    pub ends: Vec<EndNow>,
}

/// How a serving ended.
#[derive(Debug, Drop)]
pub struct EndNow {
    /// When.
    pub at: u64,
    /// Who was served.
    pub peer: String,
    /// How it ended, in words.
    pub how: String,
}
