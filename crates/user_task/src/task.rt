// A user's task.

use crate::work::Work;
use isp1_auth::Hash;
use octet_core::Octets;
use sle_common::InstanceId;

/// Who a user is, and what it does with a service instance. It has no `Debug`, so that no password
/// gets into a text.
#[derive(Drop)]
pub struct Task {
    /// The user's name: 3 to 16 characters from 20 to 7E.
    pub name: Octets,
    pub signing: Signing,
    pub instance: InstanceId,
    /// What the numbers of its credentials begin from.
    pub draw: u32,
    pub work: Work,
}

/// Whether a user's invocations carry credentials (CCSDS 913.1-B).
#[derive(Drop)]
pub enum Signing {
    Unused,
    /// Each does, protected by the user's password.
    Used { hash: Hash, octets: Octets },
}
