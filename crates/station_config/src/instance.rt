// Service instances.

use crate::service::Service;
use sle_common::InstanceId;

/// A service instance.
#[derive(Debug, Drop)]
pub struct Instance {
    pub id: InstanceId,
    /// The place of the peer that may bind it, among the site's peers.
    pub owner: u32,
    /// The return timeout that a user is told, 1 to 600 seconds.
    pub timeout: u16,
    pub service: Service,
}
