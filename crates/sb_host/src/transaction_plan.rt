//! A transaction of a host.

use sb_packet::Txn;

/// A transaction of a host's script.
#[derive(Debug, Drop)]
pub struct TransactionPlan {
    pub txn: Txn,
    /// A device has its address.
    pub aimed: bool,
}
