//! The transactions of a host, in order.

ghost use Rattle.std.specs.Prelude.{◌≡◌};

use crate::transaction::Txn;
use std::marker::Model;

/// A script, which contracts see as the list of its transactions.
#[derive(Debug, Drop)]
pub struct Script {
    txns: Vec<Txn>,
}

impl Model for Script {
    ghost use Rattle.std.specs.Prelude.{List};
    ghost use Rattle.sb_packet.specs.declared.transaction.Txn.{Txn};

    ghost Value = { List Txn };

    ghost view = { λ s. s.txns.items };
}

impl Script {
    /// Keeps a vector of transactions. It takes no memory.
    pub fn new(txns: Vec<Txn>) -> Script
        ensures { result ≡ txns.items }
    {
        Script { txns }
    }

    /// The transactions, in order.
    pub fn as_slice(&self) -> &[Txn]
        ensures { result.now ≡ self.now }
    {
        self.txns.as_slice()
    }
}
