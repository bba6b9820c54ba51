//! What a host asks for.

ghost use Rattle.std.specs.Prelude.{◌≤◌, length};
ghost use Rattle.sb_host.specs.Asked.{AreTransactions, AreTransactions-prop};

use crate::transaction_plan::TransactionPlan;

/// What a host asks for, with the fields that all its packets have.
#[derive(Debug, Drop)]
pub struct ScriptPlan {
    /// The host's id, 0 to 31.
    pub id: u8,
    /// 0 to 15; carried unchanged.
    pub qos: u8,
    /// 0 to 3; carried unchanged.
    pub prot: u8,
    /// The transactions, in order: at most 65,536. Each of them can be issued.
    pub lines: Vec<TransactionPlan>,

    pub ghost id_fits: { id ≤ 31 },
    pub ghost qos_fits: { qos ≤ 15 },
    pub ghost prot_fits: { prot ≤ 3 },
    pub ghost few: { length lines.items ≤ 65536 },
    pub ghost issuable: { AreTransactions lines.items } by { AreTransactions-prop lines.items },
}
