//! A host of a bundle.

ghost use Rattle.std.specs.Prelude.{All};
ghost use Rattle.sb_packet.specs.Scripts.{IsTransaction};
ghost use Rattle.sb_flow.specs.Issuable.{AreIssuable-prop};

use sb_packet::{Name, Script};

/// A host: it issues the transactions of its script, with its own quality of service and protection.
#[derive(Debug, Drop)]
pub struct HostPlan {
    pub name: Name,
    /// Its id in packets, 0 to 31. No two hosts share one.
    pub id: u8,
    /// 0 to 15; carried unchanged.
    pub qos: u8,
    /// 0 to 3; carried unchanged.
    pub prot: u8,
    /// Each line of it can be issued.
    pub script: Script,
    pub ghost lines: { All IsTransaction script } by { AreIssuable-prop script },
}
