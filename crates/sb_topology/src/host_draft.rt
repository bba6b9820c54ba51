//! A host whose script isn't read yet.

ghost use Rattle.std.specs.Prelude.{◌≤◌, vec_len};

use sb_packet::Name;

/// A host with a name of its own, and the lines of its script.
#[derive(Debug, Drop)]
pub struct HostDraft<'v> {
    pub name: Name,
    /// 0 to 31.
    pub id: u8,
    /// 0 to 15.
    pub qos: u8,
    /// 0 to 3.
    pub prot: u8,
    /// The lines of its script.
    pub lines: Vec<&'v str>,
    pub ghost few: { vec_len lines ≤ 65536 },
}
