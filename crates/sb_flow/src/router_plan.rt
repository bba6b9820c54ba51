//! A router of a bundle.

ghost use Rattle.std.specs.Prelude.{◌≡◌, length};

use sb_packet::Name;

/// A router: it hands on what arrives, by the device that it is for.
#[derive(Clone, Copy, Debug, PartialEq, Eq)]
pub struct RouterPlan {
    pub name: Name,
    /// On which side of the wire it stands: 0 or 1.
    pub side: u8,
    /// For each device, by its place, the link that leads on to it, where there is one. Places behind those of the
    /// devices mean nothing.
    pub routes: [Option<u8>; 32],
    pub ghost whole: { length routes ≡ 32 },
}
