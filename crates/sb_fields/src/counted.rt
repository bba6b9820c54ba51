//! A bundle whose numbers are in their ranges, and as narrow as these allow.

ghost use Rattle.std.specs.Prelude.{◌≤◌, vec_len};

use crate::texts::RouteText;

/// A host's fields.
#[derive(Debug, Drop)]
pub struct CountedHost<'v> {
    pub name: &'v str,
    /// 0 to 31.
    pub id: u8,
    /// 0 to 15.
    pub qos: u8,
    /// 0 to 3.
    pub prot: u8,
    /// The lines of its script.
    pub script: Vec<&'v str>,
    pub ghost few: { vec_len script ≤ 65536 },
}

/// A router's fields.
#[derive(Debug, Drop)]
pub struct CountedRouter<'v> {
    pub name: &'v str,
    /// 0 or 1.
    pub side: u8,
    /// In the order of the devices' names.
    pub routes: Vec<RouteText<'v>>,
}

/// A device's fields.
#[derive(Debug, Drop)]
pub struct CountedDevice<'v> {
    pub name: &'v str,
    pub base: u64,
    /// 1 to 256.
    pub pages: u32,
    pub readonly: bool,
    pub image: Vec<u8>,
}

/// A link's fields. Its width is any number still.
#[derive(Clone, Copy, Debug)]
pub struct CountedLink<'v> {
    pub name: &'v str,
    pub from: &'v str,
    pub to: &'v str,
    pub width: u64,
    /// 1 to 1,024.
    pub capacity: u16,
}

/// A bundle's fields.
#[derive(Debug, Drop)]
pub struct CountedBundle<'v> {
    /// 1 to 32 hosts.
    pub hosts: Vec<CountedHost<'v>>,
    /// 1 to 32 routers.
    pub routers: Vec<CountedRouter<'v>>,
    /// 1 to 32 devices, of 4,096 pages in all at most.
    pub devices: Vec<CountedDevice<'v>>,
    /// 1 to 128 links.
    pub links: Vec<CountedLink<'v>>,
    /// The name of the link that can be carried over a wire.
    pub wire: Option<&'v str>,
}
