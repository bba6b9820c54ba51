//! A bundle as its JSON value writes it. Texts are lent by that value, and nothing of it is copied but images.

/// A host's fields.
#[derive(Debug, Drop)]
pub struct HostText<'v> {
    pub name: &'v str,
    pub id: u64,
    pub qos: u64,
    pub prot: u64,
    /// The lines of its script.
    pub script: Vec<&'v str>,
}

/// A route, from a device's name to a link's.
#[derive(Clone, Copy, Debug)]
pub struct RouteText<'v> {
    pub device: &'v str,
    pub link: &'v str,
}

/// A router's fields.
#[derive(Debug, Drop)]
pub struct RouterText<'v> {
    pub name: &'v str,
    pub side: u64,
    /// In the order of the devices' names.
    pub routes: Vec<RouteText<'v>>,
}

/// A device's fields, with the number and the bytes that `base` and `image` spell.
#[derive(Debug, Drop)]
pub struct DeviceText<'v> {
    pub name: &'v str,
    pub base: u64,
    pub pages: u64,
    pub readonly: bool,
    pub image: Vec<u8>,
}

/// A link's fields.
#[derive(Clone, Copy, Debug)]
pub struct LinkText<'v> {
    pub name: &'v str,
    pub from: &'v str,
    pub to: &'v str,
    pub width: u64,
    pub capacity: u64,
}

/// A bundle's fields.
#[derive(Debug, Drop)]
pub struct BundleText<'v> {
    pub version: u64,
    pub hosts: Vec<HostText<'v>>,
    pub routers: Vec<RouterText<'v>>,
    pub devices: Vec<DeviceText<'v>>,
    pub links: Vec<LinkText<'v>>,
    /// The name of the link that can be carried over a wire.
    pub wire: Option<&'v str>,
}
