//! The names that a bundle gives, list by list.

/// The names of hosts, routers, devices and links, each in the order of its list.
#[derive(Debug, Drop)]
pub struct NameLists<'v> {
    /// 32 at most, as of routers and devices.
    pub hosts: Vec<&'v str>,
    pub routers: Vec<&'v str>,
    pub devices: Vec<&'v str>,
    /// 128 at most.
    pub links: Vec<&'v str>,
}
