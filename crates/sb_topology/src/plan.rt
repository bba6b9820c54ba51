//! A network that isn't tested yet.

ghost use Rattle.std.specs.Prelude.{◌≤◌, vec_len};

use crate::host_draft::HostDraft;
use crate::link_draft::LinkDraft;
use sb_flow::{DevicePlan, HostPlan, LinkRow, RouterPlan};

/// A network whose names are as they should be, with links of any widths and scripts that aren't read.
#[derive(Debug, Drop)]
pub struct Draft<'v> {
    pub hosts: Vec<HostDraft<'v>>,
    pub routers: Vec<RouterPlan>,
    pub devices: Vec<DevicePlan>,
    pub links: Vec<LinkDraft>,
    pub wire: Option<u8>,
    pub ghost few_hosts: { vec_len hosts ≤ 32 },
    pub ghost few_routers: { vec_len routers ≤ 32 },
    pub ghost few_devices: { vec_len devices ≤ 32 },
    pub ghost few_links: { vec_len links ≤ 128 },
}

/// The same with links of widths that there are.
#[derive(Debug, Drop)]
pub struct Plan<'v> {
    pub hosts: Vec<HostDraft<'v>>,
    pub routers: Vec<RouterPlan>,
    pub devices: Vec<DevicePlan>,
    pub links: Vec<LinkRow>,
    pub wire: Option<u8>,
    pub ghost few_hosts: { vec_len hosts ≤ 32 },
    pub ghost few_routers: { vec_len routers ≤ 32 },
    pub ghost few_devices: { vec_len devices ≤ 32 },
    pub ghost few_links: { vec_len links ≤ 128 },
}

/// The same with scripts: a bundle that isn't tested yet.
#[derive(Debug, Drop)]
pub struct Rows {
    pub hosts: Vec<HostPlan>,
    pub routers: Vec<RouterPlan>,
    pub devices: Vec<DevicePlan>,
    pub links: Vec<LinkRow>,
    pub wire: Option<u8>,
    pub ghost few_hosts: { vec_len hosts ≤ 32 },
    pub ghost few_routers: { vec_len routers ≤ 32 },
    pub ghost few_devices: { vec_len devices ≤ 32 },
    pub ghost few_links: { vec_len links ≤ 128 },
}
