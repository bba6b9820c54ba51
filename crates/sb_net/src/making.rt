//! The nodes of a network, at the ends of its rings.

ghost use Rattle.std.specs.Prelude.{◌≡◌, ℕ, ◌<◌, [], false, length, IfOk};
ghost use Rattle.sb_flow.specs.NetworkOf.{network_of};
ghost use Rattle.sb_laws.specs.NetworkLayouts.{ring_count};
ghost use Rattle.sb_member.specs.Joints.{HaveAllMet};
ghost use Rattle.sb_net.specs.Legs.{first_plans, network_joints};
ghost use Rattle.sb_net.specs.Recorded.{device_entries};
ghost use Rattle.sb_net.specs.Standing.{StandsFor};

mod dealing;
mod devices;
mod hosts;
mod joints;
mod legs;
mod nodes;
mod routers;

use dealing::deal_links;
use joints::joints_of;
use nodes::nodes_at;
use sb_flow::{Bundle, Paths};
use sb_link::Fabric;
use sb_member::{Joint, Member};
use std::alloc::{AllocError, Global};

/// The nodes of a network by their numbers, and where each of its rings stands.
#[derive(Drop)]
pub(crate) struct Parts<F: Fabric> {
    pub nodes: Vec<Member<F>>,
    pub joints: Vec<Joint>,
}

/// Makes all rings of a bundle's network, and its nodes at their ends. Nothing was sent yet, and no device has served
/// anything. The work is linear in the nodes and links, but for the ways of flows.
///
/// # Errors
///
/// `AllocError` where there isn't enough memory; then what was made is dropped.
pub(crate) fn parts_of<F: Fabric>(
    alloc: Global,
    bundle: &Bundle,
    fabric: &mut F,
) -> Result<Parts<F>, AllocError>
    requires made { F.made fabric.old ≡ [] }
    ensures made { IfOk result (λ parts. F.made fabric.new ≡ first_plans (network_of bundle.now) (ring_count (network_of bundle.now))) }
    ensures unsettled { IfOk result (λ parts. (ring : ℕ) → ring < ring_count (network_of bundle.now) → F.settled fabric.new ring ≡ false) }
    ensures carried { (ring : ℕ) → F.carried fabric.new ring ≡ F.carried fabric.old ring }
    ensures joints { IfOk result (λ parts. parts.joints.items ≡ network_joints (network_of bundle.now)) }
    ensures stands { IfOk result (λ parts. StandsFor (network_of bundle.now) parts.joints.items parts.nodes.items) }
    ensures met { IfOk result (λ parts. HaveAllMet parts.joints.items (length parts.joints.items) parts.nodes.items) }
    ensures unserved { IfOk result (λ parts. (d : ℕ) → d < length (network_of bundle.now).devices
        → device_entries (network_of bundle.now) parts.nodes.items d ≡ []) }
{
    let paths = Paths::new(alloc, bundle)?;
    let dealt = deal_links(alloc, fabric, bundle, &paths)?;
    let joints = joints_of(alloc, bundle, &dealt)?;
    let nodes = nodes_at(alloc, bundle, &paths, dealt)?;
    Ok(Parts { nodes, joints })
}
