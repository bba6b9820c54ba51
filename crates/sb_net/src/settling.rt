//! A network is taken apart, and its rings are given back.

ghost use Rattle.std.specs.Prelude.{◌≡◌, ◌<◌, ℕ, List, Some, false, flat_map, length, slice_get};
ghost use Rattle.sb_packet.specs.Answers.{Outcome, final_memory};
ghost use Rattle.sb_packet.specs.Networks.{NetHost, Network};
ghost use Rattle.sb_packet.specs.declared.entry.Entry.{Entry};
ghost use Rattle.sb_net.specs.Settled.{TellsRun, memory_at, outcome_at, transactions_at};
ghost use Rattle.sb_node.specs.Sides.{received_words};
ghost use Rattle.sb_laws.specs.NetworkLayouts.{ring_count};
ghost use Rattle.sb_member.specs.Groups.{IsDealt, dealt_nodes, grouped_nodes, node_total};
ghost use Rattle.sb_member.specs.Joints.{joint_at, receiver_of};
ghost use Rattle.sb_net.specs.Apart.{IsRoomFor, member_memories, member_transactions};
ghost use Rattle.sb_net.specs.Legs.{first_plans};
ghost use Rattle.sb_net.specs.Standing.{StandsFor};

mod apart;
mod last_nodes;
mod rings;

pub(crate) use apart::Apart;
use last_nodes::take_apart;
use rings::give_back;
use sb_device::DeviceState;
use sb_drive::Group;
use sb_host::Transactions;
use sb_link::Fabric;
use sb_member::{Joint, Member};
use sb_packet::TxnState;
use sb_text::Results;
use std::marker::Model;

/// What remains of a network that has run and was settled: what hosts and devices tell.
#[derive(Drop)]
pub struct SettledNet {
    hosts: Vec<Transactions>,
    devices: Vec<DeviceState>,
}

impl Model for SettledNet {
    ghost use Rattle.sb_net.specs.Settled.{SettledSide};
    ghost use Rattle.sb_net.specs.Apart.{memories_of};

    ghost Value = { SettledSide };

    ghost view = { λ s. record { hosts = s.hosts.items; memories = memories_of s.devices.items } };
}

impl SettledNet {
    /// How many hosts there are.
    pub fn host_count(&self) -> usize
        ensures count { result ≡ length self.now.hosts }
    {
        self.hosts.len()
    }

    /// How many transactions a host's script has, by the host's place in the bundle.
    pub fn transaction_count(&self, host: u8) -> usize
        requires host { host < length self.now.hosts }
        ensures count { result ≡ length (transactions_at self.now host).asked.lines }
    {
        self.hosts[usize::from(host)].count()
    }

    /// How many devices there are.
    pub fn device_count(&self) -> usize
        ensures count { result ≡ length self.now.memories }
    {
        self.devices.len()
    }

    /// How far a transaction has come, by the place of its host in the bundle, and its own in the host's script.
    pub fn state(&self, host: u8, index: u32) -> TxnState
        requires host { host < length self.now.hosts }
        requires index { index < length (transactions_at self.now host).asked.lines }
        ensures state { (network : Network) (journal : List Entry) (whose : NetHost) (none : Outcome) → TellsRun network journal self.now
            → slice_get network.hosts host ≡ Some whose → (outcome_at network journal whose index none).state ≡ result }
    {
        self.hosts[usize::from(host)].state(index)
    }

    /// The bytes that were answered to it; none where it isn't answered.
    pub fn body(&self, host: u8, index: u32) -> &[u8]
        requires host { host < length self.now.hosts }
        requires index { index < length (transactions_at self.now host).asked.lines }
        ensures body { (network : Network) (journal : List Entry) (whose : NetHost) (none : Outcome) → TellsRun network journal self.now
            → slice_get network.hosts host ≡ Some whose → (outcome_at network journal whose index none).body ≡ result.now }
    {
        self.hosts[usize::from(host)].body(index)
    }

    /// The bytes of a device's memory, by its place in the bundle.
    pub fn image(&self, device: u8) -> &[u8]
        requires device { device < length self.now.memories }
        ensures image { (network : Network) (journal : List Entry) → TellsRun network journal self.now
            → (final_memory network journal device).bytes ≡ result.now }
    {
        self.devices[usize::from(device)].memory.image()
    }
}

impl Results for SettledNet {
    ghost use Rattle.std.specs.Prelude.{◌≡◌, List};
    ghost use Rattle.sb_packet.specs.Networks.{Network};
    ghost use Rattle.sb_packet.specs.Answers.{run_results};
    ghost use Rattle.sb_packet.specs.declared.entry.Entry.{Entry};
    ghost use Rattle.sb_net.specs.Settled.{TellsRun};

    // It tells what a network's journal comes to.
    ghost tells = { λ settled results. (network : Network) × (journal : List Entry) × TellsRun network journal settled
        × results ≡ run_results network journal };

    fn state(&self, host: u8, index: u32) -> TxnState {
        SettledNet::state(self, host, index)
    }

    fn body(&self, host: u8, index: u32) -> &[u8] {
        SettledNet::body(self, host, index)
    }

    fn image(&self, device: u8) -> &[u8] {
        SettledNet::image(self, device)
    }
}

/// Takes all nodes of a network apart, and gives the ends of its rings back to the fabric that made them, which keeps
/// what each ring carried. Takes no memory.
pub(crate) fn settle_nodes<F: Fabric>(
    fabric: &mut F,
    groups: &mut [Group<Member<F>>],
    count: usize,
    joints: &[Joint],
    room: Apart<F>,
) -> SettledNet
    requires dealt { IsDealt (grouped_nodes groups.old) }
    requires count { count ≡ node_total (grouped_nodes groups.old) }
    requires room { IsRoomFor (dealt_nodes (grouped_nodes groups.old)) room }
    requires ports { length room.ports.items ≡ length joints.now }
    requires ends { length room.ends.items ≡ length joints.now }
    requires stands { (network : Network) × StandsFor network joints.now (dealt_nodes (grouped_nodes groups.old))
        × F.made fabric.old ≡ first_plans network (ring_count network)
        × ((r : ℕ) → r < ring_count network → F.settled fabric.old r ≡ false) }
    ensures carried { (network : Network) → StandsFor network joints.now (dealt_nodes (grouped_nodes groups.old))
        → (r : ℕ) → r < ring_count network
        → F.carried fabric.new r ≡ received_words (receiver_of (dealt_nodes (grouped_nodes groups.old)) (joint_at joints.now r)) }
    ensures made { F.made fabric.new ≡ F.made fabric.old }
    ensures hosts { result.hosts ≡ flat_map member_transactions (dealt_nodes (grouped_nodes groups.old)) }
    ensures memories { result.memories ≡ flat_map member_memories (dealt_nodes (grouped_nodes groups.old)) }
{
    let Apart {
        ports,
        ends,
        hosts,
        devices,
    } = take_apart(groups, count, room);
    give_back(fabric, ports, ends);
    SettledNet { hosts, devices }
}
