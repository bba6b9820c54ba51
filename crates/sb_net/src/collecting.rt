//! The journal of a run is collected from the devices.

ghost use Rattle.std.specs.Prelude.{◌≡◌, ◌≤◌, ◌<◌, ◌+◌, ◌^◌, ◌++◌, ℕ, length, slice_index_or};
ghost use Rattle.sb_member.specs.Groups.{IsDealt, dealt_nodes, grouped_nodes, node_total};
ghost use Rattle.sb_member.specs.Joints.{node_at};
ghost use Rattle.sb_net.specs.Recorded.{counts_from, entries_from, member_entries};

use sb_drive::Group;
use sb_link::Fabric;
use sb_member::Member;
use sb_packet::{Entry, Journal};

// what the node of a number has served
fn served<F: Fabric>(groups: &[Group<Member<F>>], number: usize) -> &[Entry]
    requires dealt { IsDealt (grouped_nodes groups.now) }
    requires number { number < node_total (grouped_nodes groups.now) }
    ensures entries { result.now ≡ member_entries (node_at (dealt_nodes (grouped_nodes groups.now)) number) }
{
    let count = groups.len();
    let group = &groups[number % count];
    match &group.nodes[number / count] {
        Member::Device(device) => device.journal(),
        Member::Host(_) => &[],
        Member::Router(_) => &[],
    }
}

// puts entries behind a journal
fn add_all(journal: &mut Journal, entries: &[Entry])
    requires room { length entries.now ≤ journal.old.spare }
    ensures entries { journal.new.entries ≡ journal.old.entries ++ entries.now }
    ensures spare { journal.new.spare + length entries.now ≡ journal.old.spare }
{
    for place in 0..entries.len() {
        journal.add(&entries[place]);
    }
}

/// Puts behind a journal what each device has served since it was asked last, in the order of devices. They have the
/// numbers from `first` on; `collected` says of each how many of its entries stand in the journal. Takes no memory.
pub(crate) fn collect<F: Fabric>(
    groups: &[Group<Member<F>>],
    first: usize,
    collected: &mut [usize],
    journal: &mut Journal,
)
    requires dealt { IsDealt (grouped_nodes groups.now) }
    requires few { node_total (grouped_nodes groups.now) < 2 ^ 64 }
    requires devices { first + length collected.old ≤ node_total (grouped_nodes groups.now) }
    requires within { (d : ℕ) → d < length collected.old → slice_index_or collected.old d 0
        ≤ length (member_entries (node_at (dealt_nodes (grouped_nodes groups.now)) (first + d))) }
    requires room { length (entries_from first collected.old (dealt_nodes (grouped_nodes groups.now))) ≤ journal.old.spare }
    ensures entries { journal.new.entries
        ≡ journal.old.entries ++ entries_from first collected.old (dealt_nodes (grouped_nodes groups.now)) }
    ensures spare { journal.new.spare + length (entries_from first collected.old (dealt_nodes (grouped_nodes groups.now)))
        ≡ journal.old.spare }
    ensures collected { collected.new ≡ counts_from first (length collected.old) (dealt_nodes (grouped_nodes groups.now)) }
{
    for device in 0..collected.len() {
        let entries = served(groups, first + device);
        add_all(journal, &entries[collected[device]..]);
        collected[device] = entries.len();
    }
}
