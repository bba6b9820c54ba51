//! What goes over a link, gathered from the ways of all hosts.

ghost use Rattle.std.specs.Prelude.{◌≡◌, ◌≤◌, ◌<◌, ◌^◌, ℕ, Bool, length, map, true, false, All, IfOk};
ghost use Rattle.std.specs.List.{range_with_len};
ghost use Rattle.sb_flow.specs.Gathered.{all_words_on, flows_from, gathered, host_words_on, is_on, load_of, mask_of, words_on};

use crate::flow_path::FlowPath;
use crate::host_paths::{HostPaths, flows_of};
use crate::load::Load;
use std::alloc::{AllocError, Global};

/// A link is on a way.
fn has_link(flow: &FlowPath, link: usize) -> bool
    ensures { result ≡ is_on link flow.now }
{
    match flow.on.get(link) {
        None => false,
        Some(on) => *on,
    }
}

/// The words of a way over a link; where answers go, those that are answered.
fn words_over(flow: &FlowPath, link: usize, up: bool) -> u32
    ensures { result ≡ words_on link up flow.now }
{
    if !has_link(flow, link) {
        0
    } else if up {
        flow.answered
    } else {
        flow.words
    }
}

/// The words of one host over a link.
fn host_words(flows: &[FlowPath], link: usize, up: bool) -> u32
    requires { host_words_on link up flows.now ≤ 262144 }
    ensures { result ≡ host_words_on link up flows.now }
{
    let mut words = 0;
    for flow in flows {
        words += words_over(flow, link, up);
    }
    words
}

/// The words of all hosts over a link.
fn all_words(hosts: &[HostPaths], link: usize, up: bool) -> u32
    requires { all_words_on link up hosts.now ≤ 262144 }
    ensures { result ≡ all_words_on link up hosts.now }
{
    let mut words = 0;
    for host in hosts {
        words += host_words(host.flows.as_slice(), link, up);
    }
    words
}

/// For each device, whether the way to it has a link: bit `d` for device `d`.
fn mask(flows: &[FlowPath], link: usize) -> u32
    requires { length flows.now ≤ 32 }
    ensures digits { result ≡ mask_of link flows.now }
    ensures small { result < 2 ^ length flows.now }
{
    match flows {
        [] => 0,
        [first, rest @ ..] => u32::from(has_link(first, link)) + 2 * mask(rest, link),
    }
}

/// For each host's id, the mask of its devices.
fn through(hosts: &[HostPaths], link: usize) -> [u32; 32]
    requires { All (λ h. length h.flows ≤ 32) hosts.now }
    ensures { result ≡ map (λ id. mask_of link (flows_from hosts.now id)) (range_with_len 0 32) }
{
    let mut through = [0; 32];
    for id in 0..32 {
        through[usize::from(id)] = mask(flows_of(hosts, id), link);
    }
    through
}

/// What goes over a link.
pub fn load(hosts: &[HostPaths], link: usize) -> Load
    requires devices { All (λ h. length h.flows ≤ 32) hosts.now }
    requires words { all_words_on link false hosts.now ≤ 262144 }
    requires answered { all_words_on link true hosts.now ≤ 262144 }
    ensures { load_of result ≡ gathered link hosts.now }
{
    Load {
        requests: all_words(hosts, link, false),
        answers: all_words(hosts, link, true),
        through: through(hosts, link),
    }
}

/// What goes over each of so many links.
pub fn loads(alloc: Global, hosts: &[HostPaths], links: usize) -> Result<Vec<Load>, AllocError>
    requires devices { All (λ h. length h.flows ≤ 32) hosts.now }
    requires words { (k : ℕ) (up : Bool) → all_words_on k up hosts.now ≤ 262144 }
    ensures { IfOk result (λ loads. map load_of loads.items ≡ map (λ k. gathered k hosts.now) (range_with_len 0 links)) }
{
    let mut loads = Vec::new(alloc);
    for link in 0..links {
        loads.push(load(hosts, link))?;
    }
    Ok(loads)
}
