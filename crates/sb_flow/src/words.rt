//! The words of all scripts.

ghost use Rattle.std.specs.Prelude.{◌≡◌, ◌≤◌, ◌*◌, All, length, map, sum_by};
ghost use Rattle.sb_packet.specs.Scripts.{IsTransaction};
ghost use Rattle.sb_flow.specs.Accepted.{word_count};
ghost use Rattle.sb_flow.specs.NetworkOf.{network_of};
ghost use Rattle.sb_flow.specs.Rows.{host_of};

use crate::bundle::Bundle;
use crate::host_plan::HostPlan;
use sb_packet::Txn;

/// The words of a script.
fn script_words(script: &[Txn]) -> u32
    requires many { length script.now ≤ 65536 }
    requires transactions { All IsTransaction script.now }
    ensures words { result ≡ sum_by (λ t. t.count) script.now }
    ensures bound { result ≤ 16777216 }
{
    let mut words = 0;
    for txn in script {
        words += u32::from(txn.count);
    }
    words
}

/// The words of one host's script.
fn host_words(host: &HostPlan) -> u32
    requires { length host.now.script ≤ 65536 }
    ensures words { result ≡ sum_by (λ t. t.count) (host_of host.now).script }
    ensures bound { result ≤ 16777216 }
{
    script_words(host.script.as_slice())
}

/// The words of the scripts of some hosts.
pub fn all_words(hosts: &[HostPlan]) -> u32
    requires many { length hosts.now ≤ 32 }
    requires scripts { All (λ h. length h.script ≤ 65536) hosts.now }
    ensures { result ≡ sum_by (λ h. sum_by (λ t. t.count) h.script) (map host_of hosts.now) }
{
    let mut words = 0;
    for host in hosts {
        words += host_words(host);
    }
    words
}

/// The words of all scripts of a bundle: 262,144 at most.
pub fn bundle_words(bundle: &Bundle) -> u32
    ensures { result ≡ word_count (network_of bundle.now) }
{
    all_words(bundle.hosts.as_slice())
}
