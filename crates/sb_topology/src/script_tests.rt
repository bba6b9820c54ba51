//! Routes, and the words of all scripts.

ghost use Rattle.std.specs.Prelude.{◌≡◌, ◌≤◌, All, None, length, vec_len};
ghost use Rattle.sb_flow.specs.Accepted.{overlapping_device};
ghost use Rattle.sb_topology.specs.Held.{whole_network};
ghost use Rattle.sb_topology.specs.Tests.{scripts_tested as scripts_tested_by};

use crate::plan::Rows;
use crate::routes::stray_route;
use crate::ways::lost_flow;
use sb_fields::LoadFault;
use sb_flow::all_words;

/// The most words that all scripts may have.
const MOST_WORDS: u32 = 262144;

/// Routes, and the words of all scripts: the first fault of these.
#[tactic(auto, unfolding(crate::specs::Tests::unless_found, crate::specs::Tests::scripts_tested))]
pub fn scripts_tested(rows: &Rows) -> Result<(), LoadFault>
    requires scripts { All (λ h. length h.script ≤ 65536) rows.now.hosts.items }
    requires apart { overlapping_device (whole_network rows.now) ≡ None }
    ensures { result ≡ scripts_tested_by (whole_network rows.now) }
{
    if let Some(stray) = stray_route(rows) {
        return Err(LoadFault::Route {
            router: stray.router,
            device: stray.device,
        });
    }
    if let Some(stray) = lost_flow(rows) {
        return Err(LoadFault::Route {
            router: stray.router,
            device: stray.device,
        });
    }
    let words = all_words(rows.hosts.as_slice());
    if words <= MOST_WORDS {
        Ok(())
    } else {
        Err(LoadFault::Budget { words })
    }
}
