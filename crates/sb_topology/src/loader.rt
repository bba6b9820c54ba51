//! Loads a bundle from its text.

ghost use Rattle.std.specs.Prelude.{◌≡◌, ◌≢◌, ◌≤◌, ◌^◌, length, IfOk, IfErr, Ok, Err};
ghost use Rattle.sb_flow.specs.NetworkOf.{network_of};
ghost use Rattle.sb_fields.specs.declared.fault.LoadFault.TheVariants as faults;
ghost use Rattle.sb_topology.specs.Bundles.{bundle_of};

use crate::bundle::bundle;
use sb_fields::{LoadFault, spelled, written};
use sb_flow::Bundle;
use std::alloc::Global;

/// Loads a bundle from its JSON text: this project's own form.
///
/// The text has at most `2^26` bytes. An error is the first fault of the text, or `LoadFault::Memory` where memory was
/// missing.
pub fn load(alloc: Global, bytes: &[u8]) -> Result<Bundle, LoadFault>
    requires { length bytes.now ≤ 2 ^ 26 }
    ensures ok { IfOk result (λ bundle. bundle_of bytes.now ≡ Ok (network_of bundle)) }
    ensures first_fault { IfErr result (λ fault. fault ≢ faults.Memory → (bundle_of bytes.now ≡ Err fault)) }
{
    let value = spelled(alloc, bytes)?;
    let written = written(alloc, &value)?;
    bundle(alloc, written)
}
