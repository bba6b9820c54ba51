//! What a JSON value writes as a bundle.

ghost use Rattle.std.specs.Prelude.{◌≡◌, ◌≢◌, ◌≤◌, vec_len, IfOk, IfErr, Ok, Err};
ghost use Rattle.serde_json.specs.View.{view};
ghost use Rattle.sb_fields.specs.declared.fault.LoadFault.TheVariants as faults;
ghost use Rattle.sb_fields.specs.Counts.{bundle_counts};
ghost use Rattle.sb_fields.specs.Json.{written_in};
ghost use Rattle.sb_fields.specs.Counted.{counted_bundle as counted_of};

use crate::counted::CountedBundle;
use crate::counts::counted_bundle;
use crate::fault::LoadFault;
use crate::objects::bundle_text;
use serde_json::Value;
use std::alloc::Global;

/// The fields of a bundle, if none is missing, of another kind or unknown, and all numbers but the widths of links are in
/// their ranges; else the first fault of these, `Field` before `Count`. Texts are lent by the value.
pub fn written(alloc: Global, value: &Value) -> Result<CountedBundle<'_>, LoadFault>
    ensures ok { IfOk result (λ bundle. written_in (view value.now) ≡ Ok (counted_of bundle)) }
    ensures counts { IfOk result (λ bundle. bundle_counts (counted_of bundle) ≡ Ok tt) }
    ensures hosts { IfOk result (λ bundle. vec_len bundle.hosts ≤ 32) }
    ensures routers { IfOk result (λ bundle. vec_len bundle.routers ≤ 32) }
    ensures devices { IfOk result (λ bundle. vec_len bundle.devices ≤ 32) }
    ensures links { IfOk result (λ bundle. vec_len bundle.links ≤ 128) }
    ensures err { IfErr result (λ fault. fault ≢ faults.Memory → (written_in (view value.now) ≡ Err fault)) }
{
    let bundle = bundle_text(alloc, value)?;
    counted_bundle(alloc, bundle)
}
