//! The JSON value that a bundle is written in.

ghost use Rattle.std.specs.Prelude.{◌≡◌, ◌≢◌, IfOk, IfErr, Some, None};
ghost use Rattle.serde_json.specs.View.{view};
ghost use Rattle.sb_fields.specs.declared.fault.LoadFault.TheVariants as faults;
ghost use Rattle.sb_fields.specs.Json.{spelled as spelled_by};

use crate::fault::LoadFault;
use serde_json::Value;
use std::alloc::Global;

/// The value that bytes spell. The one error but `LoadFault::Memory` is `LoadFault::Json`, where they spell none.
#[tactic(auto, using(crate::proofs::Spellings::spelled_some, crate::proofs::Spellings::spelled_none))]
pub fn spelled(alloc: Global, bytes: &[u8]) -> Result<Value, LoadFault>
    ensures ok { IfOk result (λ value. spelled_by bytes.now ≡ Some (view value)) }
    ensures err { IfErr result (λ fault. fault ≢ faults.Memory → (fault ≡ faults.Json)) }
    ensures unspelled { IfErr result (λ fault. fault ≢ faults.Memory → (spelled_by bytes.now ≡ None)) }
{
    match Value::from_slice(alloc, bytes) {
        Ok(value) => Ok(value),
        Err(error) => {
            if error.is_memory() {
                Err(LoadFault::Memory)
            } else {
                Err(LoadFault::Json)
            }
        }
    }
}
