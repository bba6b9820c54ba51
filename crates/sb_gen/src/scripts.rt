//! The scripts of the hosts.

ghost use Rattle.std.specs.Prelude.{◌≡◌, IfOk, OnOk};
ghost use Rattle.sb_gen.specs.Congruence.{state_after};
ghost use Rattle.sb_gen.specs.Generated.{gen_transactions};

use crate::generator::Generator;
use sb_packet::Script;
use std::alloc::{AllocError, Global};

/// The transactions of a host.
const LINES: usize = 2048;

/// The next 2,048 transactions, each of which takes six draws.
///
/// # Errors
///
/// `AllocError` where there isn't enough memory.
pub fn script(alloc: Global, generator: &mut Generator) -> Result<Script, AllocError>
    ensures transactions { IfOk result (λ script. script ≡ gen_transactions generator.old.state 0 2048) }
    ensures state { OnOk result (generator.new.state ≡ state_after generator.old.state 12288) }
{
    let mut txns = Vec::with_capacity(alloc, LINES)?;
    for _line in 0..LINES {
        let txn = generator.draws().transaction(alloc)?;
        txns.push_reserved(txn);
    }
    Ok(Script::new(txns))
}
