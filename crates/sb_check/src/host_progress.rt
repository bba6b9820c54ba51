//! How far a host's script is at each device.

ghost use Rattle.std.specs.Prelude.{◌<◌, ℕ, [], length, IfOk, IsSomeAnd};
ghost use Rattle.sb_flow.specs.NetworkOf.{network_of};
ghost use Rattle.sb_flow.specs.Rows.{host_of};
ghost use Rattle.sb_check.specs.Progresses.{IsNextWord, row_next};

use crate::next_word::NextWord;
use sb_flow::{Bundle, HostPlan};
use std::alloc::{AllocError, Global};

/// How far a host's script is at each device.
#[derive(Debug, Drop)]
pub struct HostProgress {
    /// For each device the next word that is to come there.
    pub words: Vec<NextWord>,
}

impl HostProgress {
    /// Nothing has come yet.
    ///
    /// # Errors
    ///
    /// `AllocError` where there isn't enough memory.
    pub fn new(alloc: Global, bundle: &Bundle, plan: &HostPlan) -> Result<HostProgress, AllocError>
        ensures start { let network = network_of bundle.now in
            IfOk result (λ row. (d : ℕ) → d < length network.devices
            → IsSomeAnd (row_next row d) (IsNextWord network [] (host_of plan.now) d)) }
    {
        let mut words = Vec::with_capacity(alloc, bundle.devices.len())?;
        for device in 0..bundle.devices.len() {
            words.push(NextWord::first(bundle, plan, device as u8, 0))?;
        }
        Ok(HostProgress { words })
    }
}
