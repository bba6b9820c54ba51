//! What a run came to, for those who print it.

ghost use Rattle.std.specs.Prelude.{◌≡◌, ◌<◌, length};
ghost use Rattle.sb_packet.specs.Answers.{Outcome, RunResults};
ghost use Rattle.sb_text.specs.Told.{told_image, told_outcome, HasOutcome};

use sb_packet::TxnState;

/// What a run came to, for those who print it: how far each transaction of each host came, and the bytes of each device.
///
/// Hosts and devices are named by their places in the bundle, from 0, and transactions by theirs in the host's script.
pub trait Results {
    /// It tells these results: for each host those of its transactions, for each device its bytes.
    ghost tells: { Self → RunResults → Type 0 };

    /// How far a transaction came.
    fn state(&self, host: u8, index: u32) -> TxnState
        requires there { (told : RunResults) × tells self.now told × HasOutcome told host index }
        ensures state { (told : RunResults) (none : Outcome) → tells self.now told → HasOutcome told host index
            → (told_outcome told host index none).state ≡ result };

    /// The bytes that were answered to it; none where it isn't answered.
    fn body(&self, host: u8, index: u32) -> &[u8]
        requires there { (told : RunResults) × tells self.now told × HasOutcome told host index }
        ensures body { (told : RunResults) (none : Outcome) → tells self.now told → HasOutcome told host index
            → (told_outcome told host index none).body ≡ result.now };

    /// The bytes of a device's memory.
    fn image(&self, device: u8) -> &[u8]
        requires there { (told : RunResults) × tells self.now told × device < length told.images }
        ensures image { (told : RunResults) → tells self.now told → device < length told.images
            → told_image told device ≡ result.now };
}
