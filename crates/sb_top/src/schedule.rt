//! In what order the nodes of a network take their turns.

ghost use Rattle.std.specs.Prelude.{◌≡◌, ◌≤◌};
ghost use Rattle.sb_top.specs.Schedules.{groups_by};

// so many groups several threads share: more than there mostly are threads, so that one finds a group that no other has
const SHARED_GROUPS: u32 = 16;

/// In what order the nodes of a network take their turns.
#[derive(Clone, Copy, Debug, PartialEq, Eq)]
pub enum Schedule {
    /// One after another, on one thread, by the order of that number.
    InTurn { order: u32 },
    /// In groups that so many threads share, at most: 1 or more.
    SideBySide { workers: u32 },
}

impl Schedule {
    /// How many groups the nodes are dealt to.
    pub fn groups(self) -> u32
        ensures groups { result ≡ groups_by self }
        ensures some { 1 ≤ result }
    {
        match self {
            Schedule::InTurn { .. } => 1,
            Schedule::SideBySide { workers: 1 } => 1,
            Schedule::SideBySide { .. } => SHARED_GROUPS,
        }
    }
}
