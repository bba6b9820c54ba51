//! Where a report goes wrong.

ghost use Rattle.std.specs.Prelude.{◌≡◌, ◌<◌, ◌^◌};

use crate::verdict::Reason;

/// Where a report goes wrong first: in a line, counted from 0.
#[derive(Clone, Copy, Debug)]
pub struct Fault {
    pub line: u32,
    pub reason: Reason,
    pub ghost few: { line < 2 ^ 31 },
}

/// A fault at a line.
pub fn fault_at(line: u32, reason: Reason) -> Fault
    requires { line < 2 ^ 31 }
    ensures line { result.line ≡ line }
    ensures reason { result.reason ≡ reason }
{
    Fault { line, reason }
}
