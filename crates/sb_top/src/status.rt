//! The statuses with which the program ends: this project's own.

ghost use Rattle.std.specs.Prelude.{◌≡◌};
ghost use Rattle.sb_text.specs.declared.printed.Printed.TheVariants as printed;

use sb_text::Printed;

/// The command was done, and its text was written.
pub const DONE: u8 = 0;

/// The words of the command line are not taken: `usage` was written.
pub const USAGE: u8 = 2;

/// The input has a fault: `refused` and the fault were written.
pub const REFUSED: u8 = 3;

/// A read failed, and nothing was written.
pub const READ_FAILED: u8 = 4;

/// A write failed: a first part of the text was written.
pub const WRITE_FAILED: u8 = 5;

/// Memory was missing, and nothing was written.
pub const OUT_OF_MEMORY: u8 = 6;

/// The input is too long: `too long` was written.
pub const TOO_LONG: u8 = 7;

/// The report that was to be judged isn't that of a lawful run: `no`, the number of a line, and a reason were written.
pub const REJECTED: u8 = 8;

/// The status of a text that was to be written.
pub fn status_of(written: Printed, status: u8) -> u8
    ensures done { written ≡ printed.Done → result ≡ status }
    ensures failed { written ≡ printed.Failed → result ≡ WRITE_FAILED }
{
    match written {
        Printed::Done => status,
        Printed::Failed => WRITE_FAILED,
    }
}
