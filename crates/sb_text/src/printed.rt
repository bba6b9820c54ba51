//! What printing came to.

ghost use Rattle.std.specs.Prelude.{◌≡◌, is_ok, if◌then◌else◌};

use sb_io::WriteFailed;

/// What printing came to.
#[derive(Clone, Copy, Debug, PartialEq, Eq)]
pub enum Printed {
    /// The whole text was written.
    Done,
    /// The sink failed; a first part of the text was written.
    Failed,
}

/// What writing came to.
pub fn came_to(written: Result<(), WriteFailed>) -> Printed
    ensures { result ≡ (if is_ok written then Printed.Done else Printed.Failed) }
{
    match written {
        Ok(()) => Printed::Done,
        Err(WriteFailed) => Printed::Failed,
    }
}
