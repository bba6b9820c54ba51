//! The words of a line that is printed.

/// A word of a line.
#[derive(Clone, Copy, Debug)]
pub enum LineWord<'a> {
    /// A text of any length.
    Text(&'a [u8]),
    /// A number, which is printed in decimal digits.
    Number(u64),
}
