//! The words of a line with which a report is compared.

/// A word of a line.
#[derive(Clone, Copy, Debug)]
pub enum LinePiece<'a> {
    /// A text of any length.
    Text(&'a [u8]),
    /// A number, in decimal digits.
    Number(u64),
    /// Bytes, in two lower-case hexadecimal digits each.
    Digits(&'a [u8]),
    /// The same, or a dash where there are none.
    Body(&'a [u8]),
}
