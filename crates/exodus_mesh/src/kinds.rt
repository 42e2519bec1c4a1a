// The types of whole numbers that are read.

/// The types that a variable of whole numbers may have.
#[derive(Clone, Copy, Debug, PartialEq, Eq)]
pub enum NumberKind {
    /// BYTE, SHORT or INT.
    Int,
    /// BYTE, SHORT, INT or INT64.
    Long,
}
