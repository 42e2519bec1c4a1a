// Why the chain gives no field.

/// Why the chain gives no field. Faces are named by their numbers, which count from 1.
#[derive(Clone, Copy, Debug, PartialEq, Eq)]
pub enum ChainFault {
    /// More than 8,388,608 pairs of faces meet: this many.
    TooManyPieces(u64),
    /// This target face meets no source face.
    Uncovered(u32),
    /// There is not a value for each source face.
    Length {
        /// How many source faces there are.
        map: u32,
        /// How many values there are.
        field: u64,
    },
    /// Memory ran out.
    NoMemory,
}
