// The greatest counts, sizes and lengths, which all crates name. Source: our own.

/// The greatest size of a component of a node.
pub const MAX_COORDINATE: u32 = 262_143;

/// The most nodes that a mesh has.
pub const MAX_NODES: u32 = 4_194_304;

/// The most faces that a mesh has.
pub const MAX_FACES: u32 = 1_048_576;

/// The most nodes that a face has.
pub const MAX_FACE_NODES: usize = 16;

/// The most pieces that an overlap has, and the most rows that a map has.
pub const MAX_PIECES: u32 = 8_388_608;

/// The greatest measure of a piece, in units of 2^-36 steradians.
pub const MAX_MEASURE: i64 = 1_099_511_627_775;

/// The most workers that share the work of a command.
pub const MAX_WORKERS: u32 = 64;

/// The most bytes that a file has.
pub const MAX_FILE_LEN: u64 = 2_147_483_647;
