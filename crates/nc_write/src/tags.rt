//! The tags of the three lists of a header (netCDF classic format specification).

/// Before the list of dimensions.
pub const DIMENSIONS: u32 = 10;

/// Before the list of variables.
pub const VARIABLES: u32 = 11;

/// Before a list of attributes.
pub const ATTRIBUTES: u32 = 12;
