//! Worked rows of single crates: block numbers and workers, overlaps, maps, fields, and the whole
//! chain in memory.
//!
//! It has tests alone. A crate that has tests of its own is proved a second time with them, so that
//! the tests of several crates stand here.
#![tactic(auto)]

#[cfg(test)]
mod chains;
#[cfg(test)]
mod compare;
#[cfg(test)]
mod fields;
#[cfg(test)]
mod maps;
#[cfg(test)]
mod masked;
#[cfg(test)]
mod meshes;
#[cfg(test)]
mod overlaps;
#[cfg(test)]
mod small_map;
#[cfg(test)]
mod tickets;
#[cfg(test)]
mod workers;
