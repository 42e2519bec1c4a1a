//! Worked rows of the crates of files: documents and their bytes, headers, meshes, overlaps, maps
//! and fields in files, and files and sinks of the machine and in memory.
//!
//! It has tests alone. A crate that has tests of its own is proved a second time with them, so that
//! the tests of several crates stand here.
#![tactic(auto)]

#[cfg(test)]
mod compared;
#[cfg(test)]
mod contents;
#[cfg(test)]
mod documents;
#[cfg(test)]
mod fields;
#[cfg(test)]
mod headers;
#[cfg(test)]
mod maps;
#[cfg(test)]
mod meshes;
#[cfg(test)]
mod outside;
#[cfg(test)]
mod overlaps;
#[cfg(test)]
mod replaced;
#[cfg(test)]
mod spelled;
