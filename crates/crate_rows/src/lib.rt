//! Worked rows of single crates: products, faces, rings, cells, generated meshes, what they cover,
//! measures, and the words of the command line.
//!
//! It has tests alone. A crate that has tests of its own is proved a second time with them, so that
//! the tests of several crates stand here.
#![tactic(auto)]

#[cfg(test)]
mod candidates;
#[cfg(test)]
mod cells;
#[cfg(test)]
mod clipping;
#[cfg(test)]
mod compare;
#[cfg(test)]
mod coverage;
#[cfg(test)]
mod cubes;
#[cfg(test)]
mod faces;
#[cfg(test)]
mod generated;
#[cfg(test)]
mod measures;
#[cfg(test)]
mod meshes;
#[cfg(test)]
mod octants;
#[cfg(test)]
mod reports;
#[cfg(test)]
mod rest;
#[cfg(test)]
mod single_faces;
#[cfg(test)]
mod small;
#[cfg(test)]
mod vectors;
#[cfg(test)]
mod words;
