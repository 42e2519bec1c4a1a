//! Worked rows: whole runs of the program, over files and sinks in memory. It has tests alone.
#![tactic(auto)]

#[cfg(test)]
mod checks;
#[cfg(test)]
mod damaged;
#[cfg(test)]
mod failing;
#[cfg(test)]
mod fields;
#[cfg(test)]
mod generators;
#[cfg(test)]
mod loading;
#[cfg(test)]
mod machine;
#[cfg(test)]
mod maps;
#[cfg(test)]
mod meshes;
#[cfg(test)]
mod overlaps;
#[cfg(test)]
mod reading;
#[cfg(test)]
mod rings;
#[cfg(test)]
mod runs;
#[cfg(test)]
mod self_run;
#[cfg(test)]
mod spelled;
#[cfg(test)]
mod words;
#[cfg(test)]
mod workers;
