//! Tests of both programs, whole, over devices in memory, and of the engines as their words name
//! them.
//! There is nothing here for other crates.
#![tactic(auto)]

#[cfg(test)]
mod analyse;
#[cfg(test)]
mod array_files;
#[cfg(test)]
mod batch_answers;
#[cfg(test)]
mod batches;
#[cfg(test)]
mod bottlenecks;
#[cfg(test)]
mod check;
#[cfg(test)]
mod devices;
#[cfg(test)]
mod diagonal;
#[cfg(test)]
mod double_counts;
#[cfg(test)]
mod dropped_zeros;
#[cfg(test)]
mod edits;
#[cfg(test)]
mod engine;
#[cfg(test)]
mod files;
#[cfg(test)]
mod hostile;
#[cfg(test)]
mod hostile_components;
#[cfg(test)]
mod least;
#[cfg(test)]
mod load;
#[cfg(test)]
mod rank;
#[cfg(test)]
mod runs;
#[cfg(test)]
mod versions;
#[cfg(test)]
mod words;
#[cfg(test)]
mod workers;
