//! Tests of what is read, files of matrices, edit lines, batches and words, of the devices in memory,
//! and of the words that all crates share. There is nothing here for other crates.
#![tactic(auto)]

#[cfg(test)]
mod batch_words;
#[cfg(test)]
mod batches;
#[cfg(test)]
mod devices;
#[cfg(test)]
mod edit_lines;
#[cfg(test)]
mod entries;
#[cfg(test)]
mod files;
#[cfg(test)]
mod words;
