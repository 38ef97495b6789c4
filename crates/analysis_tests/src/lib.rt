//! Tests of the analysis, on matrices that were worked out by hand: of patterns, compressed columns
//! and sets, of the parts, their components and blocks, and of the texts, the reports that are read
//! and the judge. There is nothing here for other crates.
#![tactic(auto)]

#[cfg(test)]
mod bottleneck_texts;
#[cfg(test)]
mod components;
#[cfg(test)]
mod compressed_columns;
#[cfg(test)]
mod diagonal_texts;
#[cfg(test)]
mod int_sets;
#[cfg(test)]
mod parts;
#[cfg(test)]
mod patterns;
#[cfg(test)]
mod read_reports;
#[cfg(test)]
mod reply_texts;
#[cfg(test)]
mod report_texts;
#[cfg(test)]
mod texts;
#[cfg(test)]
mod verdicts;
