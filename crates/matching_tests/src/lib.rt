//! Tests of what finds a matching and what keeps one, on matrices that were worked out by hand: of
//! matchings, the searches, the start, the engines, the forest and its phases, the least matching,
//! the diagonals and the sessions of edits. There is nothing here for other crates.
#![tactic(auto)]

#[cfg(test)]
mod bottlenecks;
#[cfg(test)]
mod diagonals;
#[cfg(test)]
mod disjoint_phases;
#[cfg(test)]
mod edit_sessions;
#[cfg(test)]
mod engines;
#[cfg(test)]
mod forests;
#[cfg(test)]
mod last_marks;
#[cfg(test)]
mod least_matchings;
#[cfg(test)]
mod matching_types;
#[cfg(test)]
mod pairs;
#[cfg(test)]
mod phases;
#[cfg(test)]
mod searches;
#[cfg(test)]
mod starts;
#[cfg(test)]
mod tables;
#[cfg(test)]
mod thresholds;
