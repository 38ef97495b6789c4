//! Tests of the boards of shared words and of the levels over them, worked out by hand and
//! contested by threads. There is nothing here for other crates.
#![tactic(auto)]

#[cfg(test)]
mod augmentations;
#[cfg(test)]
mod claim_boards;
#[cfg(test)]
mod claim_contest;
#[cfg(test)]
mod flip_boards;
#[cfg(test)]
mod flip_contest;
#[cfg(test)]
mod gates;
#[cfg(test)]
mod levels_down;
#[cfg(test)]
mod levels_up;
#[cfg(test)]
mod outcomes;
#[cfg(test)]
mod searches;
#[cfg(test)]
mod shares;
#[cfg(test)]
mod small;
