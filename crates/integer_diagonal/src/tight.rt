//! Pairs of the entries that cost as much as the prices ask.

ghost use Rattle.std.specs.Prelude.{◌≡◌, nat_eq, IfOk};
ghost use Rattle.bip_defs.specs.Matching.{Covers, IsMaximum};
ghost use Rattle.bip_defs.specs.Matrix.{cols};
ghost use Rattle.integer_diagonal.specs.Amounts.{HasRoom};
ghost use Rattle.integer_diagonal.specs.Duals.{IsAssignment, IsPayable, cheap, dual, paid, priced};

use crate::amount::Amount;
use crate::assignment::Assignment;
use crate::width::Width;
use breadth_first_match::complete;
use sp_ids::{Col, OutOfMemory, Row};
use sp_pattern::{Filter, Weights};
use std::alloc::Global;

/// As many pairs as can be had of the tight entries: those that cost as much as their columns' dual
/// variables.
///
/// No row and no column loses its mate without a new one, and the prices stay. Beside what it
/// answers it takes a pattern of the tight entries, and what `breadth_first_match::complete` takes;
/// returns `OutOfMemory` if that cannot be allocated. Work: one look at each entry, and the
/// phases of a maximum matching of the tight ones.
pub fn match_tight<W: Width>(
    alloc: Global,
    weights: &Weights,
    assignment: Assignment<W>,
) -> Result<Assignment<W>, OutOfMemory>
    requires assignment { IsAssignment weights.now assignment }
    requires room { HasRoom (cols weights.now.matrix) assignment.top W.limit }
    ensures assignment { IfOk result (IsAssignment weights.now) }
    ensures same { IfOk result (λ a. (a.top ≡ assignment.top)
        × (a.prices ≡ assignment.prices) × (a.duals ≡ assignment.duals)) }
    ensures covered { IfOk result (λ a. Covers assignment.matching.pairs a.matching.pairs) }
    ensures maximum { IfOk result
        (λ a. IsMaximum (cheap (priced weights.now a)) a.matching.pairs) }
{
    let tight = weights.pattern().filtered(
        alloc,
        &Tight {
            weights,
            assignment: &assignment,
        },
    )?;
    let Assignment {
        top,
        prices,
        duals,
        matching,
    } = assignment;
    Ok(Assignment {
        top,
        prices,
        duals,
        matching: complete(alloc, &tight, matching)?,
    })
}

// The entries that cost as much as their columns' dual variables.
#[derive(Drop)]
struct Tight<'a, 'p, W: Width> {
    weights: &'a Weights<'p>,
    assignment: &'a Assignment<W>,
    ghost over: { IsPayable (priced weights.now assignment.now) W.limit },
}

impl<W: Width> Filter for Tight<'_, '_, W> {
    ghost matrix = { λ t. t.weights.now.matrix };

    ghost keeps = { λ t r c. nat_eq (paid (priced t.weights.now t.assignment.now) r c)
        (dual (priced t.weights.now t.assignment.now) c) };

    fn push_kept(&self, col: Col, rows: &[Row], kept: &mut Vec<Row>) -> Result<(), OutOfMemory> {
        let weights = self.weights.weights_of(col);
        let dual = self.assignment.duals[col.0 as usize];
        for k in 0..rows.len() {
            let row = rows[k];
            let cost = Amount::of(self.assignment.top - weights[k]);
            if self.assignment.prices[row.0 as usize] + cost == dual {
                kept.push(row)?;
            }
        }
        Ok(())
    }
}
