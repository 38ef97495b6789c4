//! Depth-first search for strong components.

ghost use Rattle.std.specs.Prelude.{◌≡◌, ◌≢◌, ℕ, ◌≤◌, [], IfOk};
ghost use Rattle.bip_defs.specs.Lists.{Among};
ghost use Rattle.bip_defs.specs.Parts.{IsSquareRow};
ghost use Rattle.bip_graph.specs.Matching.{none};
ghost use Rattle.square_components.specs.Found.{IsFound, col_in};
ghost use Rattle.square_components.specs.Numbers.{look};
ghost use Rattle.square_components.specs.Part.{IsSquarePart};
ghost use Rattle.square_components.specs.Stacks.{IsDepthFirst};
ghost use Rattle.square_components.specs.Steps.{StaysMet};

use crate::part::SquarePart;
use crate::search::ComponentSearch;
use column_lists::ColumnLists;
use sp_ids::{OutOfMemory, Row};
use sp_pattern::NumberList;
use std::alloc::Global;

/// What a search leaves of each row of the square part, and how many components there are.
pub fn searched<C: ColumnLists, S: SquarePart>(
    alloc: Global,
    columns: C,
    part: S,
) -> Result<(Vec<u32>, u32), OutOfMemory>
    requires { IsSquarePart (C.matrix columns) (S.rows part) (S.cols part) (S.pairs part) }
    ensures { IfOk result
        (λ f. IsFound (C.matrix columns) (S.pairs part) f.0.items f.1) }
{
    columns.are_listed();
    let mut search = ComponentSearch::new(alloc, columns, part)?;
    search.explore_all(columns, part);
    let (state, count) = search.end();
    are_small(state.as_slice());
    Ok((state, count))
}

// A number of 32 bits is at most `u32::MAX`: a fact for proofs, at no cost.
#[inline(always)]
fn are_small(numbers: &[u32])
    ensures { (r : ℕ) → look numbers.now r ≤ none }
{}

impl ComponentSearch {
    // Searches from the mate of each square column that an earlier one does not lead to.
    fn explore_all<C: ColumnLists, S: SquarePart>(&mut self, columns: C, part: S)
        requires part { IsSquarePart (C.matrix columns) (S.rows part) (S.cols part) (S.pairs part) }
        requires search { IsDepthFirst (C.matrix columns) (C.listed columns) (S.pairs part)
            self.old }
        requires empty { self.old.frames ≡ [] }
        ensures search { IsDepthFirst (C.matrix columns) (C.listed columns) (S.pairs part)
            self.new }
        ensures empty { self.new.frames ≡ [] }
        ensures met { (r c : ℕ) → Among c (S.cols part) → Among (r, c) (S.pairs part)
            → look self.new.state r ≢ 0 }
    {
        for place in 0..part.len() {
            let row = part.row_of(part.col_at(place));
            if !self.is_met(row.0) {
                self.explore(columns, part, row);
            }
        }
    }

    // Enters a row and all rows that it leads to, and finishes their components.
    fn explore<C: ColumnLists, S: SquarePart>(&mut self, columns: C, part: S, root: Row)
        requires part { IsSquarePart (C.matrix columns) (S.rows part) (S.cols part) (S.pairs part) }
        requires search { IsDepthFirst (C.matrix columns) (C.listed columns) (S.pairs part)
            self.old }
        requires empty { self.old.frames ≡ [] }
        requires root { IsSquareRow (C.matrix columns) root × (look self.old.state root ≡ 0) }
        ensures search { IsDepthFirst (C.matrix columns) (C.listed columns) (S.pairs part)
            self.new }
        ensures empty { self.new.frames ≡ [] }
        ensures root { look self.new.state root ≢ 0 }
        ensures met { StaysMet self.old.state self.new.state }
    {
        let mut place = self.enter(root.0);
        let mut list = list_of(columns, part, root);
        let mut at = 0;
        'search: loop {
            at = self.scan(list, at);
            if at < list.len() {
                let next = list.at(at) as u32;
                self.wait(place, at as u32 + 1);
                place = self.enter(next);
                list = list_of(columns, part, Row(next));
                at = 0;
            } else {
                self.leave(place);
                let Some((back, gone)) = self.back() else {
                    return;
                };
                place = back;
                list = list_of(columns, part, Row(self.row_at(place)));
                at = gone as usize;
            }
        }
    }
}

// The rows to which a row of the square part leads: those of its mate.
#[inline(always)]
fn list_of<C: ColumnLists, S: SquarePart>(columns: C, part: S, row: Row) -> C::Rows
    requires part { IsSquarePart (C.matrix columns) (S.rows part) (S.cols part) (S.pairs part) }
    requires square { IsSquareRow (C.matrix columns) row }
    ensures { C.Rows.numbers result ≡ C.listed columns (col_in (S.pairs part) row) }
{
    columns.rows_of(part.col_of(row))
}
