//! The search for a nearest unmatched row.

ghost use Rattle.std.specs.Bool.{OnFalse, OnTrue};
ghost use Rattle.std.specs.Prelude.{◌≡◌, ℕ, ◌+◌, ◌<◌, ◌≤◌, ◌^◌, ◌∷◌, ◌++◌, [], true, length, set, slice_index, IfOk, IfSome, IfNone, OnOk};
ghost use Rattle.bip_defs.specs.Lists.{Among};
ghost use Rattle.bip_defs.specs.Matching.{cols_of, rows_of};
ghost use Rattle.bip_defs.specs.Matrix.{cols};
ghost use Rattle.integer_diagonal.specs.Labels.{AreBeyond, AreListed, IsClear, IsLabelled, Looks, Puts, Takes, labels_of, tree_of};
ghost use Rattle.integer_diagonal.specs.Duals.{IsAssignment, priced};
ghost use Rattle.integer_diagonal.specs.Searches.{CanBeCleared, CanSearch, Finds, HasLooked, Settles, StaysListed};
ghost use Rattle.integer_diagonal.specs.Amounts.{HasRoom, infinity};

use crate::amount::Amount;
use crate::assignment::Assignment;
use crate::frontier::Frontier;
use crate::width::Width;
use bip_graph::Matching;
use sp_ids::{Col, Id, OutOfMemory, Row};
use sp_pattern::{Neighbours, Weights};
use std::alloc::{AllocError, Global};

/// What a search keeps. The queue has the columns that it has come to, each with the place of the
/// one that it was led from, and their distances. Beside it stand how many searches there were
/// before, and how many columns they came to.
#[derive(Drop)]
pub struct DijkstraSearch<W: Width> {
    pub distances: Vec<Amount<W>>,
    pub parents: Vec<u32>,
    pub settled: Vec<bool>,
    pub reached: Vec<u32>,
    pub queue: Vec<(u32, u32)>,
    pub depths: Vec<Amount<W>>,
    pub frontier: Frontier<W>,
    pub searches: u64,
    pub visits: u64,
}

/// The nearest unmatched row so far, with its distance and the place of the column that it was
/// reached from.
#[derive(Clone, Copy)]
pub struct Nearest<W: Width> {
    pub row: u32,
    pub distance: Amount<W>,
    pub place: u32,
}

impl<W: Width> Nearest<W> {
    /// Whether there is one.
    pub fn exists(&self) -> bool
        requires { self.now.distance ≤ infinity }
        ensures yes { OnTrue result (self.now.distance < infinity) }
        ensures no { OnFalse result (self.now.distance ≡ infinity) }
    {
        self.distance < Amount::infinity()
    }
}

impl<W: Width> DijkstraSearch<W> {
    /// For a matrix of so many rows, and as many columns.
    pub fn new(alloc: Global, rows: u32) -> Result<DijkstraSearch<W>, OutOfMemory>
        ensures clear { IfOk result (λ s. IsClear rows (tree_of s) (labels_of s)) }
        ensures listed { IfOk result (λ s. s.reached.items ≡ []) }
    {
        let rows = rows as usize;
        let distances = vec![in alloc; Amount::infinity(); rows]?;
        let parents = vec![in alloc; 0u32; rows]?;
        let settled = vec![in alloc; false; rows]?;
        Ok(DijkstraSearch {
            distances,
            parents,
            settled,
            reached: Vec::with_capacity(alloc, rows)?,
            queue: Vec::with_capacity(alloc, rows)?,
            depths: Vec::with_capacity(alloc, rows)?,
            frontier: Frontier::new(alloc),
            searches: 0,
            visits: 0,
        })
    }

    /// Makes ready for the next search. Work: linear in what the last one reached.
    pub fn clear(&mut self)
        requires listed { AreListed (labels_of self.old) self.old.reached.items }
        requires settled { length self.old.settled.items ≡ length self.old.distances.items }
        requires parents { length self.old.parents.items ≡ length self.old.distances.items }
        ensures clear { IsClear (length self.old.distances.items) (tree_of self.new)
            (labels_of self.new) }
        ensures listed { self.new.reached.items ≡ [] }
    {
        for k in 0..self.reached.len() {
            let row = self.reached[k] as usize;
            self.distances[row] = Amount::infinity();
            self.settled[row] = false;
        }
        self.searches = self.searches.saturating_add(1);
        self.visits = self.visits.saturating_add(self.queue.len() as u64);
        self.reached.clear();
        self.queue.clear();
        self.depths.clear();
        self.frontier.clear();
    }

    /// Goes from an unmatched column to the columns that are nearest by reduced cost, until no
    /// unmatched row can be nearer than the one that was found (Dijkstra 1959).
    pub fn find(
        &mut self,
        weights: &Weights,
        assignment: &Assignment<W>,
        root: Col,
    ) -> Result<Nearest<W>, AllocError>
        requires can { CanSearch weights.now assignment.now root W.limit }
        requires clear { IsClear weights.now.matrix.rows (tree_of self.old) (labels_of self.old) }
        requires listed { self.old.reached.items ≡ [] }
        ensures finds { IfOk result (Finds (priced weights.now assignment.now)
            assignment.now.matching.pairs root (tree_of self.new)) }
        ensures clearable { OnOk result (CanBeCleared weights.now.matrix.rows self.new) }
    {
        let mut nearest = Nearest {
            row: 0,
            distance: Amount::infinity(),
            place: 0,
        };
        self.enter(root, 0, Amount::zero())?;
        self.scan(weights, assignment, 0, &mut nearest)?;
        while let Some(closest) = self.next(nearest.distance) {
            let (distance, row) = closest;
            let place = self.settle(&assignment.matching, row, distance)?;
            self.scan(weights, assignment, place, &mut nearest)?;
        }
        Ok(nearest)
    }

    // Takes out the nearest row that is not settled, if it is nearer than the limit.
    fn next(&mut self, limit: Amount<W>) -> Option<(Amount<W>, u32)>
        requires { (e : ℕ × ℕ) → Among e self.old.frontier → e.1 < length self.old.settled.items }
        ensures taken { IfSome result
            (λ e. Takes (labels_of self.old) (labels_of self.new) e.0 e.1 limit) }
        ensures none { IfNone result
            (AreBeyond (labels_of self.old) limit
            × (labels_of self.new ≡ record (labels_of self.old) { waiting = self.new.frontier })) }
        ensures tree { tree_of self.new ≡ tree_of self.old }
        ensures listed { self.new.reached.items ≡ self.old.reached.items }
    {
        while let Some(nearest) = self.frontier.pop() {
            let (distance, row) = nearest;
            if distance >= limit {
                return None;
            }
            if !self.settled[row as usize] {
                return Some((distance, row));
            }
        }
        None
    }

    // Goes over a matched row to its mate, which it puts at the end of the queue. Gives its place.
    fn settle(
        &mut self,
        matching: &Matching,
        row: u32,
        distance: Amount<W>,
    ) -> Result<u32, AllocError>
        requires row { row < matching.now.rows }
        requires labelled { IsLabelled matching.now.pairs (labels_of self.old) row }
        requires few { length self.old.queue.items < 2 ^ 32 }
        ensures place { IfOk result (λ place. place ≡ length self.old.queue.items) }
        ensures settles { OnOk result
            (Settles matching.now.pairs row distance self.old self.new) }
    {
        let place = self.queue.len() as u32;
        match matching.col_of(Row(row)) {
            Some(col) => {
                let parent = self.parents[row as usize];
                self.settled[row as usize] = true;
                self.enter(col, parent, distance)?;
                Ok(place)
            }
            None => unreachable!(),
        }
    }

    // Puts a column at the end of the queue.
    fn enter(&mut self, col: Col, parent: u32, depth: Amount<W>) -> Result<(), AllocError>
        ensures tree { OnOk result
            (tree_of self.new ≡ record {
              queue = self.old.queue.items ++ (col, parent) ∷ [];
              depths = self.old.depths.items ++ depth ∷ [];
            }) }
        ensures labels { labels_of self.new ≡ labels_of self.old }
        ensures listed { self.new.reached.items ≡ self.old.reached.items }
    {
        self.queue.push((col.0, parent))?;
        self.depths.push(depth)?;
        Ok(())
    }

    // Looks at the entries of the column at the place, the last of the queue.
    fn scan(
        &mut self,
        weights: &Weights,
        assignment: &Assignment<W>,
        place: u32,
        nearest: &mut Nearest<W>,
    ) -> Result<(), AllocError>
        requires assignment { IsAssignment weights.now assignment.now }
        requires room { HasRoom (cols weights.now.matrix) assignment.now.top W.limit }
        requires place { place < length self.old.queue.items }
        requires search { (root : ℕ)
            × HasLooked weights.now assignment.now root self.old nearest.old place place }
        ensures tree { tree_of self.new ≡ tree_of self.old }
        ensures search { OnOk result ((root : ℕ)
            → HasLooked weights.now assignment.now root self.old nearest.old place place
            → HasLooked weights.now assignment.now root self.new nearest.new place (place + 1)) }
    {
        let col = Col(self.queue[place as usize].0);
        let depth = self.depths[place as usize];
        let dual = assignment.duals[col.0 as usize];
        let rows = weights.rows_of(col);
        let weights = weights.weights_of(col);
        for k in 0..rows.len() {
            let row = rows[k].number();
            let price = assignment.prices[row as usize];
            let distance = assignment.distance(price, weights[k], dual, depth);
            self.look(&assignment.matching, row, distance, place, nearest)?;
        }
        Ok(())
    }

    // Looks at an entry that leads from the place to the row at this distance.
    fn look(
        &mut self,
        matching: &Matching,
        row: u32,
        distance: Amount<W>,
        place: u32,
        nearest: &mut Nearest<W>,
    ) -> Result<(), AllocError>
        requires row { row < matching.now.rows }
        requires distances { row < length self.old.distances.items }
        requires parents { row < length self.old.parents.items }
        requires near { distance < infinity }
        ensures looked { OnOk result
            (Looks matching.now.pairs row distance place (labels_of self.old) nearest.old
            (labels_of self.new) nearest.new) }
        ensures tree { tree_of self.new ≡ tree_of self.old }
        ensures listed { OnOk result (StaysListed self.old self.new) }
    {
        if distance >= nearest.distance || distance >= self.distances[row as usize] {
            return Ok(());
        }
        match matching.col_of(Row(row)) {
            Some(_) => self.reach(row, distance, place)?,
            None => {
                *nearest = Nearest {
                    row,
                    distance,
                    place,
                };
            }
        }
        Ok(())
    }

    // Notes that a matched row is nearer than was known.
    fn reach(&mut self, row: u32, distance: Amount<W>, place: u32) -> Result<(), AllocError>
        requires distances { row < length self.old.distances.items }
        requires parents { row < length self.old.parents.items }
        requires nearer { distance < infinity }
        ensures put { OnOk result
            (Puts (labels_of self.old) (labels_of self.new) row distance place) }
        ensures tree { tree_of self.new ≡ tree_of self.old }
        ensures listed { OnOk result (StaysListed self.old self.new) }
    {
        self.list(row)?;
        let at = row as usize;
        self.distances[at] = distance;
        self.parents[at] = place;
        self.frontier.push(distance, row)?;
        Ok(())
    }

    // Lists a row that is to be given its first distance.
    fn list(&mut self, row: u32) -> Result<(), AllocError>
        requires { row < length self.old.distances.items }
        ensures labels { labels_of self.new ≡ labels_of self.old }
        ensures tree { tree_of self.new ≡ tree_of self.old }
        ensures listed { OnOk result
            (AreListed (labels_of self.old) self.old.reached.items
            → AreListed (labels_of self.new) self.new.reached.items
            × Among row self.new.reached.items) }
    {
        if self.distances[row as usize] == Amount::infinity() {
            self.reached.push(row)?;
            return Ok(());
        }
        Ok(())
    }
}
