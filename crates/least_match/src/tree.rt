//! Trees of columns.

ghost use Rattle.std.specs.Prelude.{◌≡◌, ◌<◌, ◌≤◌, ◌++◌, ◌∷◌, [], length, vec_capacity, IfOk, IfSome, IfNone};
ghost use Rattle.bip_defs.specs.Lists.{Among, AreDistinct};
ghost use Rattle.bip_defs.specs.Queues.{at, heads};
ghost use Rattle.least_match.specs.Tree.{Reached};
ghost use Rattle.least_match.specs.Trees.{HaveCols};

use sp_ids::{Col, OutOfMemory};
use std::alloc::Global;
use std::marker::Model;

// Stands for no place: a queue has fewer columns.
const NONE: u32 = u32::MAX;

/// The columns that a search has reached, in that order, each with the place of its parent.
///
/// It keeps 12 bytes a column of the matrix.
#[derive(Drop)]
pub struct Tree {
    queue: Vec<(u32, u32)>,
    places: Vec<u32>,
}

impl Model for Tree {
    ghost use Rattle.std.specs.Prelude.{length, vec_capacity, ◌≤◌};
    ghost use Rattle.least_match.specs.Tree.{IsIndexed, Reached};

    ghost Value = { Reached };

    ghost view = { λ t. record { cols = length t.places.items; queue = t.queue.items } };

    ghost invariant = { λ t. (length t.places.items ≤ vec_capacity t.queue)
        × IsIndexed t.places.items t.queue.items };
}

impl Tree {
    /// Without columns, for a matrix of so many.
    pub fn new(alloc: Global, cols: u32) -> Result<Tree, OutOfMemory>
        ensures { IfOk result (λ t. t ≡ record { cols = cols; queue = [] }) }
    {
        let places = vec![in alloc; NONE; cols as usize]?;
        let queue = Vec::with_capacity(alloc, cols as usize)?;
        Ok(Tree { queue, places })
    }

    /// The number of columns that were reached.
    pub fn len(&self) -> u32
        ensures count { result ≡ length self.now.queue }
        ensures distinct { AreDistinct (heads self.now.queue) }
    {
        self.queue.len() as u32
    }

    /// The column at a place, and the place of its parent.
    pub fn at(&self, place: u32) -> (Col, u32)
        requires { place < length self.now.queue }
        ensures { result ≡ at self.now.queue place }
    {
        let (col, parent) = self.queue[place as usize];
        (Col(col), parent)
    }

    /// The place of a column, if it was reached.
    pub fn place_of(&self, col: Col) -> Option<u32>
        requires { col < self.now.cols }
        ensures within { IfSome result (λ i. i < length self.now.queue) }
        ensures at { IfSome result (λ i. (at self.now.queue i).0 ≡ col) }
        ensures none { IfNone result (¬ Among col (heads self.now.queue)) }
    {
        let place = self.places[col.0 as usize];
        if place == NONE { None } else { Some(place) }
    }

    /// Adds a column that was reached from the one at a place.
    pub fn push(&mut self, col: Col, parent: u32)
        requires col { col < self.old.cols }
        requires fresh { ¬ Among col (heads self.old.queue) }
        ensures { self.new ≡ record self.old { queue = self.old.queue ++ (col, parent) ∷ [] } }
    {
        self.places[col.0 as usize] = self.queue.len() as u32;
        self.queue.push_reserved((col.0, parent));
    }

    /// Forgets all columns. Work: one write a column that was reached.
    pub fn clear(&mut self)
        ensures { self.new ≡ record self.old { queue = [] } }
    {
        while let Some((col, _parent)) = self.queue.pop() {
            self.places[col as usize] = NONE;
        }
    }
}

/// The two trees of a search for an exchange that gives a column the row of another: the forward
/// one from the column that has the row, the backward one to the column that is to get it.
#[derive(Drop)]
pub struct SearchTrees {
    pub forward: Tree,
    pub backward: Tree,
}

impl SearchTrees {
    /// Without columns, for a matrix of so many.
    pub fn new(alloc: Global, cols: u32) -> Result<SearchTrees, OutOfMemory>
        ensures { IfOk result (HaveCols cols) }
    {
        let forward = Tree::new(alloc, cols)?;
        let backward = Tree::new(alloc, cols)?;
        Ok(SearchTrees { forward, backward })
    }
}
