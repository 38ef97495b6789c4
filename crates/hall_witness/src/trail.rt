//! The marks of a search and the columns that it has queued.

ghost use Rattle.std.specs.Prelude.{◌≡◌, ◌<◌, ◌≤◌, true, false, [], ◌∷◌, length, slice_index_or, slice_set};
ghost use Rattle.bip_defs.specs.Lists.{IsMarked};
ghost use Rattle.bip_defs.specs.Queues.{IsPrefix, at};
ghost use Rattle.hall_witness.specs.Search.{Enters};

use crate::marks::ColumnMarks;
use sp_ids::Col;
use std::marker::Model;
use std::mem::swap;

/// The marks of a search, and the columns that it has queued, each with the place of the column that
/// led to it. The queue has room for each column that has a mark.
#[derive(Drop)]
pub struct Trail<M: ColumnMarks> {
    /// One mark a column.
    pub marks: M,
    /// The columns, each with a place in this list.
    pub queue: Vec<(u32, u32)>,
}

impl<M: ColumnMarks> Model for Trail<M> {
    ghost use Rattle.std.specs.Prelude.{◌≤◌, length, vec_capacity};
    ghost use Rattle.hall_witness.specs.Trails.{Trailed};

    ghost Value = { Trailed };

    ghost view = { λ t. record { marks = M.marks t.marks; queue = t.queue.items } };

    ghost invariant = { λ t. length (M.marks t.marks) ≤ vec_capacity t.queue };
}

impl<M: ColumnMarks> Trail<M> {
    /// Marks a column, be it marked or not, and queues it first. No column is queued before.
    pub fn begin(&mut self, col: Col)
        requires col { col < length self.old.marks }
        requires empty { self.old.queue ≡ [] }
        ensures { self.new ≡ record {
          marks = slice_set self.old.marks col true;
          queue = (col, 0) ∷ [];
        } }
    {
        self.marks.mark(col);
        self.queue_first(col);
    }

    /// Queues a column first, and leaves its mark. No column is queued before.
    pub fn queue_first(&mut self, col: Col)
        requires room { 0 < length self.old.marks }
        requires empty { self.old.queue ≡ [] }
        ensures { self.new ≡ record { marks = self.old.marks; queue = (col, 0) ∷ [] } }
    {
        self.queue.push_reserved((col.0, 0));
    }

    /// Takes all columns out of the queue, and leaves the marks.
    pub fn clear(&mut self)
        ensures { self.new ≡ record { marks = self.old.marks; queue = [] } }
    {
        self.queue.clear();
    }

    /// Exchanges the marks for others of as many columns at most.
    pub fn swap_marks(&mut self, other: &mut M)
        requires { length (M.marks other.old) ≤ length self.old.marks }
        ensures marks { self.new ≡ record { marks = M.marks other.old; queue = self.old.queue } }
        ensures other { M.marks other.new ≡ self.old.marks }
    {
        swap(&mut self.marks, other);
    }

    /// How many columns are queued.
    pub fn len(&self) -> usize
        ensures { result ≡ length self.now.queue }
    {
        self.queue.len()
    }

    /// The column at a place of the queue.
    pub fn col(&self, place: u32) -> Col
        requires { place < length self.now.queue }
        ensures { result ≡ (at self.now.queue place).0 }
    {
        Col(self.queue[place as usize].0)
    }

    /// The columns of the queue, each with the place of the one that led to it.
    pub fn queued(&self) -> &[(u32, u32)]
        ensures { result.now ≡ self.now.queue }
    {
        self.queue.as_slice()
    }

    /// Whether a column is marked.
    pub fn is_marked(&self, col: Col) -> bool
        requires { col < length self.now.marks }
        ensures { result ≡ slice_index_or self.now.marks col false }
    {
        self.marks.is_marked(col)
    }

    // Marks a column and queues it with the place of the one that led to it, unless it is marked.
    pub(crate) fn enter(&mut self, col: Col, from: u32)
        requires col { col < length self.old.marks }
        requires room { ¬ IsMarked self.old.marks col
            → length self.old.queue < length self.old.marks }
        ensures entered { Enters col from self.old.marks self.old.queue
            self.new.marks self.new.queue }
        ensures grows { IsPrefix self.old.queue self.new.queue }
    {
        if self.marks.is_marked(col) {
            return;
        }
        self.marks.mark(col);
        self.queue.push_reserved((col.0, from));
    }
}
