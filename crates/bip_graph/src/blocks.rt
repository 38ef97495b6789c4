//! Lists of blocks: the fine blocks of a square part, or the connected components of another one.

ghost use Rattle.std.specs.Prelude.{◌≡◌, ◌↔◌, ◌+◌, ◌<◌, ◌≤◌, ◌^◌, ◌++◌, [], ◌∷◌, length, slice_index, slice_range, IfOk, IsTrue, OnErr, OnOk};
ghost use Rattle.bip_defs.specs.Blocks.{all_cols, all_rows, block_at};
ghost use Rattle.bip_graph.specs.Blocks.{AreEnds, start_at};

use sp_ids::{Col, OutOfMemory, Row};
use std::alloc::Global;
use std::marker::Model;

/// A list of blocks. A block is a list of rows and a list of columns: a fine block, or a connected
/// component.
///
/// The rows of all blocks lie one after another in one array, and so do the columns: it keeps 4
/// bytes a row, 4 a column and 8 a block.
#[derive(Drop)]
pub struct Blocks {
    row_ends: Vec<u32>,
    col_ends: Vec<u32>,
    rows: Vec<Row>,
    cols: Vec<Col>,
}

impl Model for Blocks {
    ghost use Rattle.std.specs.Prelude.{List};
    ghost use Rattle.bip_defs.specs.Blocks.{Block};
    ghost use Rattle.bip_graph.specs.Blocks.{AreOffsets, blocks_from};

    ghost Value = { List Block };

    ghost view = { λ b. blocks_from 0 0 b.row_ends.items b.col_ends.items b.rows.items
        b.cols.items };

    ghost invariant = { λ b.
        AreOffsets b.row_ends.items b.col_ends.items b.rows.items b.cols.items };
}

impl Blocks {
    /// No blocks. Takes no memory.
    pub fn new(alloc: Global) -> Self
        ensures { result ≡ [] }
    {
        Blocks {
            row_ends: Vec::new(alloc),
            col_ends: Vec::new(alloc),
            rows: Vec::new(alloc),
            cols: Vec::new(alloc),
        }
    }

    /// No blocks, with room for so many, of so many rows and so many columns in all: until then no
    /// `push` copies what is there.
    ///
    /// Returns `OutOfMemory` if it cannot allocate that room.
    pub fn with_room(
        alloc: Global,
        blocks: usize,
        rows: usize,
        cols: usize,
    ) -> Result<Self, OutOfMemory>
        ensures { IfOk result (λ b. b ≡ []) }
    {
        Ok(Blocks {
            row_ends: Vec::with_capacity(alloc, blocks)?,
            col_ends: Vec::with_capacity(alloc, blocks)?,
            rows: Vec::with_capacity(alloc, rows)?,
            cols: Vec::with_capacity(alloc, cols)?,
        })
    }

    /// The number of blocks.
    pub fn len(&self) -> usize
        ensures { result ≡ length self.now }
    {
        self.row_ends.len()
    }

    /// Whether there is no block.
    pub fn is_empty(&self) -> bool
        ensures { IsTrue result ↔ (self.now ≡ []) }
    {
        self.row_ends.is_empty()
    }

    /// The rows of a block, which is named by its place from 0 on.
    pub fn rows(&self, block: usize) -> &[Row]
        requires { block < length self.now }
        ensures { result.now ≡ (block_at self.now block).rows }
    {
        stretch(self.row_ends.as_slice(), self.rows.as_slice(), block)
    }

    /// The columns of a block, which is named by its place from 0 on.
    pub fn cols(&self, block: usize) -> &[Col]
        requires { block < length self.now }
        ensures { result.now ≡ (block_at self.now block).cols }
    {
        stretch(self.col_ends.as_slice(), self.cols.as_slice(), block)
    }

    /// The rows of all blocks, block by block.
    pub fn all_rows(&self) -> &[Row]
        ensures { result.now ≡ all_rows self.now }
    {
        self.rows.as_slice()
    }

    /// The columns of all blocks, block by block.
    pub fn all_cols(&self) -> &[Col]
        ensures { result.now ≡ all_cols self.now }
    {
        self.cols.as_slice()
    }

    /// Appends a block of these rows and columns.
    ///
    /// Returns `OutOfMemory` if there is no room for it, and then the list stays as it is; a
    /// list has no room for 2^32 rows or columns in all. Work: one copy of both.
    pub fn push(&mut self, rows: &[Row], cols: &[Col]) -> Result<(), OutOfMemory>
        ensures ok { OnOk result
            (self.new ≡ self.old ++ record { rows = rows.now; cols = cols.now } ∷ []) }
        ensures err { OnErr result (self.new ≡ self.old) }
    {
        if !self.can_hold(rows.len(), cols.len()) {
            return Err(OutOfMemory);
        }
        self.append(rows, cols)
    }

    // Whether so many rows and columns more are less than 2^32 of each in all.
    fn can_hold(&self, rows: usize, cols: usize) -> bool
        requires few { (rows < 2 ^ 63) × (cols < 2 ^ 63) }
        ensures rows { IsTrue result → length (all_rows self.now) + rows < 2 ^ 32 }
        ensures cols { IsTrue result → length (all_cols self.now) + cols < 2 ^ 32 }
    {
        let limit = u32::MAX as usize;
        self.all_rows().len() + rows <= limit && self.all_cols().len() + cols <= limit
    }

    // Appends a block.
    fn append(&mut self, rows: &[Row], cols: &[Col]) -> Result<(), OutOfMemory>
        requires few_rows { length (all_rows self.old) + length rows.now < 2 ^ 32 }
        requires few_cols { length (all_cols self.old) + length cols.now < 2 ^ 32 }
        ensures ok { OnOk result
            (self.new ≡ self.old ++ record { rows = rows.now; cols = cols.now } ∷ []) }
        ensures err { OnErr result (self.new ≡ self.old) }
    {
        // Once there is room nothing fails, so all four arrays grow or none.
        self.row_ends.reserve(1)?;
        self.col_ends.reserve(1)?;
        self.rows.reserve(rows.len())?;
        self.cols.reserve(cols.len())?;
        self.rows.extend_from_slice(rows)?;
        self.cols.extend_from_slice(cols)?;
        self.row_ends.push_reserved(self.rows.len() as u32);
        self.col_ends.push_reserved(self.cols.len() as u32);
        Ok(())
    }
}

// The part of a flat list from the end before the place to the end there.
fn stretch<'a, T>(ends: &[u32], flat: &'a [T], at: usize) -> &'a [T]
    requires at { at < length ends.now }
    requires ends { AreEnds 0 ends.now (length flat.now) }
    ensures { result.now ≡ slice_range flat.now (start_at 0 ends.now at) (slice_index ends.now at) }
{
    let from = start(ends, at, flat.len());
    &flat[from..ends[at] as usize]
}

// The end before the place. `long` is the end of the flat list.
fn start(ends: &[u32], at: usize, long: usize) -> usize
    requires at { at < length ends.now }
    requires ends { AreEnds 0 ends.now long }
    ensures start { result ≡ start_at 0 ends.now at }
    ensures rises { result ≤ slice_index ends.now at }
    ensures within { slice_index ends.now at ≤ long }
{
    if at == 0 { 0 } else { ends[at - 1] as usize }
}
