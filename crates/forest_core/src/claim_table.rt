//! Which column claimed each row, and the root of the row's tree.

ghost use Rattle.std.specs.Prelude.{◌≡◌, ℕ, ◌<◌, Some, length, set, IfOk, IfNone};
ghost use Rattle.forest_core.specs.Tables.{AreAlike, beside};

use sp_ids::{Col, Id, OutOfMemory, Row};
use std::alloc::Global;
use std::marker::Model;

// One row: both together are one word of 8 bytes, so that a look at both costs one access.
#[derive(Clone, Copy)]
struct RowClaim {
    holder: u32,
    root: u32,
}

// Stands for no claim: no column has this number, since there are less than 2^32 of them.
const NONE: RowClaim = RowClaim {
    holder: u32::MAX,
    root: u32::MAX,
};

/// For each row the column that claimed it and the root of its tree, or neither. It keeps 8 bytes
/// for each.
#[derive(Drop)]
pub struct ClaimTable {
    rows: Vec<RowClaim>,
}

impl Model for ClaimTable {
    ghost use Rattle.forest_core.specs.RowClaims.{claimed_by};
    ghost use Rattle.forest_core.specs.Tables.{Claimed};

    ghost Value = { Claimed };

    ghost view = { λ t. claimed_by t.rows.items };
}

impl ClaimTable {
    /// So many rows, none of which is claimed. Returns `OutOfMemory` if it cannot allocate the
    /// table.
    pub fn new(alloc: Global, rows: u32) -> Result<ClaimTable, OutOfMemory>
        ensures length { IfOk result (λ t. length t.holders ≡ rows) }
        ensures holders { IfOk result (λ t. (r : ℕ) → beside t.holders r ≡ None) }
        ensures roots { IfOk result (λ t. (r : ℕ) → beside t.roots r ≡ None) }
    {
        let rows = vec![in alloc; NONE; rows as usize]?;
        Ok(ClaimTable { rows })
    }

    /// The number of rows.
    pub fn len(&self) -> usize
        ensures { result ≡ length self.now.holders }
    {
        self.rows.len()
    }

    /// The column that claimed a row, where the row is claimed.
    pub fn holder(&self, row: Row) -> Option<Col>
        requires { row < length self.now.holders }
        ensures { result ≡ beside self.now.holders row }
    {
        let holder = self.rows[row.number() as usize].holder;
        if holder == NONE.holder {
            None
        } else {
            Some(Col(holder))
        }
    }

    /// The root of a row, where the row is claimed.
    pub fn root(&self, row: Row) -> Option<Col>
        requires { row < length self.now.holders }
        ensures root { result ≡ beside self.now.roots row }
        ensures none { IfNone result (beside self.now.holders row ≡ None) }
    {
        let claim = self.rows[row.number() as usize];
        if claim.holder == NONE.holder {
            None
        } else {
            Some(Col(claim.root))
        }
    }

    /// The column that claimed this row, which is claimed.
    pub fn holder_at(&self, row: Row) -> Col
        requires within { row < length self.now.holders }
        requires some { (c : ℕ) × (beside self.now.holders row ≡ Some c) }
        ensures { beside self.now.holders row ≡ Some result }
    {
        Col(self.rows[row.number() as usize].holder)
    }

    /// The root of this row, which is claimed.
    pub fn root_at(&self, row: Row) -> Col
        requires within { row < length self.now.holders }
        requires some { (c : ℕ) × (beside self.now.holders row ≡ Some c) }
        ensures { beside self.now.roots row ≡ Some result }
    {
        Col(self.rows[row.number() as usize].root)
    }

    /// Puts a column and a root beside a row.
    pub fn write(&mut self, row: Row, holder: Col, root: Col)
        requires within { row < length self.old.holders }
        requires holder { holder < 4294967295 }
        ensures holders { self.new.holders ≡ set self.old.holders row (Some holder) }
        ensures roots { self.new.roots ≡ set self.old.roots row (Some root) }
        ensures long { length self.old.roots ≡ length self.old.holders }
    {
        self.rows[row.number() as usize] = RowClaim {
            holder: holder.number(),
            root: root.number(),
        };
    }

    /// Takes the column and the root beside this row away.
    pub fn clear(&mut self, row: Row)
        requires { row < length self.old.holders }
        ensures holders { self.new.holders ≡ set self.old.holders row None }
        ensures roots { self.new.roots ≡ set self.old.roots row None }
        ensures alike { AreAlike self.new }
    {
        self.rows[row.number() as usize] = NONE;
    }

    /// Takes all columns and roots away. Work: one write in order for each row.
    pub fn clear_all(&mut self)
        ensures length { length self.new.holders ≡ length self.old.holders }
        ensures none { (r : ℕ) → beside self.new.holders r ≡ None }
        ensures alike { AreAlike self.new }
    {
        self.rows.as_mut_slice().fill(NONE);
    }
}
