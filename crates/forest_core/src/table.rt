//! Tables of numbers, some of which are not there yet.

ghost use Rattle.std.specs.Prelude.{◌≡◌, ℕ, ◌<◌, length, set, IfOk};
ghost use Rattle.forest_core.specs.Tables.{beside};

use sp_ids::OutOfMemory;
use std::alloc::Global;
use std::marker::Model;

// Stands for no number: no row or column has this one, since there are less than 2^32 of them.
const NONE: u32 = u32::MAX;

/// For each number below the table's length another number, or none. It keeps 4 bytes for each.
#[derive(Drop)]
pub struct Table {
    values: Vec<u32>,
}

impl Model for Table {
    ghost use Rattle.std.specs.Prelude.{ℕ, List, Option, map};
    ghost use Rattle.forest_core.specs.Tables.{read};

    ghost Value = { List (Option ℕ) };

    ghost view = { λ t. map read t.values.items };
}

impl Table {
    /// So many numbers with none beside them. Returns `OutOfMemory` if it cannot allocate the
    /// table.
    pub fn new(alloc: Global, len: u32) -> Result<Table, OutOfMemory>
        ensures length { IfOk result (λ t. length t ≡ len) }
        ensures none { IfOk result (λ t. (k : ℕ) → beside t k ≡ None) }
    {
        let values = vec![in alloc; NONE; len as usize]?;
        Ok(Table { values })
    }

    /// The number beside this one, if there is one.
    pub fn get(&self, at: u32) -> Option<u32>
        requires { at < length self.now }
        ensures { result ≡ beside self.now at }
    {
        let value = self.values[at as usize];
        if value == NONE { None } else { Some(value) }
    }

    /// The number beside this one, where there is one.
    pub fn at(&self, at: u32) -> u32
        requires within { at < length self.now }
        requires some { (v : ℕ) × (beside self.now at ≡ Some v) }
        ensures { beside self.now at ≡ Some result }
    {
        self.values[at as usize]
    }

    /// Puts a number beside this one.
    pub fn write(&mut self, at: u32, value: u32)
        requires within { at < length self.old }
        requires value { value < 4294967295 }
        ensures { self.new ≡ set self.old at (Some value) }
    {
        self.values[at as usize] = value;
    }

    /// Takes the number beside this one away.
    pub fn clear(&mut self, at: u32)
        requires { at < length self.old }
        ensures { self.new ≡ set self.old at None }
    {
        self.values[at as usize] = NONE;
    }
}
