//! Components as a report lists them.

ghost use Rattle.std.specs.Prelude.{◌≡◌, ◌↔◌, ◌<◌, ◌^◌, ◌++◌, [], ◌∷◌, length, map, IsTrue, OnErr, OnOk};
ghost use Rattle.bip_defs.specs.Blocks.{all_cols, all_rows};
ghost use Rattle.report_reader.specs.ComponentArrays.{height, width};

use bip_graph::Blocks;
use sp_ids::{Col, OutOfMemory, Row};
use std::alloc::Global;
use std::marker::Model;

/// The components of one part, as a report lists them: each has a list of rows and a list of
/// columns, of less than 2^32 each.
///
/// Nothing bounds how many rows and columns they have together: a text may list a row in many
/// components, so a report within the limit on bytes can list more than a `Blocks` holds.
///
/// The rows of all components lie one after another in one array, and so do the columns, beside
/// the number of rows and of columns of each: it keeps 4 bytes a row, 4 a column and 8 a component.
#[derive(Drop)]
pub struct ComponentList {
    heights: Vec<u32>,
    widths: Vec<u32>,
    rows: Vec<Row>,
    cols: Vec<Col>,
}

impl Model for ComponentList {
    ghost use Rattle.std.specs.Prelude.{List};
    ghost use Rattle.bip_defs.specs.Blocks.{Block};
    ghost use Rattle.report_reader.specs.ComponentArrays.{AreArraysOf, shown};

    ghost Value = { List Block };

    ghost view = { λ c. shown c.heights.items c.widths.items c.rows.items c.cols.items };

    ghost invariant = { λ c. AreArraysOf c.heights.items c.widths.items c.rows.items c.cols.items
        (shown c.heights.items c.widths.items c.rows.items c.cols.items) };
}

impl ComponentList {
    /// No components. Takes no memory.
    pub fn new(alloc: Global) -> Self
        ensures { result ≡ [] }
    {
        ComponentList {
            heights: Vec::new(alloc),
            widths: Vec::new(alloc),
            rows: Vec::new(alloc),
            cols: Vec::new(alloc),
        }
    }

    /// The number of components.
    pub fn len(&self) -> usize
        ensures { result ≡ length self.now }
    {
        self.heights.len()
    }

    /// The rows of all components, component by component.
    pub fn all_rows(&self) -> &[Row]
        ensures { result.now ≡ all_rows self.now }
    {
        self.rows.as_slice()
    }

    /// The columns of all components, component by component.
    pub fn all_cols(&self) -> &[Col]
        ensures { result.now ≡ all_cols self.now }
    {
        self.cols.as_slice()
    }

    /// Whether these are the components, in the same order. Takes no memory. Work: a look at each
    /// row, column and component of both, if there are as many.
    pub fn are(&self, components: &Blocks) -> bool
        ensures { IsTrue result ↔ (self.now ≡ components.now) }
    {
        if !self.have_sizes_of(components) {
            return false;
        }
        let same_rows = self.all_rows() == components.all_rows();
        if !same_rows {
            return false;
        }
        self.all_cols() == components.all_cols()
    }

    // Whether each has as many rows and columns as the one of the same place there.
    fn have_sizes_of(&self, components: &Blocks) -> bool
        ensures { IsTrue result ↔ ((map height self.now ≡ map height components.now)
            × (map width self.now ≡ map width components.now)) }
    {
        if self.len() != components.len() {
            return false;
        }
        for at in 0..components.len() {
            if self.heights[at] as usize != components.rows(at).len()
                || self.widths[at] as usize != components.cols(at).len()
            {
                return false;
            }
        }
        true
    }

    /// Appends a component of these rows and columns.
    ///
    /// Returns `OutOfMemory` if it cannot allocate it, and then the list stays as it is. Work: one
    /// copy of both.
    pub fn push(&mut self, rows: &[Row], cols: &[Col]) -> Result<(), OutOfMemory>
        requires rows { length rows.now < 2 ^ 32 }
        requires cols { length cols.now < 2 ^ 32 }
        ensures ok { OnOk result
            (self.new ≡ self.old ++ record { rows = rows.now; cols = cols.now } ∷ []) }
        ensures err { OnErr result (self.new ≡ self.old) }
    {
        // Once there is room nothing fails, so all four arrays grow or none.
        self.heights.reserve(1)?;
        self.widths.reserve(1)?;
        self.rows.reserve(rows.len())?;
        self.cols.reserve(cols.len())?;
        self.rows.extend_from_slice(rows)?;
        self.cols.extend_from_slice(cols)?;
        self.heights.push_reserved(rows.len() as u32);
        self.widths.push_reserved(cols.len() as u32);
        Ok(())
    }
}

/// The components of both parts, as a report of version 2 lists them.
#[derive(Drop)]
pub struct ListedComponents {
    pub horizontal: ComponentList,
    pub vertical: ComponentList,
}
