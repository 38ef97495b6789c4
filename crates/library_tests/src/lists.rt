//! The lists of each call.

use crate::matrices::{Matched, Worked};
use crate::small::{List, Wanted};
use blocktri::{
    Compressed, NumberList, Refusal, Sizes, SquareOrder, Wants, block_order, decomposition, dmperm,
    matching,
};
use std::alloc::Global;

/// The sizes of a matrix of the table, as far as they are wanted.
pub(crate) fn sizes_of(worked: &Worked<'_>, wants: Wants) -> Sizes {
    let mut sizes = worked.sizes;
    if !wants.blocks {
        sizes.blocks = None;
    }
    if !wants.components {
        sizes.components = None;
    }
    sizes
}

/// The lists of a matching: the row of each column, and the column of each row.
#[derive(Clone, Copy)]
pub(crate) struct MateLists {
    row_of_column: List,
    column_of_row: List,
}

impl MateLists {
    pub(crate) fn new(lengths: [usize; 2]) -> MateLists {
        MateLists {
            row_of_column: List::new(lengths[0]),
            column_of_row: List::new(lengths[1]),
        }
    }

    /// Those with room for a matching of the matrix.
    pub(crate) fn of(worked: &Worked<'_>, wanted: Wanted) -> MateLists {
        MateLists::new([
            wanted.length(0, worked.least),
            wanted.length(1, worked.least_of_rows),
        ])
    }

    pub(crate) fn write<N: NumberList>(
        &mut self,
        alloc: Global,
        matrix: &Compressed<N>,
        is_least: bool,
    ) -> Result<u32, Refusal> {
        matching(
            alloc,
            matrix,
            is_least,
            self.row_of_column.places(),
            self.column_of_row.places(),
        )
    }

    pub(crate) fn have(&self, row_of_column: &[u32], column_of_row: &[u32]) -> bool {
        self.row_of_column.has(row_of_column) && self.column_of_row.has(column_of_row)
    }

    pub(crate) fn are_left(&self) -> bool {
        self.have(&[], &[])
    }
}

/// The lists of a block triangular form.
#[derive(Clone, Copy)]
pub(crate) struct FormLists {
    row_order: List,
    column_order: List,
    block_starts: List,
    row_component: List,
    column_component: List,
}

impl FormLists {
    pub(crate) fn new(lengths: [usize; 5]) -> FormLists {
        FormLists {
            row_order: List::new(lengths[0]),
            column_order: List::new(lengths[1]),
            block_starts: List::new(lengths[2]),
            row_component: List::new(lengths[3]),
            column_component: List::new(lengths[4]),
        }
    }

    /// Those with room for the form of the matrix.
    pub(crate) fn of(worked: &Worked<'_>, wanted: Wanted) -> FormLists {
        FormLists::new([
            wanted.length(0, worked.row_order),
            wanted.length(1, worked.column_order),
            wanted.length(2, worked.block_starts),
            wanted.length(3, worked.row_component),
            wanted.length(4, worked.column_component),
        ])
    }

    pub(crate) fn write<N: NumberList>(
        &mut self,
        alloc: Global,
        matrix: &Compressed<N>,
        wants: Wants,
    ) -> Result<Sizes, Refusal> {
        decomposition(
            alloc,
            matrix,
            wants,
            self.row_order.places(),
            self.column_order.places(),
            self.block_starts.places(),
            self.row_component.places(),
            self.column_component.places(),
        )
    }

    /// Whether they are those of the matrix, as far as they are wanted.
    pub(crate) fn have(&self, worked: &Worked<'_>, wants: Wants) -> bool {
        self.row_order.has_if(wants.blocks, worked.row_order)
            && self.column_order.has_if(wants.blocks, worked.column_order)
            && self.block_starts.has_if(wants.blocks, worked.block_starts)
            && self
                .row_component
                .has_if(wants.components, worked.row_component)
            && self
                .column_component
                .has_if(wants.components, worked.column_component)
    }

    pub(crate) fn are_left(&self) -> bool {
        self.row_order.is_left()
            && self.column_order.is_left()
            && self.block_starts.is_left()
            && self.row_component.is_left()
            && self.column_component.is_left()
    }
}

/// The lists of an order with entries all along the diagonal.
#[derive(Clone, Copy)]
pub(crate) struct OrderLists {
    row_order: List,
    column_order: List,
    block_starts: List,
    row_of_column: List,
}

impl OrderLists {
    pub(crate) fn new(lengths: [usize; 4]) -> OrderLists {
        OrderLists {
            row_order: List::new(lengths[0]),
            column_order: List::new(lengths[1]),
            block_starts: List::new(lengths[2]),
            row_of_column: List::new(lengths[3]),
        }
    }

    /// Those with room for an order of the matrix.
    pub(crate) fn of(worked: &Worked<'_>, wanted: Wanted) -> OrderLists {
        OrderLists::new([
            wanted.length(0, worked.row_order),
            wanted.length(1, worked.column_order),
            wanted.length(2, worked.block_starts),
            wanted.length(3, worked.least),
        ])
    }

    pub(crate) fn write<N: NumberList>(
        &mut self,
        alloc: Global,
        matrix: &Compressed<N>,
        wants_blocks: bool,
    ) -> Result<SquareOrder, Refusal> {
        block_order(
            alloc,
            matrix,
            wants_blocks,
            self.row_order.places(),
            self.column_order.places(),
            self.block_starts.places(),
            self.row_of_column.places(),
        )
    }

    /// Whether the matching is this one, and where blocks are wanted, the orders are those in which
    /// it stands on the diagonal, and the blocks start there.
    pub(crate) fn have(&self, pairs: &Matched<'_>, starts: &[u32], wants_blocks: bool) -> bool {
        self.row_order.has_if(wants_blocks, pairs.p)
            && self.column_order.has_if(wants_blocks, pairs.q)
            && self.block_starts.has_if(wants_blocks, starts)
            && self.row_of_column.has(pairs.row_of_column)
    }

    pub(crate) fn are_left(&self) -> bool {
        self.row_order.is_left()
            && self.column_order.is_left()
            && self.block_starts.is_left()
            && self.row_of_column.is_left()
    }
}

/// The lists of the permutations of a Dulmage-Mendelsohn decomposition.
#[derive(Clone, Copy)]
pub(crate) struct DmpermLists {
    p: List,
    q: List,
    r: List,
    s: List,
    row_of_column: List,
    row_component: List,
    column_component: List,
}

impl DmpermLists {
    pub(crate) fn new(lengths: [usize; 7]) -> DmpermLists {
        DmpermLists {
            p: List::new(lengths[0]),
            q: List::new(lengths[1]),
            r: List::new(lengths[2]),
            s: List::new(lengths[3]),
            row_of_column: List::new(lengths[4]),
            row_component: List::new(lengths[5]),
            column_component: List::new(lengths[6]),
        }
    }

    /// Those with room for the permutations of the matrix.
    pub(crate) fn of(worked: &Worked<'_>, wanted: Wanted) -> DmpermLists {
        DmpermLists::new([
            wanted.length(0, worked.row_order),
            wanted.length(1, worked.column_order),
            wanted.length(2, worked.row_cuts),
            wanted.length(3, worked.column_cuts),
            wanted.length(4, worked.least),
            wanted.length(5, worked.row_component),
            wanted.length(6, worked.column_component),
        ])
    }

    pub(crate) fn write<N: NumberList>(
        &mut self,
        alloc: Global,
        matrix: &Compressed<N>,
        wants: Wants,
    ) -> Result<Sizes, Refusal> {
        dmperm(
            alloc,
            matrix,
            wants,
            self.p.places(),
            self.q.places(),
            self.r.places(),
            self.s.places(),
            self.row_of_column.places(),
            self.row_component.places(),
            self.column_component.places(),
        )
    }

    /// Whether the matching is this one, and where blocks are wanted, the permutations are those in
    /// which it stands on the diagonal.
    pub(crate) fn have_pairs(&self, pairs: &Matched<'_>, wants_blocks: bool) -> bool {
        self.p.has_if(wants_blocks, pairs.p)
            && self.q.has_if(wants_blocks, pairs.q)
            && self.row_of_column.has(pairs.row_of_column)
    }

    /// Whether the cuts are those of the matrix, where blocks are wanted.
    pub(crate) fn have_cuts(&self, worked: &Worked<'_>, wants_blocks: bool) -> bool {
        self.r.has_if(wants_blocks, worked.row_cuts)
            && self.s.has_if(wants_blocks, worked.column_cuts)
    }

    /// Whether the components are those of the matrix, where they are wanted.
    pub(crate) fn have_components(&self, worked: &Worked<'_>, wants_components: bool) -> bool {
        self.row_component
            .has_if(wants_components, worked.row_component)
            && self
                .column_component
                .has_if(wants_components, worked.column_component)
    }

    pub(crate) fn are_left(&self) -> bool {
        self.p.is_left()
            && self.q.is_left()
            && self.r.is_left()
            && self.s.is_left()
            && self.row_of_column.is_left()
            && self.row_component.is_left()
            && self.column_component.is_left()
    }
}
