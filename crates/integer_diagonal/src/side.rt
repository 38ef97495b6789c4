//! The two sides that a phase can search from.

ghost use Rattle.std.specs.Prelude.{◌≡◌, ◌≢◌, ◌<◌, IfSome};

use bip_graph::Matching;
use sp_ids::{Col, Row};

/// The columns or the rows of a square matrix.
#[derive(Clone, Copy, PartialEq, Eq)]
pub enum VertexSide {
    Columns,
    Rows,
}

impl VertexSide {
    /// The other side.
    pub fn other(self) -> VertexSide
        ensures { result ≢ self }
    {
        match self {
            VertexSide::Columns => VertexSide::Rows,
            VertexSide::Rows => VertexSide::Columns,
        }
    }

    /// The mate of a vertex of this side, if it has one.
    pub fn mate(self, matching: &Matching, vertex: u32) -> Option<u32>
        requires vertex { vertex < matching.now.rows }
        requires square { matching.now.rows ≡ matching.now.cols }
        ensures { IfSome result (λ mate. mate < matching.now.rows) }
    {
        matching.is_matching();
        match self {
            VertexSide::Columns => match matching.row_of(Col(vertex)) {
                Some(row) => Some(row.0),
                None => None,
            },
            VertexSide::Rows => match matching.col_of(Row(vertex)) {
                Some(col) => Some(col.0),
                None => None,
            },
        }
    }
}
