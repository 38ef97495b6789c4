//! What the analysis of a matrix answers.

use crate::Blocks;
use sp_ids::{Col, Row};

/// The coarse parts of Dulmage and Mendelsohn (1958), each a rising list: the horizontal part,
/// whose columns some maximum matching misses, the square part, and the vertical part, whose rows
/// some maximum matching misses.
#[derive(Drop)]
pub struct Parts {
    pub hr: Vec<Row>,
    pub hc: Vec<Col>,
    pub sr: Vec<Row>,
    pub sc: Vec<Col>,
    pub vr: Vec<Row>,
    pub vc: Vec<Col>,
}

/// The connected components of the horizontal and of the vertical part: the rows and columns of
/// each that chains of entries of the part join, both lists rising. Horizontal components stand by
/// their least columns, vertical ones by their least rows. A row or a column of a part that has no
/// entry in it is a component by itself, so one of the two lists may be empty.
#[derive(Drop)]
pub struct Components {
    pub horizontal: Blocks,
    pub vertical: Blocks,
}

/// The decomposition of a matrix of m rows, n columns and e entries: its rank, its coarse parts and
/// the fine blocks of its square part.
#[derive(Drop)]
pub struct Decomposition {
    pub m: u32,
    pub n: u32,
    pub e: u32,
    pub rank: u32,
    pub parts: Parts,
    pub blocks: Blocks,
}

/// The heaviest diagonal of a matrix, or why it has none.
#[derive(Drop)]
pub enum Heaviest {
    /// The matrix has not as many rows as columns.
    Rectangular,
    /// No perfect matching: the rank, and the columns that some maximum matching misses, rising.
    Singular {
        rank: u32,
        hall: Vec<Col>,
    },
    /// The pairs of the diagonal, rising by column, prices by row and by column, and the sum of the
    /// pairs' weights.
    Diagonal {
        pairs: Vec<(Row, Col)>,
        u: Vec<i128>,
        v: Vec<i128>,
        sum: i128,
    },
}

/// A perfect matching whose least weight is greatest, or why the matrix has none.
#[derive(Drop)]
pub enum Bottleneck {
    /// The matrix has not as many rows as columns.
    Rectangular,
    /// No perfect matching: the rank, and the columns that some maximum matching misses, rising.
    Singular {
        rank: u32,
        hall: Vec<Col>,
    },
    /// The pairs, rising by column, and the least of their weights, which is 0 of no pairs. `hall`
    /// are the columns, rising, that some maximum matching of the entries above that weight misses:
    /// they are more than their neighbours there, so that every perfect matching has a pair of at
    /// most that weight.
    Best {
        pairs: Vec<(Row, Col)>,
        least: u64,
        hall: Vec<Col>,
    },
}
