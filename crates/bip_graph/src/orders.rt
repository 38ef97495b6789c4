//! Laws on the orders of a report, and on its line of the square part.

ghost use Rattle.std.specs.Prelude.{◌≡◌, ◌<◌, length};
ghost use Rattle.bip_defs.specs.Decomposition.{Decomposition, IsDecompositionOf};
ghost use Rattle.bip_defs.specs.Matrix.{Matrix, cols};
ghost use Rattle.bip_defs.specs.Once.{ListsOnce};
ghost use Rattle.bip_defs.specs.Triangular.{diagonal_blocks};
ghost use Rattle.bip_defs.specs.Blocks.{all_cols, all_rows};
ghost use Rattle.bip_graph.specs.Answers.{orders_of};
ghost use Rattle.bip_graph.specs.Orders.{IsZeroBelow};
ghost use Rattle.bip_graph.specs.Texts.{square_size};

/// In the orders of a report the matrix is block upper triangular: they go through the rows and the
/// columns of the diagonal blocks, which are the horizontal part, the fine blocks in their order
/// and the vertical part; they have each row and each column of the matrix once; and no row of a
/// diagonal block or behind it has an entry in a column before it.
///
/// The block triangular form of Pothen and Fan (1990), over the parts of Dulmage and Mendelsohn
/// (1958).
pub fn orders_are_block_upper_triangular()
    ensures rows_go { (d : Decomposition) → (orders_of d).0 ≡ all_rows (diagonal_blocks d) }
    ensures cols_go { (d : Decomposition) → (orders_of d).1 ≡ all_cols (diagonal_blocks d) }
    ensures rows_once { (a : Matrix) (d : Decomposition) → IsDecompositionOf a d
        → ListsOnce (λ r. r < a.rows) (orders_of d).0 }
    ensures cols_once { (a : Matrix) (d : Decomposition) → IsDecompositionOf a d
        → ListsOnce (λ c. c < cols a) (orders_of d).1 }
    ensures below { (a : Matrix) (d : Decomposition) → IsDecompositionOf a d
        → IsZeroBelow a (diagonal_blocks d) (orders_of d) }
{}

/// The number of rows that the line of the square part tells, which is the sum over its blocks, is
/// that of the square rows, and that of the square columns.
pub fn square_size_counts_the_square_part()
    ensures rows { (a : Matrix) (d : Decomposition) → IsDecompositionOf a d
        → square_size d.blocks ≡ length d.parts.square_rows }
    ensures cols { (a : Matrix) (d : Decomposition) → IsDecompositionOf a d
        → square_size d.blocks ≡ length d.parts.square_cols }
{}
