//! The block upper triangular form that a decomposition gives, and its diagonal blocks.

ghost use Rattle.std.specs.Prelude.{◌≡◌, ◌<◌, ℕ, List, length};
ghost use Rattle.bip_defs.specs.Blocks.{Block, all_cols, all_rows};
ghost use Rattle.bip_defs.specs.Decomposition.{Decomposition, IsDecompositionOf};
ghost use Rattle.bip_defs.specs.Lists.{Among, Lists};
ghost use Rattle.bip_defs.specs.Matching.{IsMaximum};
ghost use Rattle.bip_defs.specs.Matrix.{Matrix, Place};
ghost use Rattle.bip_defs.specs.Once.{ListsOnce};
ghost use Rattle.bip_defs.specs.Parts.{IsSquareCol, IsSquareRow};
ghost use Rattle.bip_defs.specs.Triangular.{IsBlockUpperTriangular, IsProperPart, IsRowOver, PairUp, diagonal_blocks};

/// The horizontal part, the fine blocks in their order and the vertical part are a block upper
/// triangular form: each row and each column is in just one of them, and no entry's row is in a
/// later one than its column.
///
/// The outer parts are those of Dulmage and Mendelsohn (1958); the form of the whole matrix is that
/// of Pothen and Fan (1990), and that of the square part stands in Duff, Erisman and Reid, Direct
/// Methods for Sparse Matrices (1986).
pub fn decomposition_is_block_upper_triangular()
    ensures form { (a : Matrix) (d : Decomposition) → IsDecompositionOf a d
        → IsBlockUpperTriangular a (diagonal_blocks d) }
{}

/// Each fine block has as many rows as columns, and together they have each row and each column of
/// the square part once.
///
/// The pairs of a maximum matching in the square part stay inside the blocks (Pothen and Fan 1990).
pub fn fine_blocks_are_square()
    ensures square { (a : Matrix) (d : Decomposition) (b : Block) → IsDecompositionOf a d
        → Among b d.blocks → length b.rows ≡ length b.cols }
    ensures rows { (a : Matrix) (d : Decomposition) → IsDecompositionOf a d
        → ListsOnce (IsSquareRow a) (all_rows d.blocks) }
    ensures cols { (a : Matrix) (d : Decomposition) → IsDecompositionOf a d
        → ListsOnce (IsSquareCol a) (all_cols d.blocks) }
{}

/// Each maximum matching pairs the rows of each fine block with its columns: where each row is put
/// in the place of the column that it is paired with, the block has a zero-free diagonal.
///
/// Duff, Erisman and Reid (1986); Pothen and Fan (1990).
pub fn fine_blocks_have_zero_free_diagonals()
    ensures pairs { (a : Matrix) (d : Decomposition) (m : List Place) (b : Block)
        → IsDecompositionOf a d → IsMaximum a m → Among b d.blocks → PairUp m b }
{}

/// Some columns of a fine block, but not all, have entries in more rows of the block than they are.
///
/// The strong Hall property of an irreducible block (Pothen and Fan 1990).
pub fn fine_blocks_are_irreducible()
    ensures strong_hall { (a : Matrix) (d : Decomposition) (b : Block) (w rs : List ℕ)
        → IsDecompositionOf a d → Among b d.blocks → IsProperPart b w → Lists (IsRowOver a b w) rs
        → length w < length rs }
{}
