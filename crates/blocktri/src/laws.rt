//! Laws on the answers, at no cost.

ghost use Rattle.std.specs.Prelude.{◌≡◌, ◌↔◌, ◌-◌, ℕ, Bool, List, length, slice_index, true};
ghost use Rattle.bip_defs.specs.Lists.{Among};
ghost use Rattle.bip_defs.specs.Matching.{IsRank};
ghost use Rattle.bip_defs.specs.Matrix.{HasPlaces, Matrix, Place};
ghost use Rattle.bip_graph.specs.Answers.{IsAnalysis};
ghost use Rattle.blocktri.specs.Agreements.{ComponentsAgree, EachComponentsAre, EachFormIsOf, EachLeastMatchingIs, EachRankIs, LeastMatchingsAgree, OrdersAgree, SizesAgree};
ghost use Rattle.bip_defs.specs.Decomposition.{Decomposition};
ghost use Rattle.bip_graph.specs.Answers.{orders_of};
ghost use Rattle.bip_graph.specs.Matching.{Pairing};
ghost use Rattle.blocktri.specs.BlockOrders.{IsSquareOrder, IsUpperByBlocks, OrderLists};
ghost use Rattle.blocktri.specs.PairedOrders.{HasAllLists, TellsPairedOrder};
ghost use Rattle.blocktri.specs.PerfectMatchings.{HasNoPerfectMatching, IsBelowFullRank};
ghost use Rattle.filled_columns.specs.Filled.{filled};
ghost use Rattle.sp_pattern.specs.Columns.{AreColumns, matrix_of, places_of};

use filled_columns::filled_entries;
use sp_pattern::columns_give_their_places;

/// What the calls answer of compressed columns is what `btf` answers of a file with the same
/// places, in whatever order and however often either of them gives a place: both speak of one
/// matrix, and of one matrix there is one rank, one decomposition with the lists that it writes,
/// one list of components, and one least matching. Which maximum matching is found where the least
/// one is not asked for, and with it which entries stand on the diagonal of
/// [`crate::block_order`], is left open.
pub fn answers_are_those_of_a_file()
    ensures matrix { (rows : ℕ) (starts ids : List ℕ) (places : List Place) (a : Matrix)
        → AreColumns rows starts ids
        → ((p : Place) → Among p places ↔ Among p (places_of starts ids))
        → HasPlaces rows (length starts - 1) places a → a ≡ matrix_of rows starts ids }
    ensures rank { (a : Matrix) (j k : ℕ) → IsRank a j → IsRank a k → j ≡ k }
    ensures decomposition { (a : Matrix) → OrdersAgree a }
    ensures components { (a : Matrix) → ComponentsAgree a }
    ensures sizes { (a : Matrix) → SizesAgree a }
    ensures least_matching { (a : Matrix) → LeastMatchingsAgree a }
{
    columns_give_their_places();
}

/// What the calls answer of a matrix is what its report says, in either version and whatever it was
/// asked for: the rank; the orders, block starts and sizes of the decomposition that it lists; the
/// components, where it lists them; and the least matching, where its pairs are that one.
pub fn answers_are_those_of_a_report()
    ensures rank { (a : Matrix) (version : ℕ) (order pairs least : Bool) (text : List ℕ)
        (t : IsAnalysis a version order pairs least text) → EachRankIs a t.decomposition.rank }
    ensures decomposition { (a : Matrix) (version : ℕ) (order pairs least : Bool) (text : List ℕ)
        (t : IsAnalysis a version order pairs least text) → EachFormIsOf a t.decomposition }
    ensures components { (a : Matrix) (version : ℕ) (order pairs least : Bool) (text : List ℕ)
        (t : IsAnalysis a version order pairs least text) → EachComponentsAre a t.components }
    ensures least { (a : Matrix) (version : ℕ) (order pairs : Bool) (text : List ℕ)
        (t : IsAnalysis a version order pairs true text) → EachLeastMatchingIs a t.matching }
{}

/// A matrix has no perfect matching exactly where it is not square or its rank is less than its
/// size. So the calls that answer so ([`crate::block_order`], [`crate::heaviest`] and
/// [`crate::bottleneck`] by `NotSquare` or `Singular`) do it exactly there.
pub fn no_perfect_matching_is_below_full_rank()
    ensures { (a : Matrix) (rank : ℕ) → IsRank a rank
        → HasNoPerfectMatching a ↔ IsBelowFullRank a rank }
{}

/// In the orders of [`crate::block_order`] the matrix is block upper triangular: no entry's row is
/// in a later block than its column. The first block starts at 0, and behind the last one stands
/// the number of rows.
pub fn block_orders_are_block_upper_triangular()
    ensures upper { (a : Matrix) (d : Decomposition) (pairs : List Place) (rows old starts : List ℕ)
        → IsSquareOrder a d pairs rows old starts
        → IsUpperByBlocks a (length d.blocks) rows (orders_of d).1 starts }
    ensures first { (a : Matrix) (d : Decomposition) (pairs : List Place) (rows old starts : List ℕ)
        → IsSquareOrder a d pairs rows old starts → slice_index starts 0 ≡ 0 }
    ensures last { (a : Matrix) (d : Decomposition) (pairs : List Place) (rows old starts : List ℕ)
        → IsSquareOrder a d pairs rows old starts
        → slice_index starts (length d.blocks) ≡ a.rows }
{}

/// In the orders of [`crate::completed_order`] and [`crate::order_by`] the matrix filled with the
/// pairs is block upper triangular, and so is the matrix itself: no entry's row is in a later block
/// than its column.
pub fn paired_orders_are_block_upper_triangular()
    ensures filled { (a : Matrix) (m : Pairing) (count : ℕ) (old new : OrderLists)
        → TellsPairedOrder a m count old new → HasAllLists old → IsUpperByBlocks
        (filled a m.pairs) count new.row_order new.column_order new.block_starts }
    ensures entries { (a : Matrix) (m : Pairing) (count : ℕ) (old new : OrderLists)
        → TellsPairedOrder a m count old new → HasAllLists old → IsUpperByBlocks
        a count new.row_order new.column_order new.block_starts }
{
    filled_entries();
}
