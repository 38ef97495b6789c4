//! Sparse matrices by the places of their entries: matchings, coarse parts, fine blocks and their
//! order, as definitions in `specs/`, and the laws on them that every crate above rests on.
//!
//! A law is a function with an empty body: its contract is the theorem.
#![tactic(auto)]

ghost use Rattle.std.specs.Prelude.{◌≡◌, ◌+◌, ◌<◌, ◌↔◌, ℕ, suc, List, length};
ghost use Rattle.bip_defs.specs.Blocks.{Block, IsBlock, IsPerfect};
ghost use Rattle.bip_defs.specs.Components.{AreComponents, IsComponent};
ghost use Rattle.bip_defs.specs.Decomposition.{Decomposition, IsDecompositionOf};
ghost use Rattle.bip_defs.specs.LeastMatching.{IsLeastMaximum, code};
ghost use Rattle.bip_defs.specs.Lists.{Among, IsRising, Lists};
ghost use Rattle.bip_defs.specs.Matching.{IsHallSet, IsMatching, IsMaximum, IsRank, cols_of, transposed_places};
ghost use Rattle.bip_defs.specs.Matrix.{AreEntries, HasPlaces, IsEntry, IsTransposeOf, Matrix, Place, cols, neighbours, row_list, transpose};
ghost use Rattle.bip_defs.specs.Parts.{AreAllCounted, ArePartsOf, HasSurplus, IsHorizontalCol, IsHorizontalRow, IsSquareCol, IsVerticalCol, IsVerticalRow, Parts};
ghost use Rattle.bip_defs.specs.Paths.{IsAugmenting};
ghost use Rattle.bip_defs.specs.Searches.{AreReadOff};
ghost use Rattle.bip_defs.specs.Walks.{IsReached};
ghost use Rattle.bip_defs.specs.Witness.{IsWitness};

pub mod bottleneck;
pub mod connected_components;
pub mod edited_matrix;
pub mod examples;
pub mod triangular_form;

/// A matching that has a Hall set is maximum.
///
/// The deficiency form of Hall's theorem (Hall 1935; Konig 1931): the columns of the set can be
/// matched with their neighbours alone, so each matching leaves as many of them unmatched.
pub fn hall_set_shows_maximum()
    ensures { (a : Matrix) (m : List Place) (w : List ℕ) → IsMatching a m → IsHallSet a m w
        → IsMaximum a m }
{}

/// An augmenting path of entries shows a matching that is longer by one.
///
/// One half of Berge's theorem (Berge 1957).
pub fn augmenting_path_shows_more()
    ensures { (a : Matrix) (m path : List Place) → IsMatching a m → AreEntries a path
        → IsAugmenting m path → (n : List Place) × IsMatching a n × (length n ≡ suc (length m)) }
{}

/// Where every row of the columns that walks reach from unmatched columns is matched, these are the
/// columns that some maximum matching misses, and a Hall set.
///
/// The other half of Berge's theorem, and Dulmage and Mendelsohn's horizontal part (1958).
pub fn reached_columns_are_horizontal()
    ensures { (a : Matrix) (m : List Place) (w : List ℕ) → IsMatching a m → IsReached a m w
        → IsWitness a m w }
{}

/// The transpose exchanges rows and columns, and the vertical and the horizontal part.
pub fn transpose_turns_parts()
    ensures entries { (a : Matrix) → IsTransposeOf a (transpose a) }
    ensures maximum { (a b : Matrix) (m : List Place) → IsTransposeOf a b → IsMaximum a m
        → IsMaximum b (transposed_places m) }
    ensures rows { (a b : Matrix) (r : ℕ) → IsTransposeOf a b → IsVerticalRow a r
        ↔ IsHorizontalCol b r }
    ensures cols { (a b : Matrix) (c : ℕ) → IsTransposeOf a b → IsVerticalCol a c
        ↔ IsHorizontalRow b c }
{}

/// What is computed from the columns' lists follows the entries: the list of a row's columns, and
/// the neighbours of some columns.
pub fn lists_follow_the_entries()
    ensures of_row { (a : Matrix) (r : ℕ) → r < a.rows → Lists (λ c. IsEntry a r c) (row_list a r) }
    ensures of_columns { (a : Matrix) (w : List ℕ)
        → Lists (λ r. (c : ℕ) × Among c w × IsEntry a r c) (neighbours a w) }
{}

/// The horizontal and the vertical part share no row and no column.
pub fn parts_are_apart()
    ensures rows { (a : Matrix) (r : ℕ) → IsHorizontalRow a r → ¬ IsVerticalRow a r }
    ensures cols { (a : Matrix) (c : ℕ) → IsHorizontalCol a c → ¬ IsVerticalCol a c }
{}

/// Two searches from one matching, from the unmatched columns and from the unmatched rows, give the
/// six parts (Pothen and Fan 1990).
pub fn searches_give_parts()
    ensures { (a : Matrix) (m : List Place) (w v : List ℕ) (p : Parts) → IsMatching a m
        → IsReached a m w → IsReached (transpose a) (transposed_places m) v → AreReadOff a w v p
        → ArePartsOf a p }
{}

/// How many rows and columns the parts have.
///
/// The surplus of the horizontal and of the vertical part is what a maximum matching leaves unmatched
/// (Dulmage and Mendelsohn 1958; Pothen and Fan 1990).
pub fn parts_counted()
    ensures all { (a : Matrix) (p : Parts) → ArePartsOf a p → AreAllCounted a p }
    ensures surplus { (a : Matrix) (m : List Place) (p : Parts) → IsMaximum a m → ArePartsOf a p
        → HasSurplus a m p }
    ensures rank { (a : Matrix) (k : ℕ) (p : Parts) → IsRank a k → ArePartsOf a p
        → k ≡ length p.horizontal_rows + length p.square_rows + length p.vertical_cols }
{}

/// The strong components of the square part's columns, each with the mates of its columns, are the
/// fine blocks.
///
/// An entry lies in some perfect matching exactly where it is a pair or lies on an alternating
/// cycle (Pothen and Fan 1990).
pub fn numbered_components_are_blocks()
    ensures sound { (a : Matrix) (m : List Place) (number : ℕ → ℕ) (c : ℕ) (b : Block)
        → IsPerfect a m → AreComponents a m number → IsSquareCol a c
        → IsComponent a m number (number c) b → IsBlock a b }
    ensures complete { (a : Matrix) (m : List Place) (number : ℕ → ℕ) (b : Block) → IsPerfect a m
        → AreComponents a m number → IsBlock a b
        → (c : ℕ) × IsSquareCol a c × IsComponent a m number (number c) b }
{}

/// Two maximum matchings have one size.
pub fn one_rank()
    ensures { (a : Matrix) (m n : List Place) → IsMaximum a m → IsMaximum a n
        → length m ≡ length n }
{}

/// The six parts of a matrix are determined.
pub fn one_parts()
    ensures { (a : Matrix) (p q : Parts) → ArePartsOf a p → ArePartsOf a q → p ≡ q }
{}

/// A matrix has at most one rank, one list of each part and one list of blocks.
pub fn one_decomposition()
    ensures { (a : Matrix) (d e : Decomposition) → IsDecompositionOf a d → IsDecompositionOf a e
        → d ≡ e }
{}

/// Two least maximum matchings of a matrix have one code and the same pairs, and listed by column
/// they are equal.
pub fn one_least_matching()
    ensures code { (a : Matrix) (m n : List Place) → IsLeastMaximum a m → IsLeastMaximum a n
        → code a m ≡ code a n }
    ensures pairs { (a : Matrix) (m n : List Place) (p : Place) → IsLeastMaximum a m
        → IsLeastMaximum a n → Among p m ↔ Among p n }
    ensures by_column { (a : Matrix) (m n : List Place) → IsLeastMaximum a m → IsLeastMaximum a n
        → IsRising (cols_of m) → IsRising (cols_of n) → m ≡ n }
{}

/// The places determine the matrix.
pub fn one_matrix()
    ensures { (m n : ℕ) (places : List Place) (a b : Matrix) → HasPlaces m n places a
        → HasPlaces m n places b → a ≡ b }
{}
