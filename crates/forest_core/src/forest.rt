//! Forests: what is in them, which events are legal, and the events that let trees grow.

ghost use Rattle.std.specs.Prelude.{◌≡◌, ◌↔◌, ℕ, ◌+◌, ◌<◌, length, ◌∷◌, ◌++◌, [], IsTrue, IfOk, IfSome, IfNone};
ghost use Rattle.bip_defs.specs.Lists.{Among};
ghost use Rattle.bip_defs.specs.Matching.{Covers, rows_of, cols_of};
ghost use Rattle.bip_defs.specs.Matrix.{cols};
ghost use Rattle.bip_graph.specs.Matching.{IsMatchingOf};
ghost use Rattle.forest_core.specs.Current.{IsCurrent, base_of};
ghost use Rattle.forest_core.specs.Events.{AreFlipped, AreKept, Becomes, Grows, IsClosed, IsLegal, IsRenewed, Runs};
ghost use Rattle.forest_core.specs.Exchanged.{AreExchanged, all_flipped, flip_events, unflipped};
ghost use Rattle.forest_core.specs.Growing.{LeadsOn};
ghost use Rattle.forest_core.specs.Sound.{IsSound};
ghost use Rattle.forest_core.specs.Stored.{IsRootOfClaim};
ghost use Rattle.forest_core.specs.Trees.{HasTrees};
ghost use Rattle.bip_defs.specs.Forest.{InForest, IsRested, IsRootOfRow, IsSettled, IsUsedUp, RootOf, new_forest, roots_of};
ghost use Rattle.sp_ids.specs.declared.events.Event.TheVariants.{Claim, Win, Flip, Graft, Rebuild, Done};

use crate::adopted::Adopted;
use crate::claim_table::ClaimTable;
use crate::paths::{Flipped, exchange};
use crate::renew::{clear_claims, clear_leaves, keep};
use crate::table::Table;
use bip_graph::{Matching, Mates};
use sp_ids::{Col, Event, Id, OutOfMemory, Row};
use sp_pattern::Pattern;
use std::alloc::Global;
use std::marker::Model;

/// Alternating trees that grow from the columns that are unmatched in a base matching.
///
/// A column of the forest claims rows in which it has entries, and with a row comes its base mate.
/// A root wins a claimed row that is unmatched, its leaf; its path from there is then exchanged, at
/// the latest when the base matching is renewed.
///
/// It takes all its memory when it is made: 28 bytes a row and 17 a column, beside the matching.
/// Mates that it adopts, 4 bytes a row and 4 a column, it keeps beside the base matching until that
/// is renewed.
#[derive(Drop)]
pub struct Forest<'p> {
    pattern: &'p Pattern,
    base: Matching,
    adopted: Option<Adopted>,
    // By row the column that claimed it and the row's root.
    claimed: ClaimTable,
    // By root its leaf, and whether it is flipped.
    leaf_of: Table,
    marks: Vec<bool>,
    // The claims, and of each the row's root.
    claims: Vec<(Row, Col)>,
    claim_roots: Vec<Col>,
    leaves: Vec<(Col, Row)>,
    flipped: Vec<Col>,
    // The path of one root.
    path: Vec<(Row, Col)>,
}

impl<'p> Model for Forest<'p> {
    ghost use Rattle.bip_defs.specs.Forest.{State};

    ghost Value = { State };

    ghost use Rattle.forest_core.specs.Inside.{IsForest, state_of};

    ghost view = { state_of };

    ghost invariant = { IsForest };
}

impl<'p> Forest<'p> {
    /// The forest over a matching of entries of the pattern: no row is claimed.
    ///
    /// Returns `OutOfMemory` if it cannot allocate the room for all later claims and leaves. Work:
    /// one write for each row and column.
    pub fn new(
        alloc: Global,
        pattern: &'p Pattern,
        matching: Matching,
    ) -> Result<Forest<'p>, OutOfMemory>
        requires matching { IsMatchingOf pattern.now matching }
        ensures { IfOk result (λ f. f ≡ new_forest pattern.entry.now matching.pairs) }
    {
        let (rows, cols) = (pattern.rows(), pattern.cols());
        let (row_room, col_room) = (rows as usize, cols as usize);
        Ok(Forest {
            pattern,
            base: matching,
            adopted: None,
            claimed: ClaimTable::new(alloc, rows)?,
            leaf_of: Table::new(alloc, cols)?,
            marks: vec![in alloc; false; col_room]?,
            claims: Vec::with_capacity(alloc, row_room)?,
            claim_roots: Vec::with_capacity(alloc, row_room)?,
            leaves: Vec::with_capacity(alloc, col_room)?,
            flipped: Vec::with_capacity(alloc, col_room)?,
            path: Vec::with_capacity(alloc, row_room)?,
        })
    }

    /// The pattern.
    pub fn pattern(&self) -> &'p Pattern
        ensures { result.now ≡ self.now.matrix }
    {
        self.pattern
    }

    /// The base matching. Flips do not change it; a graft or a rebuild renews it.
    pub fn base(&self) -> &Matching
        ensures base { result.now ≡ base_of self.now }
        ensures trees { HasTrees self.now }
    {
        &self.base
    }

    /// The claims that stand, in the order in which they were made: of distinct rows, by columns that
    /// are in the forest.
    pub fn claims(&self) -> &[(Row, Col)]
        ensures claims { result.now ≡ self.now.claims }
        ensures trees { HasTrees self.now }
    {
        self.claims.as_slice()
    }

    /// The root of each claim's tree, in the order of the claims.
    pub fn claim_roots(&self) -> &[Col]
        ensures long { length result.now ≡ length self.now.claims }
        ensures roots { (i : ℕ) → i < length self.now.claims → IsRootOfClaim self.now result.now i }
        ensures trees { HasTrees self.now }
    {
        self.claim_roots.as_slice()
    }

    /// The roots with a leaf, each with its leaf, in the order in which these were won.
    pub fn leaves(&self) -> &[(Col, Row)]
        ensures leaves { result.now ≡ self.now.leaves }
        ensures trees { HasTrees self.now }
    {
        self.leaves.as_slice()
    }

    // The number of rows of its pattern.
    pub(crate) fn rows(&self) -> u32
        ensures rows { result ≡ self.now.matrix.rows }
        ensures trees { HasTrees self.now }
    {
        self.pattern.rows()
    }

    // The number of columns of its pattern.
    pub(crate) fn cols(&self) -> u32
        ensures cols { result ≡ cols self.now.matrix }
        ensures trees { HasTrees self.now }
    {
        self.pattern.cols()
    }

    /// What holds of every forest: a fact for proofs, at no cost.
    pub fn is_sound(&self)
        ensures { IsSound self.now }
    {
        prove!(self.claims.as_slice().len() == self.claims().len());
    }

    /// The row that a column is matched with in the base matching.
    pub fn base_row(&self, col: Col) -> Option<Row>
        requires { col < cols self.now.matrix }
        ensures found { IfSome result (λ row. Among (row, col) self.now.base) }
        ensures none { IfNone result (¬ Among col (cols_of self.now.base)) }
    {
        self.base.row_of(col)
    }

    /// The column that a row is matched with in the base matching.
    pub fn base_col(&self, row: Row) -> Option<Col>
        requires { row < self.now.matrix.rows }
        ensures found { IfSome result (λ col. Among (row, col) self.now.base) }
        ensures none { IfNone result (¬ Among row (rows_of self.now.base)) }
    {
        self.base.col_of(row)
    }

    /// The column that claimed a row, where the row is claimed.
    pub fn holder(&self, row: Row) -> Option<Col>
        requires { row < self.now.matrix.rows }
        ensures found { IfSome result (λ col. Among (row, col) self.now.claims) }
        ensures none { IfNone result (¬ Among row (rows_of self.now.claims)) }
    {
        self.claimed.holder(row)
    }

    /// The root of a column's tree, where the column is in the forest.
    pub fn root_of(&self, col: Col) -> Option<Col>
        requires { col < cols self.now.matrix }
        ensures found { IfSome result (λ root. RootOf self.now.base self.now.claims root col) }
        ensures in_range { IfSome result (λ root. root < cols self.now.matrix) }
        ensures in_forest { IfSome result (λ _. InForest self.now col) }
        ensures none { IfNone result (¬ InForest self.now col) }
    {
        match self.base.row_of(col) {
            Some(row) => self.root_of_row(row),
            None => Some(col),
        }
    }

    /// The root of a row's tree, where the row is claimed. It has no other.
    pub fn root_of_row(&self, row: Row) -> Option<Col>
        requires { row < self.now.matrix.rows }
        ensures found { IfSome result (λ root. IsRootOfRow self.now.base self.now.claims root row) }
        ensures only { IfSome result (λ root. (x : ℕ)
            → IsRootOfRow self.now.base self.now.claims x row → x ≡ root) }
        ensures none { IfNone result (¬ Among row (rows_of self.now.claims)) }
    {
        self.claimed.root(row)
    }

    /// The leaf of a root, where it has one.
    pub fn leaf(&self, root: Col) -> Option<Row>
        requires { root < cols self.now.matrix }
        ensures found { IfSome result (λ row. Among (root, row) self.now.leaves) }
        ensures none { IfNone result (¬ Among root (roots_of self.now.leaves)) }
    {
        match self.leaf_of.get(root.number()) {
            Some(row) => Some(Row(row)),
            None => None,
        }
    }

    /// Whether a root is flipped.
    pub fn flipped(&self, root: Col) -> bool
        requires { root < cols self.now.matrix }
        ensures { IsTrue result ↔ Among root self.now.flipped }
    {
        self.marks[root.number() as usize]
    }

    /// Whether an event is legal. Any row and column may be asked for.
    ///
    /// Work: for `Graft` and `Rebuild` one look at each leaf, for `Done` at most one at each entry;
    /// for a `Claim` the look-up of an entry; constant for the others.
    pub fn may(&self, event: Event) -> bool
        ensures { IsTrue result ↔ IsLegal self.now event }
    {
        match event {
            Event::Claim { row, col } => self.may_claim(row, col),
            Event::Win { root, leaf } => self.may_win(root, leaf),
            Event::Flip { root } => self.may_flip(root),
            Event::Graft => self.are_flipped(),
            Event::Rebuild => self.are_flipped(),
            Event::Done => self.done(),
        }
    }

    fn may_claim(&self, row: Row, col: Col) -> bool
        ensures { IsTrue result ↔ IsLegal self.now (Claim row col) }
    {
        self.pattern().has(row, col) && !self.is_claimed(row) && self.is_inside(col)
    }

    fn may_win(&self, root: Col, leaf: Row) -> bool
        ensures { IsTrue result ↔ IsLegal self.now (Win root leaf) }
    {
        self.is_in_tree(root, leaf) && !self.has_leaf(root) && !self.is_matched(leaf)
    }

    fn may_flip(&self, root: Col) -> bool
        ensures { IsTrue result ↔ IsLegal self.now (Flip root) }
    {
        self.has_leaf(root) && !self.flipped(root)
    }

    /// Whether a column is in the forest. Any column may be asked for.
    pub fn is_inside(&self, col: Col) -> bool
        ensures { IsTrue result ↔ InForest self.now col }
    {
        if col.number() >= self.pattern().cols() {
            return false;
        }
        match self.root_of(col) {
            Some(_) => true,
            None => false,
        }
    }

    /// Whether a row is claimed.
    pub fn is_claimed(&self, row: Row) -> bool
        requires { row < self.now.matrix.rows }
        ensures { IsTrue result ↔ Among row (rows_of self.now.claims) }
    {
        self.holder(row).is_some()
    }

    /// Whether a row has a mate in the base matching.
    pub fn is_matched(&self, row: Row) -> bool
        requires { row < self.now.matrix.rows }
        ensures { IsTrue result ↔ Among row (rows_of self.now.base) }
    {
        self.base_col(row).is_some()
    }

    // Whether a row is claimed in the tree of this root.
    fn is_in_tree(&self, root: Col, row: Row) -> bool
        ensures tree { IsTrue result ↔ IsRootOfRow self.now.base self.now.claims root row }
        ensures row { IsTrue result → row < self.now.matrix.rows }
    {
        if row.number() >= self.rows() {
            return false;
        }
        match self.root_of_row(row) {
            Some(of) => of == root,
            None => false,
        }
    }

    /// Whether a column is a root with a leaf. Any column may be asked for.
    pub fn has_leaf(&self, root: Col) -> bool
        ensures leaf { IsTrue result ↔ Among root (roots_of self.now.leaves) }
        ensures root { IsTrue result → root < cols self.now.matrix }
    {
        if root.number() >= self.cols() {
            return false;
        }
        self.leaf(root).is_some()
    }

    // Whether each root with a leaf is flipped.
    fn are_flipped(&self) -> bool
        ensures { IsTrue result ↔ AreFlipped self.now }
    {
        let leaves = self.leaves();
        for (root, _) in leaves {
            if !self.flipped(*root) {
                return false;
            }
        }
        true
    }

    /// Whether nothing is left to be claimed: there are no leaves, and each entry of a column in
    /// the forest has a claimed row.
    ///
    /// Work: at most one look at each entry.
    pub fn done(&self) -> bool
        ensures { IsTrue result ↔ IsLegal self.now Done }
    {
        self.leaves().is_empty() && self.is_closed()
    }

    // Whether every row in which a column of the forest has an entry is claimed.
    fn is_closed(&self) -> bool
        ensures { IsTrue result ↔ IsClosed self.now }
    {
        for number in 0..self.pattern().cols() {
            let col = Col(number);
            if self.is_inside(col) && !self.is_used_up(col) {
                return false;
            }
        }
        true
    }

    // Whether every row in which the column has an entry is claimed.
    fn is_used_up(&self, col: Col) -> bool
        requires { col < cols self.now.matrix }
        ensures { IsTrue result ↔ IsUsedUp self.now col }
    {
        let rows = self.pattern().rows_of(col);
        for row in rows {
            if !self.is_claimed(*row) {
                return false;
            }
        }
        true
    }

    /// The root of a column of the forest.
    pub fn root(&self, col: Col) -> Col
        requires { InForest self.now col }
        ensures root { RootOf self.now.base self.now.claims result col }
        ensures in_range { result < cols self.now.matrix }
    {
        match self.base_row(col) {
            Some(row) => self.claimed.root_at(row),
            None => col,
        }
    }

    /// A column of the forest claims a row in which it has an entry. Takes no memory. Work:
    /// constant.
    pub fn claim(&mut self, row: Row, col: Col)
        requires { IsLegal self.old (Claim row col) }
        ensures grows { Grows self.old self.new }
        ensures claims { Becomes self.old (Claim row col) self.new }
    {
        let root = self.root(col);
        self.claimed.write(row, col, root);
        self.claims.push_reserved((row, col));
        self.claim_roots.push_reserved(root);
    }

    /// A root takes a claimed row of its tree, which has no base mate, as its leaf. Takes no
    /// memory. Work: constant.
    pub fn win(&mut self, root: Col, leaf: Row)
        requires { IsLegal self.old (Win root leaf) }
        ensures grows { Grows self.old self.new }
        ensures leaves { Becomes self.old (Win root leaf) self.new }
    {
        self.leaf_of.write(root.number(), leaf.number());
        self.leaves.push_reserved((root, leaf));
    }

    /// Exchanges the path of a root with a leaf: it belongs to the current matching from now on.
    /// The base matching stays. Takes no memory. Work: constant; the matching itself is written
    /// by `graft`, `rebuild` and `into_matching`.
    pub fn flip(&mut self, root: Col)
        requires { IsLegal self.old (Flip root) }
        ensures { self.new ≡ record self.old { flipped = self.old.flipped ++ root ∷ [] } }
    {
        self.marks[root.number() as usize] = true;
        self.flipped.push_reserved(root);
    }

    /// Flips each root with a leaf that is not flipped, in the order of the leaves, where the
    /// exchange itself is made already: the mates are those of the base matching with the path of
    /// every leaf exchanged. They are kept, and no path of these roots is exchanged again. The base
    /// matching stays.
    ///
    /// Takes no memory. Work: one look at each leaf and one read for each column.
    pub fn adopt(&mut self, mates: Mates)
        requires exchanged { AreExchanged self.old mates }
        ensures flips { Runs self.old (flip_events (unflipped self.old)) self.new }
        ensures flipped { self.new ≡ all_flipped self.old }
        ensures all { AreFlipped self.new }
        ensures size { length self.new.flipped ≡ length self.old.leaves }
        ensures leads { LeadsOn self.old self.new }
    {
        self.flip_all();
        let matching = Matching::of(mates);
        matching.is_matching();
        let flips = self.flipped.as_slice().len();
        self.adopted = Some(Adopted { matching, flips });
    }

    // Flips each root with a leaf that is not flipped.
    fn flip_all(&mut self)
        ensures flipped { self.new ≡ all_flipped self.old }
        ensures trees { HasTrees self.old }
    {
        for i in 0..self.leaves().len() {
            let (root, _) = self.leaves()[i];
            if !self.flipped(root) {
                self.flip(root);
            }
        }
    }

    /// The current matching becomes the base, and the claims of trees without a leaf stay: the
    /// others, the leaves and the flipped roots are dropped.
    ///
    /// Takes no memory. Work: one look at each claim and each leaf, and three writes at most for
    /// each pair of the path of a root that was flipped after the last adoption.
    pub fn graft(&mut self)
        requires { IsLegal self.old Graft }
        ensures renewed { IsRenewed self.old self.new }
        ensures claims { AreKept self.old self.old.claims self.new.claims }
        ensures size { length self.new.base ≡ length self.old.base + length self.old.flipped }
        ensures covered { Covers self.old.base self.new.base }
        ensures rested { IsSettled self.old → IsRested self.new }
        ensures leads { LeadsOn self.old self.new }
    {
        let flipped = Flipped {
            roots: self.flipped.as_slice(),
            leaf_of: &self.leaf_of,
            claimed: &self.claimed,
        };
        exchange(&mut self.base, &mut self.adopted, &flipped, &mut self.path);
        let claims = self.claims.as_mut_slice();
        let roots = self.claim_roots.as_mut_slice();
        let kept = keep(claims, roots, &mut self.claimed, &self.leaf_of);
        self.claims.truncate(kept);
        self.claim_roots.truncate(kept);
        clear_leaves(
            self.leaves.as_slice(),
            &mut self.leaf_of,
            self.marks.as_mut_slice(),
        );
        self.leaves.clear();
        self.flipped.clear();
    }

    /// The current matching becomes the base, and nothing stays claimed.
    ///
    /// Takes no memory. Work: as for `graft`.
    pub fn rebuild(&mut self)
        requires { IsLegal self.old Rebuild }
        ensures renewed { IsRenewed self.old self.new }
        ensures claims { self.new.claims ≡ [] }
        ensures size { length self.new.base ≡ length self.old.base + length self.old.flipped }
        ensures covered { Covers self.old.base self.new.base }
        ensures rested { IsRested self.new }
        ensures leads { LeadsOn self.old self.new }
    {
        let flipped = Flipped {
            roots: self.flipped.as_slice(),
            leaf_of: &self.leaf_of,
            claimed: &self.claimed,
        };
        exchange(&mut self.base, &mut self.adopted, &flipped, &mut self.path);
        clear_claims(self.claims.as_slice(), &mut self.claimed);
        self.claims.clear();
        self.claim_roots.clear();
        clear_leaves(
            self.leaves.as_slice(),
            &mut self.leaf_of,
            self.marks.as_mut_slice(),
        );
        self.leaves.clear();
        self.flipped.clear();
    }

    /// The current matching: the base matching with the paths of the flipped roots exchanged.
    ///
    /// Takes no memory. Work: three writes at most for each pair of the path of a root that was
    /// flipped after the last adoption.
    pub fn into_matching(self) -> Matching
        ensures current { IsCurrent self.entry result.pairs }
        ensures matching { IsMatchingOf self.entry.matrix result }
        ensures size { length result.pairs ≡ length self.entry.base + length self.entry.flipped }
        ensures covered { Covers self.entry.base result.pairs }
    {
        let Forest {
            mut base,
            mut adopted,
            claimed,
            leaf_of,
            flipped,
            mut path,
            ..
        } = self;
        let flipped = Flipped {
            roots: flipped.as_slice(),
            leaf_of: &leaf_of,
            claimed: &claimed,
        };
        exchange(&mut base, &mut adopted, &flipped, &mut path);
        base
    }
}
