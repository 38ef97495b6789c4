//! A matrix under edits, and a maximum matching of it.

ghost use Rattle.std.specs.Prelude.{◌≡◌, ◌↔◌, ◌+◌, ◌<◌, ◌≤◌, length, IfOk, IsTrue, OnErr, OnOk, is_ok};
ghost use Rattle.bip_defs.specs.ConnectedComponents.{AreConnectedComponents};
ghost use Rattle.bip_defs.specs.EditedMatrix.{with_place, without_place};
ghost use Rattle.bip_defs.specs.Lists.{Among, AreDistinct};
ghost use Rattle.bip_defs.specs.Matching.{IsRank, cols_of};
ghost use Rattle.bip_defs.specs.Matrix.{IsEntry, cols, entry_count};
ghost use Rattle.bip_graph.specs.Decompositions.{Decomposes, components_of};
ghost use Rattle.bip_graph.specs.Matching.{IsMaximumOf};
ghost use Rattle.edit_session.specs.Sessions.{ClearSearches, Clears, EntrySearches, HasNewEntry, HasSettled, IsWhole, MatchedMatrix, NeedsNoSearch, Searches};
ghost use Rattle.vertex_cover.specs.Covers.{IsCover};
ghost use Rattle.sp_ids.specs.Limits.{max_entries};

use crate::columns::Columns;
use crate::patterns::pattern_of;
use bip_graph::{Components, Decomposition, Matching};
use dm_coarse::{coarse, components};
use dm_fine::fine;
use hall_witness::Steps;
use sp_ids::{Col, OutOfMemory, Row};
use sp_pattern::{Neighbours, Pattern};
use std::alloc::Global;
use std::marker::Model;
use std::sync::ledger::Ledger;
use std::thread::Threads;
use vertex_cover::Cover;

/// A session of edits: a matrix whose entries are set and cleared one by one, and a maximum
/// matching of it, which each edit keeps maximum.
///
/// An edit changes the rank by one at most, so one search for an augmenting path decides (Berge
/// 1957), and most edits need none: the session keeps the marks of the vertex cover that the
/// searches without a path have shown (König 1931). While the matrix has the cover, no entry more
/// in it raises the rank, a search from one column passes over marked ones, and one back from a row
/// over the others. For those the matrix is kept by rows as well.
#[derive(Drop)]
pub struct Session {
    alloc: Global,
    kept: Kept,
}

impl Model for Session {
    ghost use Rattle.edit_session.specs.Sessions.{IsWhole, MatchedMatrix, matched};

    ghost Value = { MatchedMatrix };

    ghost view = { λ s. matched s.kept.columns.matrix s.kept.matching s.kept.cover };

    ghost invariant = { λ s. IsWhole s.kept };
}

// A matrix by its columns and by its rows, a matching of it, and a cover beside the matching. Within
// an edit the matching need not be maximum.
#[derive(Drop)]
struct Kept {
    columns: Columns,
    // the columns of the transpose
    rows: Columns,
    matching: Matching,
    cover: Cover,
}

impl Session {
    /// A session that begins with this matrix. The matching must be a maximum one of its entries.
    ///
    /// Returns `OutOfMemory` if it cannot allocate 44 bytes a column, 16 a row and 8.5 an entry.
    /// Work: one copy of the columns' lists and of the rows', and one search for the cover.
    pub fn new(alloc: Global, pattern: &Pattern, matching: Matching) -> Result<Session, OutOfMemory>
        requires { IsMaximumOf pattern.now matching }
        ensures matrix { IfOk result (λ s. s.matrix ≡ pattern.now) }
        ensures matching { IfOk result (λ s. s.matching ≡ matching) }
    {
        let columns = Columns::of(alloc, pattern, pattern.entries())?;
        let rows = Columns::of_rows(alloc, pattern)?;
        let cover = Cover::of(alloc, pattern, &matching)?;
        Ok(Session {
            alloc,
            kept: Kept {
                columns,
                rows,
                matching,
                cover,
            },
        })
    }

    /// The number of rows.
    pub fn rows(&self) -> u32
        ensures { result ≡ self.now.matrix.rows }
    {
        self.kept.columns.rows()
    }

    /// The number of columns.
    pub fn cols(&self) -> u32
        ensures { result ≡ cols self.now.matrix }
    {
        self.kept.columns.cols()
    }

    /// The number of entries.
    pub fn entries(&self) -> u32
        ensures { result ≡ entry_count self.now.matrix }
    {
        self.kept.columns.entries()
    }

    /// The rank of the matrix.
    pub fn rank(&self) -> u32
        ensures rank { IsRank self.now.matrix result }
        ensures pairs { result ≡ length self.now.matching.pairs }
        ensures maximum { IsMaximumOf self.now.matrix self.now.matching }
        ensures cover { IsCover self.now.matrix self.now.matching.pairs self.now.marks }
    {
        self.kept.matching.size()
    }

    /// The decomposition of the matrix and the connected components of its outer parts: the report
    /// of the matrix as it is.
    ///
    /// Returns `OutOfMemory` if it cannot allocate a pattern of the matrix, 8 bytes an entry beside
    /// it, or what [`coarse`], [`fine`] and [`components`] take. Work: linear in the entries, the
    /// rows and the columns, but for what the order of the blocks takes. It makes no search for
    /// augmenting paths.
    pub fn report<R: Threads + Sync>(
        &self,
        rt: &R,
    ) -> Result<(Decomposition, Components), OutOfMemory>
        ensures decomposition { IfOk result (λ o. Decomposes self.now.matrix o.0) }
        ensures components { IfOk result
            (λ o. AreConnectedComponents self.now.matrix (components_of o.1)) }
    {
        let alloc = self.alloc;
        let pattern = pattern_of(rt, alloc, &self.kept.columns)?;
        let parts = coarse(rt, alloc, &pattern, &self.kept.matching)?;
        let blocks = fine(alloc, &pattern, &self.kept.matching, &parts)?;
        let components = components(alloc, &pattern, &parts)?;
        let decomposition = Decomposition {
            m: pattern.rows(),
            n: pattern.cols(),
            e: pattern.entries(),
            rank: self.rank(),
            parts,
            blocks,
        };
        Ok((decomposition, components))
    }

    /// Sets an entry, and gives the rank of the matrix then. Where it is there already nothing
    /// changes. Its row and column must be in the matrix, which must have less than 4,294,967,295
    /// entries.
    ///
    /// A step is a column or a row that a search takes up, or an entry that it looks at. There is no
    /// search where the entry was there; where the rank is already the number of rows or of columns;
    /// where the kept cover has the entry: its column is not marked, or its row has a mate that is;
    /// or where its row and its column have no mate and become a pair. Else there is one, or two,
    /// which make at least as many steps as the paths that they find have pairs. Where one finds
    /// none:
    ///
    /// - Where the column has no mate it began there alone, and passed over marked columns. It makes
    ///   one step for that column and for each column that it marks, and one for each of their
    ///   entries.
    /// - Where the row has no mate it began there alone, went from columns' mates to their rows, and
    ///   passed over columns that are not marked. It makes one step for that row and for the mate of
    ///   each column whose mark it takes back, and one for each of their entries.
    /// - Where both have mates it began at the row's mate alone, which counts as one that it marks,
    ///   and made the same steps as where the column has none. Where it found an unmatched row,
    ///   another one began at all unmatched columns. That one makes one step for each column that
    ///   some maximum matching of the new matrix misses and one for each of their entries; these
    ///   columns are marked from then on, and no others.
    ///
    /// Returns `OutOfMemory` if it cannot allocate the entry; the session is then as it was. A
    /// search allocates nothing.
    ///
    /// Work: the search; and a binary search in the column and in the row, with one move of each of
    /// their entries, in the mean over many edits. A search from all unmatched columns also looks
    /// for the mate of each column that was unmatched at the last such search (at first, when the
    /// session began), and of each column that a clear has left without one since; if these are more
    /// than the columns, of each column. Once in some 2,000,000,000 edits it writes a stamp for each
    /// column.
    pub fn set<L: Ledger>(
        &mut self,
        row: Row,
        col: Col,
        steps: &mut Steps<L>,
    ) -> Result<u32, OutOfMemory>
        requires row { row < self.old.matrix.rows }
        requires col { col < cols self.old.matrix }
        requires few { entry_count self.old.matrix < max_entries }
        ensures matrix { OnOk result (self.new.matrix ≡ with_place self.old.matrix (row, col)) }
        ensures rank { IfOk result (IsRank self.new.matrix) }
        ensures unchanged { OnErr result (self.new ≡ self.old) }
        ensures steps { steps.new ≤ steps.old
            + (cols self.old.matrix + entry_count (with_place self.old.matrix (row, col))) }
        ensures no_search { NeedsNoSearch (row, col) self.old → steps.new ≡ steps.old }
        ensures searched { OnOk result (Searches (row, col) self.old self.new steps.old steps.new) }
    {
        if self.kept.columns.has(row, col) {
            return Ok(self.rank());
        }
        self.kept.columns.make_room(self.alloc, col)?;
        self.kept.rows.make_room(self.alloc, Col(row.0))?;
        self.kept.columns.insert(row, col);
        self.kept.rows.insert(Row(col.0), Col(row.0));
        self.kept.match_entry(row, col, steps);
        Ok(self.rank())
    }

    /// Clears an entry, and gives the rank of the matrix then. Where there is none nothing changes.
    ///
    /// Steps are counted as in [`Session::set`]. There is no search where the entry was no pair of
    /// the matching. Where it was one, a search begins beside the other pairs: at its column alone if
    /// that was unmarked, and at its row alone if it was marked. A clear allocates nothing, so it is
    /// never refused. Work: the search, and in the lists as for `set`.
    pub fn clear<L: Ledger>(
        &mut self,
        row: Row,
        col: Col,
        steps: &mut Steps<L>,
    ) -> Result<u32, OutOfMemory>
        ensures ok { IsTrue (is_ok result) }
        ensures matrix { OnOk result (self.new.matrix ≡ without_place self.old.matrix (row, col)) }
        ensures rank { IfOk result (IsRank self.new.matrix) }
        ensures unchanged { OnErr result (self.new ≡ self.old) }
        ensures steps { steps.new
            ≤ steps.old + (cols self.old.matrix + entry_count self.old.matrix) }
        ensures no_step { ¬ Among (row, col) self.old.matching.pairs → steps.new ≡ steps.old }
        ensures searched { OnOk result
            (ClearSearches (row, col) self.old self.new steps.old steps.new) }
    {
        if self.kept.columns.has(row, col) {
            return self.clear_entry(row, col, steps);
        }
        Ok(self.rank())
    }

    // Clears an entry that is there.
    fn clear_entry<L: Ledger>(
        &mut self,
        row: Row,
        col: Col,
        steps: &mut Steps<L>,
    ) -> Result<u32, OutOfMemory>
        requires entry { IsEntry self.old.matrix row col }
        ensures ok { IsTrue (is_ok result) }
        ensures rank { IfOk result (IsRank self.new.matrix) }
        ensures clears { Clears (row, col) self.old self.new steps.old steps.new }
    {
        let were_mates = are_mates(&self.kept.matching, row, col);
        self.kept.columns.take(row, col);
        self.kept.rows.take(Row(col.0), Col(row.0));
        if !were_mates {
            return Ok(self.rank());
        }
        self.kept.matching.unpair(row, col);
        self.kept.cover.add_root(col);
        let columns = &self.kept.columns;
        let matching = &mut self.kept.matching;
        if !self.kept.cover.is_marked(col) {
            self.kept.cover.augment_from(columns, matching, col, steps);
            return Ok(self.rank());
        }
        self.kept
            .cover
            .augment_to(columns, &self.kept.rows, matching, row, steps);
        Ok(self.rank())
    }
}

// Whether a row and a column are a pair.
fn are_mates(matching: &Matching, row: Row, col: Col) -> bool
    requires col { col < matching.now.cols }
    requires cols_differ { AreDistinct (cols_of matching.now.pairs) }
    ensures { IsTrue result ↔ Among (row, col) matching.now.pairs }
{
    match matching.row_of(col) {
        Some(mate) => mate.0 == row.0,
        None => false,
    }
}

impl Kept {
    // Makes the matching maximum where one more entry is new. It is maximum already where the cover of
    // the others has the entry, or where each row or each column is matched; in the second case all
    // columns are marked, or none. The entry's row and column become a pair where both have no mate.
    // Else a search decides: from the one of them that has no mate, or from the row's mate where both
    // have one, and then from all unmatched columns where it comes to an unmatched row.
    fn match_entry<L: Ledger>(&mut self, row: Row, col: Col, steps: &mut Steps<L>)
        requires { HasNewEntry (row, col) self.old }
        ensures columns { self.new.columns ≡ self.old.columns }
        ensures kept { IsWhole self.new }
        ensures steps { steps.new ≤ steps.old
            + (cols self.old.columns.matrix + entry_count self.old.columns.matrix) }
        ensures no_search { HasSettled (row, col) self.old → steps.new ≡ steps.old }
        ensures searched { EntrySearches (row, col) self.old self.new steps.old steps.new }
    {
        let columns = &self.columns;
        let rows = &self.rows;
        let matching = &mut self.matching;
        let cover = &mut self.cover;
        if cover.has(matching, row, col) {
            return;
        }
        if matching.size() == columns.rows() {
            cover.mark_all(columns, matching);
            return;
        }
        if matching.size() == columns.cols() {
            cover.mark_none(columns, matching);
            return;
        }
        let row_is_free = matching.col_of(row).is_none();
        if matching.row_of(col).is_some() {
            if row_is_free {
                cover.augment_to(columns, rows, matching, row, steps);
            } else {
                cover.augment_over(columns, matching, row, col, steps);
            }
            return;
        }
        if !row_is_free {
            cover.augment_from(columns, matching, col, steps);
            return;
        }
        matching.pair(row, col);
    }
}
