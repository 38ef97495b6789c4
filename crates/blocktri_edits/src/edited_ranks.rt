//! The rank after each edit.

ghost use Rattle.std.specs.Prelude.{◌≡◌, ◌<◌, IfOk, OnErr, OnOk, length};
ghost use Rattle.bip_defs.specs.EditedMatrix.{after_edit};
ghost use Rattle.bip_defs.specs.Matching.{IsRank};
ghost use Rattle.bip_defs.specs.Matrix.{cols};
ghost use Rattle.blocktri.specs.Compressed.{HasMatrix};
ghost use Rattle.blocktri_edits.specs.Causes.{RefusesEdits};
ghost use Rattle.blocktri_edits.specs.Edits.{AreAllWithin, AreRanksAfter, IsWithin, edit_at, edit_list, place_at};

use crate::edit_places::EditPlaces;
use crate::edits_refusals::EditsRefusal;
use blocktri::{Compressed, NumberList};
use breadth_first_match::complete;
use edit_session::Session;
use hall_witness::Steps;
use karp_sipser::start;
use sp_ids::OutOfMemory;
use sp_pattern::Pattern;
use std::alloc::Global;
use std::marker::Brand;
use std::sync::ledger::{Blank, Ledger};

/// The rank of a matrix after each of some edits, which are made one after another.
///
/// An edit sets the entry at its place, or clears it. Setting an entry that is there, or clearing
/// one that is not, changes nothing. `ranks` must have a place for each edit; it gets there the rank
/// of the matrix after that edit and those before it. The lists of the matrix stay as they are.
///
/// The lengths are looked at first, then the lists of the matrix, and before any edit is made the
/// places of all. After an `Err` nothing was written.
///
/// Returns `OutOfMemory` if it cannot allocate the pattern, what `karp_sipser::start` and
/// `breadth_first_match::complete` take, what `edit_session::Session` takes (44 bytes a column, 16 a
/// row and 8.5 an entry, and room for entries that are set), and 4 bytes an edit; and where an entry
/// is set in a matrix of 4,294,967,295 entries. Work: a maximum matching once, and then for each edit
/// at most one search or two, from one row or column, and most often none.
pub fn edits<N: NumberList>(
    alloc: Global,
    matrix: &Compressed<N>,
    places: &EditPlaces<'_, N>,
    ranks: &mut [u32],
) -> Result<(), EditsRefusal>
    ensures ranks { OnOk result (HasMatrix matrix.now
        (λ a. AreRanksAfter a (edit_list places.now) ranks.new)) }
    ensures refused { RefusesEdits matrix.now places.now ranks.old result }
    ensures kept { OnErr result (ranks.new ≡ ranks.old) }
{
    if !places.have_one_length(ranks) {
        return Err(EditsRefusal::Lengths);
    }
    matrix.check()?;
    let pattern = matrix.pattern(alloc)?;
    if let Some(at) = places.first_outside(pattern.rows(), pattern.cols()) {
        return Err(EditsRefusal::BadEdit(at));
    }
    let found = ranks_after(alloc, pattern, places)?;
    ranks.copy_from_slice(found.as_slice());
    Ok(())
}

// The ranks, in a list of their own.
fn ranks_after<N: NumberList>(
    alloc: Global,
    pattern: Pattern,
    places: &EditPlaces<'_, N>,
) -> Result<Vec<u32>, OutOfMemory>
    requires rows { length places.now.rows ≡ length places.now.sets }
    requires columns { length places.now.columns ≡ length places.now.sets }
    requires within { AreAllWithin pattern.rows (cols pattern) places.now }
    ensures long { IfOk result (λ v. length v.items ≡ length places.now.sets) }
    ensures ranks { IfOk result (λ v. AreRanksAfter pattern (edit_list places.now) v.items) }
{
    let matching = complete(alloc, &pattern, start(alloc, &pattern)?)?;
    let session = Session::new(alloc, &pattern, matching)?;
    drop(pattern);
    session_ranks::<N, Brand>(alloc, session, places, Blank::new(1))
}

// The ranks that a session gives after each edit, with a ledger for the steps of its searches.
fn session_ranks<N: NumberList, L: Ledger>(
    alloc: Global,
    mut session: Session,
    places: &EditPlaces<'_, N>,
    blank: Blank,
) -> Result<Vec<u32>, OutOfMemory>
    requires name { blank.name ≡ L.name }
    requires parts { blank.parts ≡ L.parts }
    requires some { 0 < blank.parts }
    requires rows { length places.now.rows ≡ length places.now.sets }
    requires columns { length places.now.columns ≡ length places.now.sets }
    requires within { AreAllWithin session.matrix.rows (cols session.matrix) places.now }
    ensures long { IfOk result (λ v. length v.items ≡ length places.now.sets) }
    ensures ranks { IfOk result
        (λ v. AreRanksAfter session.matrix (edit_list places.now) v.items) }
{
    let mut steps = Steps::<L>::new(blank);
    let count = places.count();
    let mut ranks = Vec::with_capacity(alloc, count)?;
    for at in 0..count {
        ranks.push(rank_after(&mut session, places, at, &mut steps)?)?;
    }
    Ok(ranks)
}

// Makes the edit at a place of the lists, and gives the rank then.
fn rank_after<N: NumberList, L: Ledger>(
    session: &mut Session,
    places: &EditPlaces<'_, N>,
    at: usize,
    steps: &mut Steps<L>,
) -> Result<u32, OutOfMemory>
    requires listed { at < length places.now.sets }
    requires row { at < length places.now.rows }
    requires column { at < length places.now.columns }
    requires within { IsWithin session.old.matrix.rows (cols session.old.matrix)
        (place_at places.now at) }
    ensures matrix { OnOk result
        (session.new.matrix ≡ after_edit session.old.matrix (edit_at places.now at)) }
    ensures rank { IfOk result (IsRank session.new.matrix) }
{
    let sets = places.sets;
    let clears = sets[at] == 0;
    let (row, col) = places.place(at, session.rows(), session.cols());
    if clears {
        return session.clear(row, col, steps);
    }
    if session.entries() == u32::MAX {
        return Err(OutOfMemory);
    }
    session.set(row, col, steps)
}
