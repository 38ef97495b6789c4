//! Sessions of edits beside the matrix made anew after each edit. Whole sessions with their texts
//! are in `run_tests`.

ghost use Rattle.std.specs.Prelude.{◌≡◌, ◌<◌, ◌≤◌, IfOk, IsTrue};
ghost use Rattle.bip_defs.specs.Matrix.{cols, entry_count};
ghost use Rattle.bip_graph.specs.Decompositions.{HasParts};
ghost use Rattle.bip_graph.specs.Matching.{IsMaximumOf};

use bip_graph::{Blocks, Components, Decomposition, Matching, Parts};
use dm_coarse::{coarse, components};
use dm_fine::fine;
use edit_session::Session;
use hall_witness::{Steps, plain};
use sp_ids::{Col, OutOfMemory, Row};
use sp_pattern::Pattern;
use std::alloc::Global;
use std::marker::Brand;
use std::sync::ledger::{Blank, Ledger};
use std::test::Fail;
use std::thread::Threads;
use test_matrices::pattern_of;

/// An edit, whose row and column count from 1.
#[derive(Clone, Copy)]
enum Edit {
    Set(u32, u32),
    Clear(u32, u32),
}

/// A session: the numbers of rows and columns, the places at the start with their rank, and the
/// edits, each with the rank that it leaves. The ranks were worked out by hand.
#[derive(Clone, Copy)]
struct Edits<'a> {
    rows: u32,
    cols: u32,
    places: &'a [(u32, u32)],
    rank: u32,
    edits: &'a [(Edit, u32)],
}

#[rattlefmt::skip]
const SESSIONS: [Edits<'static>; 10] = [
    Edits {
        rows: 2,
        cols: 2,
        places: &[(1, 1)],
        rank: 1,
        // The third clears a place that is none, and the fourth sets an entry that is there.
        edits: &[
            (Edit::Set(2, 2), 2), (Edit::Clear(1, 1), 1), (Edit::Clear(1, 1), 1), (Edit::Set(2, 2), 1),
            (Edit::Set(1, 2), 1), (Edit::Set(2, 1), 2), (Edit::Clear(2, 2), 2), (Edit::Clear(1, 2), 1),
        ],
    },
    Edits {
        rows: 3,
        cols: 3,
        places: &[],
        rank: 0,
        // The seventh sets an entry that is there, and the twelfth clears a place that is none.
        edits: &[
            (Edit::Set(1, 1), 1), (Edit::Set(1, 2), 1), (Edit::Set(1, 3), 1), (Edit::Set(2, 1), 2),
            (Edit::Set(3, 1), 2), (Edit::Set(2, 2), 3), (Edit::Set(2, 2), 3), (Edit::Clear(1, 1), 3),
            (Edit::Set(3, 3), 3), (Edit::Clear(2, 2), 3), (Edit::Clear(1, 3), 3), (Edit::Clear(1, 3), 3),
            (Edit::Set(2, 3), 3), (Edit::Clear(3, 3), 3), (Edit::Clear(1, 2), 2),
        ],
    },
    Edits {
        rows: 3,
        cols: 4,
        places: &[(1, 1), (2, 2), (3, 3), (1, 2), (2, 3), (3, 4)],
        rank: 3,
        edits: &[
            (Edit::Clear(1, 1), 3), (Edit::Clear(2, 2), 3), (Edit::Clear(3, 3), 3), (Edit::Set(1, 1), 3),
            (Edit::Clear(3, 4), 2), (Edit::Set(3, 1), 3), (Edit::Clear(1, 2), 2), (Edit::Clear(2, 3), 1),
            (Edit::Clear(3, 1), 1), (Edit::Clear(1, 1), 0), (Edit::Set(2, 4), 1),
        ],
    },
    Edits {
        rows: 4,
        cols: 2,
        places: &[(1, 1), (2, 1), (3, 1), (4, 1)],
        rank: 1,
        edits: &[
            (Edit::Set(4, 2), 2), (Edit::Clear(4, 1), 2), (Edit::Set(1, 2), 2), (Edit::Clear(4, 2), 2),
            (Edit::Clear(1, 1), 2), (Edit::Set(1, 1), 2), (Edit::Clear(2, 1), 2), (Edit::Clear(3, 1), 1),
            (Edit::Clear(1, 2), 1),
        ],
    },
    Edits {
        rows: 3,
        cols: 5,
        places: &[(1, 1), (1, 2), (2, 2), (2, 3), (3, 3), (3, 4)],
        rank: 3,
        // Each row matched, pairs cleared in columns that an unmatched one leads to, and sets of rows without a mate.
        edits: &[
            (Edit::Clear(1, 1), 3), (Edit::Clear(3, 4), 2), (Edit::Clear(3, 3), 2), (Edit::Set(3, 2), 2),
            (Edit::Set(1, 5), 3), (Edit::Clear(2, 3), 2), (Edit::Set(2, 4), 3), (Edit::Clear(1, 5), 2),
            (Edit::Clear(1, 2), 2), (Edit::Clear(2, 2), 2), (Edit::Set(1, 3), 3), (Edit::Clear(3, 2), 2),
        ],
    },
    Edits {
        rows: 4,
        cols: 4,
        places: &[(1, 1), (1, 2), (2, 1), (3, 1), (4, 3), (4, 4)],
        rank: 3,
        edits: &[
            (Edit::Set(2, 2), 3), (Edit::Set(3, 2), 3), (Edit::Set(3, 3), 4), (Edit::Clear(3, 3), 3),
            (Edit::Clear(4, 3), 3), (Edit::Set(3, 4), 3), (Edit::Set(1, 3), 4), (Edit::Clear(1, 3), 3),
            (Edit::Set(4, 3), 4), (Edit::Clear(4, 4), 4), (Edit::Clear(3, 4), 3), (Edit::Clear(4, 3), 2),
            (Edit::Set(2, 4), 3), (Edit::Clear(1, 1), 3), (Edit::Clear(1, 2), 2),
        ],
    },
    Edits {
        rows: 3,
        cols: 4,
        places: &[],
        rank: 0,
        // All columns are marked at the start. 1 becomes a pair; 2 and 4 are in a row whose mate is marked; in 3 row 1
        // finds column 2 (2 steps). In 5 row 2 finds column 1 over column 2 and its mate row 1 (4 steps, a path of two
        // pairs). In 6 row 3 finds none (4 steps: rows 3 and 2, and their one entry each), so column 2 has no mark from
        // then on. In 7 column 3 finds row 3 over column 2 (6 steps). In 8 and 9 a row leads to column 2 alone, which is
        // passed over (2 steps each).
        edits: &[
            (Edit::Set(1, 1), 1), (Edit::Set(1, 2), 1), (Edit::Clear(1, 1), 1), (Edit::Set(1, 1), 1),
            (Edit::Set(2, 2), 2), (Edit::Set(3, 2), 2), (Edit::Set(2, 3), 3), (Edit::Clear(2, 3), 2),
            (Edit::Clear(1, 1), 1),
        ],
    },
    Edits {
        rows: 2,
        cols: 3,
        places: &[],
        rank: 0,
        // 1 becomes a pair. In 2 row 2 finds none over column 1 (4 steps), which has no mark from then on; in 3 column 2
        // finds row 2 over column 1 (5 steps). In 4 the place is not in the cover, but each row has a mate: no search, and
        // all columns are marked. In 5 row 2 finds column 3 (2 steps), in 6 nothing (1 step). In 7 row 2 finds column 1
        // over column 2 and row 1 (4 steps), in 8 row 1 finds none over column 2 (4 steps). 9 becomes a pair, and 10 is
        // as 4.
        edits: &[
            (Edit::Set(1, 1), 1), (Edit::Set(2, 1), 1), (Edit::Set(1, 2), 2), (Edit::Set(2, 3), 2),
            (Edit::Clear(2, 1), 2), (Edit::Clear(2, 3), 1), (Edit::Set(2, 2), 2), (Edit::Clear(1, 1), 1),
            (Edit::Set(1, 1), 2), (Edit::Set(2, 1), 2),
        ],
    },
    Edits {
        rows: 1,
        cols: 1,
        places: &[],
        rank: 0,
        edits: &[
            (Edit::Clear(1, 1), 0), (Edit::Set(1, 1), 1), (Edit::Clear(1, 1), 0), (Edit::Set(1, 1), 1),
            (Edit::Set(1, 1), 1), (Edit::Clear(1, 1), 0),
        ],
    },
    Edits {
        rows: 3,
        cols: 3,
        places: &[],
        rank: 0,
        // The sixth and the last are in a row and a column that have mates, and the cover lacks them.
        // At the sixth the row's mate 3 leads to no other row: two steps, of it and its entry. At the
        // last it leads to row 3, in three steps, and column 2 to row 2 over column 1, in five.
        edits: &[
            (Edit::Set(1, 1), 1), (Edit::Set(1, 2), 1), (Edit::Set(2, 3), 2), (Edit::Set(3, 3), 2),
            (Edit::Clear(3, 3), 2), (Edit::Set(2, 1), 2), (Edit::Clear(2, 1), 2), (Edit::Set(3, 3), 2),
            (Edit::Set(2, 1), 3),
        ],
    },
];

/// The clears leave the first column so much room that the lists are copied into a new array where
/// the second one grows; once more it grows without that.
#[rattlefmt::skip]
const GROWING: Edits<'static> = Edits {
    rows: 9,
    cols: 2,
    places: &[(1, 1), (2, 1), (3, 1), (4, 1), (5, 1), (6, 1), (7, 1), (8, 1), (9, 1)],
    rank: 1,
    edits: &[
        (Edit::Clear(2, 1), 1), (Edit::Clear(3, 1), 1), (Edit::Clear(4, 1), 1), (Edit::Clear(5, 1), 1),
        (Edit::Clear(6, 1), 1), (Edit::Clear(7, 1), 1), (Edit::Clear(8, 1), 1), (Edit::Clear(9, 1), 1),
        (Edit::Set(1, 2), 1), (Edit::Set(9, 2), 2),
    ],
};

/// How many sessions grow side by side.
const SESSIONS_THAT_GROW: usize = 16;

/// Whether a place is in range, and the matrix has not grown beyond what these tests make.
fn is_place(session: &Session, row: u32, col: u32) -> bool
    ensures row { IsTrue result → (0 < row) × (row ≤ session.now.matrix.rows) }
    ensures col { IsTrue result → (0 < col) × (col ≤ cols session.now.matrix) }
    ensures few { IsTrue result → entry_count session.now.matrix < 100 }
{
    if row < 1 || row > session.rows() {
        return false;
    }
    if col < 1 || col > session.cols() {
        return false;
    }
    session.entries() < 100
}

/// Sets a place, and gives the rank, or none where there is no such place.
fn set<L: Ledger>(
    session: &mut Session,
    row: u32,
    col: u32,
    steps: &mut Steps<L>,
) -> Result<Option<u32>, OutOfMemory> {
    if !is_place(session, row, col) {
        return Ok(None);
    }
    Ok(Some(session.set(Row(row - 1), Col(col - 1), steps)?))
}

/// Clears a place in the same way.
fn clear<L: Ledger>(
    session: &mut Session,
    row: u32,
    col: u32,
    steps: &mut Steps<L>,
) -> Result<Option<u32>, OutOfMemory> {
    if !is_place(session, row, col) {
        return Ok(None);
    }
    Ok(Some(session.clear(Row(row - 1), Col(col - 1), steps)?))
}

/// Makes an edit, and gives the rank, or none where there is no such place.
fn make_edit<L: Ledger>(
    session: &mut Session,
    edit: Edit,
    steps: &mut Steps<L>,
) -> Result<Option<u32>, OutOfMemory> {
    match edit {
        Edit::Set(row, col) => set(session, row, col, steps),
        Edit::Clear(row, col) => clear(session, row, col, steps),
    }
}

/// Makes an edit, and gives whether it leaves this rank. Where memory is refused once, the session
/// is the one of the places before it, and then the edit is made all the same.
fn leaves_rank<R: AllocGlobal + Threads + Sync, L: Ledger>(
    rt: &R,
    session: &mut Session,
    (edit, rank): (Edit, u32),
    places: &[(u32, u32)],
    steps: &mut Steps<L>,
) -> Result<bool, Fail> {
    if let Ok(found) = make_edit(session, edit, steps) {
        return Ok(found == Some(rank) && session.rank() == rank);
    }
    let is_unchanged = is_from_scratch(rt, session, places)?;
    let found = make_edit(session, edit, steps)?;
    Ok(is_unchanged && found == Some(rank) && session.rank() == rank)
}

/// The places after an edit.
fn after_edit(
    alloc: Global,
    places: &[(u32, u32)],
    edit: Edit,
) -> Result<Vec<(u32, u32)>, OutOfMemory> {
    let (place, sets) = match edit {
        Edit::Set(row, col) => ((row, col), true),
        Edit::Clear(row, col) => ((row, col), false),
    };
    let mut after = Vec::new(alloc);
    for other in places {
        if *other != place {
            after.push(*other)?;
        }
    }
    if sets {
        after.push(place)?;
    }
    Ok(after)
}

fn same_parts(found: &Parts, wanted: &Parts) -> bool {
    found.hr.as_slice() == wanted.hr.as_slice()
        && found.hc.as_slice() == wanted.hc.as_slice()
        && found.sr.as_slice() == wanted.sr.as_slice()
        && found.sc.as_slice() == wanted.sc.as_slice()
        && found.vr.as_slice() == wanted.vr.as_slice()
        && found.vc.as_slice() == wanted.vc.as_slice()
}

fn same_blocks(found: &Blocks, wanted: &Blocks) -> bool {
    found.len() == wanted.len()
        && found.all_rows() == wanted.all_rows()
        && found.all_cols() == wanted.all_cols()
}

/// A maximum matching.
fn maximum(alloc: Global, pattern: &Pattern) -> Result<Matching, OutOfMemory>
    ensures { IfOk result (IsMaximumOf pattern.now) }
{
    let (matching, _missed) = plain(alloc, pattern)?;
    Ok(matching)
}

/// Whether these are the fine blocks.
fn are_fine(
    alloc: Global,
    pattern: &Pattern,
    matching: &Matching,
    parts: &Parts,
    found: &Blocks,
) -> Result<bool, OutOfMemory>
    requires maximum { IsMaximumOf pattern.now matching.now }
    requires parts { HasParts pattern.now parts.now }
{
    let blocks = fine(alloc, pattern, matching, parts)?;
    Ok(same_blocks(found, &blocks))
}

/// Whether these are the components.
fn are_joined(
    alloc: Global,
    pattern: &Pattern,
    parts: &Parts,
    found: &Components,
) -> Result<bool, OutOfMemory>
    requires { HasParts pattern.now parts.now }
{
    let joined = components(alloc, pattern, parts)?;
    Ok(
        same_blocks(&found.horizontal, &joined.horizontal)
            && same_blocks(&found.vertical, &joined.vertical),
    )
}

/// Whether a report tells what is found in a matrix, from a maximum matching of it.
fn tells<R: AllocGlobal + Threads + Sync>(
    rt: &R,
    pattern: &Pattern,
    matching: &Matching,
    found: &Decomposition,
    joined: &Components,
) -> Result<bool, OutOfMemory>
    requires { IsMaximumOf pattern.now matching.now }
{
    let parts = coarse(rt, rt.alloc(), pattern, matching)?;
    Ok(
        same_parts(&found.parts, &parts)
            && are_fine(rt.alloc(), pattern, matching, &parts, &found.blocks)?
            && are_joined(rt.alloc(), pattern, &parts, joined)?,
    )
}

/// Whether the numbers of a session and of its report are those of a matrix and of a maximum
/// matching of it.
fn same_numbers(
    session: &Session,
    pattern: &Pattern,
    matching: &Matching,
    found: &Decomposition,
) -> bool {
    session.rank() == matching.size()
        && session.entries() == pattern.entries()
        && found.m == pattern.rows()
        && found.n == pattern.cols()
        && found.e == pattern.entries()
        && found.rank == matching.size()
}

/// Whether the session's rank, its number of entries and its report are those of a matrix.
fn is_session_of<R: AllocGlobal + Threads + Sync>(
    rt: &R,
    session: &Session,
    pattern: &Pattern,
) -> Result<bool, OutOfMemory> {
    let matching = maximum(rt.alloc(), pattern)?;
    let (found, joined) = session.report(rt)?;
    Ok(
        same_numbers(session, pattern, &matching, &found)
            && tells(rt, pattern, &matching, &found, &joined)?,
    )
}

/// Whether the session is that of the matrix that is made of these places anew.
fn is_from_scratch<R: AllocGlobal + Threads + Sync>(
    rt: &R,
    session: &Session,
    places: &[(u32, u32)],
) -> Result<bool, Fail> {
    let pattern = pattern_of(rt, session.rows(), session.cols(), places)?;
    Ok(is_session_of(rt, session, &pattern)?)
}

/// A session that begins with a matrix.
fn session_of(alloc: Global, pattern: &Pattern) -> Result<Session, OutOfMemory> {
    let matching = maximum(alloc, pattern)?;
    Session::new(alloc, pattern, matching)
}

/// Whether each edit leaves the rank that it is to leave, and the session of the matrix made anew of
/// the places after it.
fn edits_leave<R: AllocGlobal + Threads + Sync, L: Ledger>(
    rt: &R,
    session: &mut Session,
    edits: &Edits<'_>,
    steps: &mut Steps<L>,
) -> Result<bool, Fail> {
    let mut places = Vec::from_slice(rt.alloc(), edits.places)?;
    for edit in edits.edits {
        let after = after_edit(rt.alloc(), places.as_slice(), edit.0)?;
        if !leaves_rank(rt, session, *edit, places.as_slice(), steps)?
            || !is_from_scratch(rt, session, after.as_slice())?
        {
            return Ok(false);
        }
        places = after;
    }
    Ok(true)
}

/// Whether a session of these edits leaves what it is to leave, from its first rank on.
fn replays<R: AllocGlobal + Threads + Sync, L: Ledger>(
    rt: &R,
    edits: &Edits<'_>,
    blank: Blank,
) -> Result<bool, Fail>
    requires name { blank.name ≡ L.name }
    requires parts { blank.parts ≡ L.parts }
    requires some { 0 < blank.parts }
{
    let pattern = pattern_of(rt, edits.rows, edits.cols, edits.places)?;
    let mut session = session_of(rt.alloc(), &pattern)?;
    let mut steps = Steps::<L>::new(blank);
    Ok(
        session.rank() == edits.rank
            && session.rows() == edits.rows
            && session.cols() == edits.cols
            && edits_leave(rt, &mut session, edits, &mut steps)?,
    )
}

/// Several sessions that begin with a matrix.
fn sessions_of(alloc: Global, pattern: &Pattern) -> Result<Vec<Session>, OutOfMemory> {
    let mut sessions = Vec::with_capacity(alloc, SESSIONS_THAT_GROW)?;
    for _ in 0..SESSIONS_THAT_GROW {
        sessions.push(session_of(alloc, pattern)?)?;
    }
    Ok(sessions)
}

/// Makes an edit in every one of several sessions. Whether each leaves the rank.
fn edit_all<R: AllocGlobal + Threads + Sync, L: Ledger>(
    rt: &R,
    sessions: &mut [Session],
    edit: (Edit, u32),
    places: &[(u32, u32)],
    steps: &mut Steps<L>,
) -> Result<bool, Fail> {
    for session in sessions {
        if !leaves_rank(rt, session, edit, places, steps)? {
            return Ok(false);
        }
    }
    Ok(true)
}

/// Whether every one of several sessions is that of the matrix made anew of these places.
fn are_from_scratch<R: AllocGlobal + Threads + Sync>(
    rt: &R,
    sessions: &[Session],
    edits: &Edits<'_>,
    places: &[(u32, u32)],
) -> Result<bool, Fail> {
    for session in sessions {
        if session.rows() != edits.rows
            || session.cols() != edits.cols
            || !is_from_scratch(rt, session, places)?
        {
            return Ok(false);
        }
    }
    Ok(true)
}

/// Makes each edit in every one of several sessions, and compares them at the end. From session to
/// session only the edits take memory.
fn edits_leave_all<R: AllocGlobal + Threads + Sync, L: Ledger>(
    rt: &R,
    sessions: &mut [Session],
    edits: &Edits<'_>,
    steps: &mut Steps<L>,
) -> Result<bool, Fail> {
    let mut places = Vec::from_slice(rt.alloc(), edits.places)?;
    for edit in edits.edits {
        if !edit_all(rt, sessions, *edit, places.as_slice(), steps)? {
            return Ok(false);
        }
        places = after_edit(rt.alloc(), places.as_slice(), edit.0)?;
    }
    are_from_scratch(rt, sessions, edits, places.as_slice())
}

/// The same of new sessions.
fn replays_side_by_side<R: AllocGlobal + Threads + Sync, L: Ledger>(
    rt: &R,
    edits: &Edits<'_>,
    blank: Blank,
) -> Result<bool, Fail>
    requires name { blank.name ≡ L.name }
    requires parts { blank.parts ≡ L.parts }
    requires some { 0 < blank.parts }
{
    let pattern = pattern_of(rt, edits.rows, edits.cols, edits.places)?;
    let mut sessions = sessions_of(rt.alloc(), &pattern)?;
    let mut steps = Steps::<L>::new(blank);
    edits_leave_all(rt, sessions.as_mut_slice(), edits, &mut steps)
}

#[test]
fn each_edit_leaves_the_matrix_made_anew(rt: HostRuntime) -> Result<(), Fail> {
    let mut number: u32 = 0;
    for edits in SESSIONS {
        number = number.wrapping_add(1);
        assert!(rt;
            replays::<HostRuntime, Brand>(&rt, &edits, Blank::new(1))?,
            "session {number}"
        );
    }
    Ok(())
}

// Where one of its allocations is refused this test ends well only if that was in an edit, and the
// edit left the session as it was: elsewhere it ends for want of memory. By `rt try --test
// --fail-alloc 200` it is in an edit that copies the lists, by 240 in one that does not.
#[test]
fn an_edit_without_memory_changes_nothing(rt: HostRuntime) -> Result<(), Fail> {
    assert!(rt; replays_side_by_side::<HostRuntime, Brand>(&rt, &GROWING, Blank::new(1))?);
    Ok(())
}
