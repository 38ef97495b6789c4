//! Laws on bad lines, good files and answers.

ghost use Rattle.std.specs.Prelude.{◌≡◌, ◌≤◌, ◌<◌, ◌+◌, ◌-◌, ℕ, Bool, List, [], ◌++◌, length, take, slice_index_or, Result, true, false};
ghost use Rattle.sp_ids.specs.Entries.{Entries};
ghost use Rattle.mm_defs.specs.declared.answers.End.{End};
ghost use Rattle.mm_defs.specs.declared.answers.ReadError.{ReadError};
ghost use Rattle.mm_defs.specs.declared.header.Symmetry.{Symmetry};
ghost use Rattle.mm_defs.specs.declared.header.Symmetry.TheVariants.{General};
ghost use Rattle.mm_defs.specs.Arrays.{HasValue, array_places, first_row, following, value_count};
ghost use Rattle.mm_defs.specs.Words.{lines};
ghost use Rattle.mm_defs.specs.File.{Fault, Reads, faults, first_fault};
ghost use Rattle.mm_defs.specs.Calls.{Call, offered, first_bad, IsAnswer, FellShort, LacksLines, IsAnswerTo, IsRefusal, IsOkOrNoMemory, IsTooLongOrNoMemory};

/// The first bad line stays the first one, whatever follows, and whether the input ends there or
/// not.
pub fn bad_line_stays()
    ensures { (end : End) (ended : Bool) (bytes more : List ℕ) (fault : Fault)
        → first_fault end false bytes ≡ Some fault
        → first_fault end ended (bytes ++ more) ≡ Some fault }
{}

/// No line of a prefix of a good file is bad.
pub fn prefix_of_good_file()
    ensures { (end : End) (bytes more : List ℕ) → faults end true (lines true (bytes ++ more)) ≡ []
        → first_fault end false bytes ≡ None }
{}

/// Each answer to a call with a bad line tells the first one.
pub fn bad_line_is_reported()
    ensures { (end : End) (call : Call) (rest : List ℕ) (result : Result Entries ReadError)
        (fault : Fault)
        → IsAnswer end call rest result → first_bad end call ≡ Some fault
        → IsAnswerTo fault result }
{}

/// A good file within the limit is read, where no read failed and memory did not run out, and its
/// entries are given.
pub fn good_file_is_read()
    ensures answer { (end : End) (call : Call) (rest : List ℕ) (result : Result Entries ReadError)
        (t : Entries) (follows : List ℕ)
        → IsAnswer end call rest result → Reads (offered call) end t follows
        → length (offered call) ≤ call.room → call.failures_after ≡ call.failures_before
        → IsOkOrNoMemory result }
    ensures entries { (end : End) (call : Call) (rest : List ℕ) (t u : Entries) (follows : List ℕ)
        → IsAnswer end call rest (Ok u) → Reads (offered call) end t follows
        → (u ≡ t) × (rest ≡ follows) }
{}

/// A good matrix that ends within the limit is read, whatever follows it, where no read failed and
/// memory did not run out.
pub fn good_matrix_is_read()
    ensures { (end : End) (call : Call) (rest : List ℕ) (result : Result Entries ReadError)
        (t : Entries) (follows : List ℕ)
        → IsAnswer end call rest result → FellShort end call result
        → Reads (offered call) end t follows
        → length (offered call) - length follows ≤ call.room
        → call.failures_after ≡ call.failures_before → IsOkOrNoMemory result }
{}

/// `TooLong` is answered where more bytes are offered than may be used, no line within the limit is
/// bad and the matrix has not ended within it, where no read failed and memory did not run out.
pub fn too_long_is_reported()
    ensures { (end : End) (call : Call) (rest : List ℕ) (result : Result Entries ReadError)
        → IsAnswer end call rest result → call.room < length (offered call)
        → first_fault end false (take call.room (offered call)) ≡ None
        → LacksLines end (lines false (take call.room (offered call)))
        → call.failures_after ≡ call.failures_before → IsTooLongOrNoMemory result }
{}

/// Other bytes are refused, where no read failed and memory did not run out.
pub fn bad_file_is_refused()
    ensures { (end : End) (call : Call) (rest : List ℕ) (result : Result Entries ReadError)
        → IsAnswer end call rest result
        → ((t : Entries) (follows : List ℕ) → Reads (offered call) end t follows → ⊥)
        → call.failures_after ≡ call.failures_before → IsRefusal result }
{}

/// An array file has as many values as its size line says.
pub fn array_values_are_counted()
    ensures general { (rows cols : ℕ) → length (array_places General rows cols)
        ≡ value_count General rows cols }
    ensures square { (y : Symmetry) (n : ℕ) → length (array_places y n n) ≡ value_count y n n }
{}

/// The places of an array file's values follow one another, and none of them is past the last row
/// or column or in the part of the matrix that other values tell.
pub fn array_places_follow()
    ensures first { (y : Symmetry) (rows cols : ℕ) → 0 < length (array_places y rows cols)
        → slice_index_or (array_places y rows cols) 0 (0, 0) ≡ (first_row y 0, 0) }
    ensures next { (y : Symmetry) (rows cols k : ℕ) → k + 1 < length (array_places y rows cols)
        → slice_index_or (array_places y rows cols) (k + 1) (0, 0)
        ≡ following y rows (slice_index_or (array_places y rows cols) k (0, 0)) }
    ensures inside { (y : Symmetry) (rows cols k : ℕ) → k < length (array_places y rows cols)
        → HasValue y rows cols (slice_index_or (array_places y rows cols) k (0, 0)) }
{}
