//! Laws on batches, their files and the answers to them.

ghost use Rattle.std.specs.Prelude.{◌≡◌, ◌≤◌, ◌++◌, ℕ, Bool, List, length, Some, None, true, false};
ghost use Rattle.mm_defs.specs.Calls.{Call, offered};
ghost use Rattle.mm_frames.specs.declared.batch.BatchError.{BatchError};
ghost use Rattle.mm_frames.specs.Batches.{BatchFault, IsBatch, RefusesBatch, TellsFrame, first_bad_file, first_bad_frame};

/// A batch has one list of files.
pub fn batch_has_one_list_of_files()
    ensures { (bytes : List ℕ) (files others : List (List ℕ)) → IsBatch bytes files
        → IsBatch bytes others → files ≡ others }
{}

/// Bytes are a batch where no frame of them is bad, and there alone. No file of a batch is bad,
/// however much of it was given.
pub fn batch_has_no_bad_frame()
    ensures none_bad { (bytes : List ℕ) (files : List (List ℕ)) → IsBatch bytes files
        → first_bad_frame true bytes ≡ None }
    ensures batch { (bytes : List ℕ) → first_bad_frame true bytes ≡ None
        → (files : List (List ℕ)) × IsBatch bytes files }
    ensures given { (call : Call) (files : List (List ℕ)) → IsBatch (offered call) files
        → first_bad_file call ≡ None }
{}

/// The first bad frame stays the first one, whatever follows, and whether the input ends there or
/// not.
pub fn bad_frame_stays()
    ensures { (ended : Bool) (bytes more : List ℕ) (fault : BatchFault)
        → first_bad_frame false bytes ≡ Some fault
        → first_bad_frame ended (bytes ++ more) ≡ Some fault }
{}

/// Each refusal of bytes with a bad frame tells the first one.
pub fn bad_frame_is_reported()
    ensures { (call : Call) (error : BatchError) (fault : BatchFault) → RefusesBatch call error
        → first_bad_file call ≡ Some fault → TellsFrame fault error }
{}

/// A batch within the limit is read, where no read failed and memory did not run out.
pub fn good_batch_is_read()
    ensures { (call : Call) (error : BatchError) (files : List (List ℕ)) → RefusesBatch call error
        → IsBatch (offered call) files → length (offered call) ≤ call.room
        → call.failures_after ≡ call.failures_before → error ≡ BatchError.OutOfMemory }
{}
