//! Files that were worked by hand, as theorems: the definitions compute what has to be found in
//! them.

ghost use Rattle.std.specs.Prelude.{◌≡◌, [], true, false, map};
ghost use Rattle.mm_defs.specs.Words.{lines};
ghost use Rattle.mm_defs.specs.File.{first_fault, faults, rest_of};
ghost use Rattle.mm_defs.specs.Worked.{Refused, ReadFile, Followed, bad_banners, bad_sizes, bad_entries, bad_values, good_files, good_arrays, read, followed_files, prefixes};

use crate::End;

/// The first fault of files whose banner, size line, entry lines, value lines or end are bad.
pub fn worked_refusals()
    ensures banners { map (λ (row : Refused). first_fault End.File true row.0) bad_banners
        ≡ map (λ (row : Refused). row.1) bad_banners }
    ensures sizes { map (λ (row : Refused). first_fault End.File true row.0) bad_sizes
        ≡ map (λ (row : Refused). row.1) bad_sizes }
    ensures entries { map (λ (row : Refused). first_fault End.File true row.0) bad_entries
        ≡ map (λ (row : Refused). row.1) bad_entries }
    ensures values { map (λ (row : Refused). first_fault End.File true row.0) bad_values
        ≡ map (λ (row : Refused). row.1) bad_values }
{}

/// The entries of good files.
pub fn worked_files()
    ensures coordinate { map (λ (row : ReadFile). read row.0) good_files
        ≡ map (λ (row : ReadFile). row.1) good_files }
    ensures array { map (λ (row : ReadFile). read row.0) good_arrays
        ≡ map (λ (row : ReadFile). row.1) good_arrays }
{}

/// What follows a matrix that ends with its last entry, where further lines are not judged.
pub fn worked_rests()
    ensures good { map (λ (row : Followed). faults End.LastEntry true (lines true row.0))
        followed_files ≡ map (λ (row : Followed). []) followed_files }
    ensures rests { map (λ (row : Followed). rest_of End.LastEntry row.0) followed_files
        ≡ map (λ (row : Followed). row.1) followed_files }
{}

/// The first fault of a prefix of a file: no line is bad that has not ended, and nothing is missing
/// yet.
pub fn worked_prefixes()
    ensures { map (λ (row : Refused). first_fault End.File false row.0) prefixes
        ≡ map (λ (row : Refused). row.1) prefixes }
{}
