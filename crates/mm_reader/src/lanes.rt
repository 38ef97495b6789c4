//! Short numbers, many bytes at a look: where their digits end is read off a mask of sixteen bytes,
//! and eight digits are joined in one word.

ghost use Rattle.std.specs.Prelude.{◌≡◌, ℕ, ◌+◌, ◌<◌, ◌≤◌, ◌^◌, true, List, length, IfSome};
ghost use Rattle.std.specs.Simd.Lanes.{Each1, number_l};
ghost use Rattle.std.specs.Int.Digits.{number_from_digits};
ghost use Rattle.std.specs.Str.{all_ascii_digits};
ghost use Rattle.mm_defs.specs.Numbers.{value};
ghost use Rattle.mm_reader.specs.Plain.{between};
ghost use Rattle.mm_reader.specs.Places.{IsMask, IsShortNumber};

use std::simd::prelude::*;

/// So many digits are joined at once.
const MOST_AT_ONCE: usize = 8;

/// A bit for each of the sixteen bytes from here on that is not a digit, the first byte's the
/// lowest.
#[inline(always)]
pub fn non_digits(bytes: &[u8], from: usize) -> u64
    requires { from + 16 ≤ length bytes.now }
    ensures { IsMask bytes.now from result }
{
    let digits = u8x16::from_slice(&bytes[from..]) - u8x16::splat(b'0');
    digits.simd_ge(u8x16::splat(10)).to_bitmask()
}

/// The same of the bytes some places on: what is left of a mask, or a new one where nothing of it
/// is left.
#[inline(always)]
pub fn later_non_digits(bytes: &[u8], from: usize, mask: u64, places: usize) -> u64
    requires mask { IsMask bytes.now from mask }
    requires few { places < 16 }
    requires room { from + places + 16 ≤ length bytes.now }
    ensures { IsMask bytes.now (from + places) result }
{
    let left = mask >> places;
    if left == 0 {
        return non_digits(bytes, from + places);
    }
    left
}

/// The number that begins here and how many digits it has, if there are one to eight. The mask is
/// that of the bytes here.
#[inline(always)]
pub fn short_number(bytes: &[u8], from: usize, mask: u64) -> Option<(u64, usize)>
    requires room { from + 8 ≤ length bytes.now }
    requires mask { IsMask bytes.now from mask }
    ensures { IfSome result (λ p. IsShortNumber bytes.now from (from + p.1) p.0) }
{
    if mask == 0 {
        return None;
    }
    let count = mask.trailing_zeros() as usize;
    if count == 0 {
        return None;
    }
    if count > MOST_AT_ONCE {
        return None;
    }
    Some((digits_at_once(bytes, from, count), count))
}

/// The number of one to eight digits.
#[inline(always)]
fn digits_at_once(bytes: &[u8], from: usize, count: usize) -> u64
    requires room { from + 8 ≤ length bytes.now }
    requires some { 0 < count }
    requires few { count ≤ 8 }
    requires digits { all_ascii_digits (between bytes.now from (from + count)) ≡ true }
    ensures { result ≡ value (between bytes.now from (from + count)) }
{
    let digits = u8x8::from_slice(&bytes[from..]) - u8x8::splat(b'0');
    let word = u64x1::from_le_bytes(digits).to_array()[0];
    joined(word << (64 - 8 * count))
}

/// What eight digits stand for that lie in a word, the first in its lowest byte: neighbours are
/// joined to fields of two digits, of four and of eight.
#[inline(always)]
fn joined(word: u64) -> u64
    requires { word < 2 ^ 60 }
    ensures { (ds : List ℕ) → length ds ≡ 8 → Each1 (λ d. d ≤ 9) ds → word ≡ number_l 256 ds
        → result ≡ number_from_digits 10 ds }
{
    let twos = (word * 10 + (word >> 8)) & 0x00ff_00ff_00ff_00ff;
    let fours = (twos * 100 + (twos >> 16)) & 0x0000_ffff_0000_ffff;
    (fours * 10_000 + (fours >> 32)) & 0xffff_ffff
}
