//! Each worker's share of a list.

ghost use Rattle.std.specs.Prelude.{◌≡◌, ◌*◌, ◌/◌, ◌<◌, ◌≤◌};
ghost use Rattle.bip_defs.specs.Lists.{Among};
ghost use Rattle.level_sharing.specs.Shares.{share_of};

/// The share of a worker, of so many, in a list: its places from `number * l / workers` up to
/// `(number + 1) * l / workers`, both rounded down, of l. The shares of all workers follow each
/// other, and one may be empty.
pub fn share<T>(list: &[T], workers: usize, number: usize) -> &[T]
    requires { number < workers }
    ensures share { result.now ≡ share_of list.now workers number }
    ensures within { (x : T) → Among x result.now → Among x list.now }
{
    let len = list.len();
    &list[share_start(len, workers, number)..share_start(len, workers, number + 1)]
}

/// Where the share of a worker begins: at the place `number * len / workers`, rounded down, of a
/// list of this length. There the share of the worker before it ends.
pub fn share_start(len: usize, workers: usize, number: usize) -> usize
    requires { (0 < workers) × (number ≤ workers) }
    ensures start { result ≡ number * len / workers }
    ensures within { result ≤ len }
{
    (number as u128 * len as u128 / workers as u128) as usize
}
