//! Lists that are written for the caller.

ghost use Rattle.std.specs.Prelude.{◌≡◌, ◌+◌, ◌<◌, ◌≤◌, ◌^◌, ◌++◌, length, map};
ghost use Rattle.bip_defs.specs.Blocks.{all_rows};
ghost use Rattle.blocktri.specs.Answers.{AreBlockStarts};
ghost use Rattle.blocktri.specs.Written.{IsPut};

use bip_graph::Blocks;
use sp_ids::Id;

/// Writes the numbers of three lists, one behind the other.
pub fn write_lists<I: Id>(out: &mut [u32], first: &[I], middle: &[I], last: &[I])
    requires { length out.old ≡ length first.now + length middle.now + length last.now }
    ensures { out.new
        ≡ map I.number first.now ++ map I.number middle.now ++ map I.number last.now }
{
    write_at(out, 0, first);
    write_at(out, first.len(), middle);
    write_at(out, first.len() + middle.len(), last);
}

/// Writes the numbers of a list from a place on.
pub fn write_at<I: Id>(out: &mut [u32], at: usize, ids: &[I])
    requires { at + length ids.now ≤ length out.old }
    ensures { IsPut at (map I.number ids.now) out.old out.new }
{
    for k in 0..ids.len() {
        out[at + k] = ids[k].number();
    }
}

/// Writes the start of each block, and behind them the number of rows of all blocks.
pub fn write_starts(out: &mut [u32], blocks: &Blocks)
    requires room { length blocks.now < length out.old }
    requires few { length (all_rows blocks.now) < 2 ^ 32 }
    ensures { AreBlockStarts blocks.now out.old out.new }
{
    let mut start = 0;
    for block in 0..blocks.len() {
        out[block] = start;
        start += blocks.rows(block).len() as u32;
    }
    out[blocks.len()] = start;
}
