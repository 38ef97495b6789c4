//! The sizes of what is found.

ghost use Rattle.std.specs.Prelude.{◌≡◌, ◌<◌, ◌≤◌, ◌^◌};
ghost use Rattle.bip_defs.specs.Matrix.{Matrix, cols};
ghost use Rattle.bip_graph.specs.Decompositions.{HasParts, parts_of};
ghost use Rattle.blocktri.specs.Answers.{ArePartSizes};
ghost use Rattle.blocktri.specs.Found.{IsFoundOf, TellsFound};
ghost use Rattle.blocktri.specs.declared.sizes.Wants.{Wants};

use crate::found::{Decomposed, Found};
use crate::orders::lengths_add_up;
use crate::sizes::{ComponentCounts, Sizes};
use bip_graph::Parts;

/// The sizes of what is found, and how many blocks and components there are.
pub fn sizes_of(found: &Found) -> Sizes
    requires { (a : Matrix) × (wants : Wants) × IsFoundOf a wants found.now
        × (a.rows < 2 ^ 32) × (cols a < 2 ^ 32) }
    ensures { (a : Matrix) (wants : Wants) → IsFoundOf a wants found.now
        → TellsFound a found.now result }
{
    let rank = found.matching.size();
    let components = match &found.outer {
        Some(outer) => Some(ComponentCounts {
            horizontal: outer.horizontal.len() as u32,
            vertical: outer.vertical.len() as u32,
        }),
        None => None,
    };
    match &found.shape {
        Decomposed::Coarse(parts) => part_sizes(parts, rank, None, components),
        Decomposed::Fine(form) => {
            lengths_add_up(form);
            part_sizes(
                &form.parts,
                rank,
                Some(form.blocks.len() as u32),
                components,
            )
        }
    }
}

// The sizes of the parts, with the other numbers.
fn part_sizes(
    parts: &Parts,
    rank: u32,
    blocks: Option<u32>,
    components: Option<ComponentCounts>,
) -> Sizes
    requires { (a : Matrix) × HasParts a parts.now × (a.rows < 2 ^ 32) × (cols a < 2 ^ 32) }
    ensures sizes { ArePartSizes (parts_of parts.now) result }
    ensures rank { result.rank ≡ rank }
    ensures blocks { result.blocks ≡ blocks }
    ensures components { result.components ≡ components }
{
    Sizes {
        rank,
        horizontal_rows: parts.hr.len() as u32,
        horizontal_columns: parts.hc.len() as u32,
        square: parts.sr.len() as u32,
        vertical_rows: parts.vr.len() as u32,
        vertical_columns: parts.vc.len() as u32,
        blocks,
        components,
    }
}
