//! Runs of events.

ghost use Rattle.std.specs.Prelude.{◌≡◌, IfOk};
ghost use Rattle.bip_graph.specs.Matching.{IsMatchingOf};
ghost use Rattle.forest_core.specs.Events.{IsLegal, Becomes};
ghost use Rattle.forest_core.specs.Made.{AreMade, IsGrownBy, IsLongest};
ghost use Rattle.forest_core.specs.Sound.{IsSound};
ghost use Rattle.bip_defs.specs.Forest.{new_forest};

use crate::forest::Forest;
use bip_graph::Matching;
use sp_ids::{Event, OutOfMemory};
use sp_pattern::Pattern;
use std::alloc::Global;

// Makes a legal event.
fn make(forest: &mut Forest, event: Event)
    requires { IsLegal forest.old event }
    ensures { Becomes forest.old event forest.new }
{
    match event {
        Event::Claim { row, col } => forest.claim(row, col),
        Event::Win { root, leaf } => forest.win(root, leaf),
        Event::Flip { root } => forest.flip(root),
        Event::Graft => forest.graft(),
        Event::Rebuild => forest.rebuild(),
        Event::Done => {}
    }
}

/// Makes events on a new forest, up to the first that is not legal. The forest that they leave, and
/// how many were made.
///
/// Returns `OutOfMemory` if it cannot allocate the forest. Work: as of `may` and of the events.
pub fn every_run<'p>(
    alloc: Global,
    pattern: &'p Pattern,
    matching: Matching,
    events: &[Event],
) -> Result<(Forest<'p>, usize), OutOfMemory>
    requires matching { IsMatchingOf pattern.now matching }
    ensures made { IfOk result (AreMade (new_forest pattern.entry.now matching.pairs) events.now) }
    ensures longest { IfOk result (IsLongest events.now) }
    ensures pattern { IfOk result (λ o. o.0.matrix ≡ pattern.entry.now) }
    ensures sound { IfOk result (λ o. IsSound o.0) }

    // The current matching is one of entries, larger than the first by the number of flips.
    ensures current { IfOk result (IsGrownBy pattern.entry.now matching.pairs events.now) }
{
    let mut forest = Forest::new(alloc, pattern, matching)?;
    for (made, event) in events.iter().enumerate() {
        if !forest.may(*event) {
            return Ok((forest, made));
        }
        make(&mut forest, *event);
    }
    Ok((forest, events.len()))
}
