//! Where components wait for one another.

ghost use Rattle.std.specs.Prelude.{◌≡◌, ◌≢◌, ℕ, ◌<◌, ◌≤◌, ◌^◌, length, slice_index};
ghost use Rattle.bip_graph.specs.Matching.{none};
ghost use Rattle.dm_fine.specs.Waits.{Holds, StopsAt};

use sp_pattern::NumberList;

/// No component.
pub const NONE: u32 = u32::MAX;

/// The first component that waits at this one, the next one in the list that this one stands in,
/// and the place where this one stopped: a column by its place in the component, and a place in
/// its list of rows.
#[derive(Clone, Copy)]
pub struct Wait {
    pub first: u32,
    pub next: u32,
    pub col: u32,
    pub at: u32,
}

/// Nothing waits here, and this waits at none.
pub const IDLE: Wait = Wait {
    first: NONE,
    next: NONE,
    col: 0,
    at: 0,
};

/// The place where a look at a component stopped, and the component that the row there is of. That
/// is `NONE` where the look came to the end.
#[derive(Clone, Copy)]
pub struct Halt {
    pub col: u32,
    pub at: u32,
    pub on: u32,
}

/// Puts a component at the head of the list of the one at which it stopped.
#[inline(always)]
pub fn hold(waits: &mut [Wait], own: u32, stop: Halt)
    requires own { own < length waits.old }
    requires on { stop.on < length waits.old }
    ensures { Holds waits.old own stop waits.new }
{
    let next = waits[stop.on as usize].first;
    let wait = &mut waits[own as usize];
    wait.next = next;
    wait.col = stop.col;
    wait.at = stop.at;
    waits[stop.on as usize].first = own;
}

/// The first place from `from` on where a list has a row of another component, and that component.
/// It is `NONE` where there is no such place.
#[inline(always)]
pub fn stop_in<R: NumberList>(list: R, from: usize, of_rows: &[u32], own: u32) -> (usize, u32)
    requires rows { (i : ℕ) → i < length (R.numbers list)
        → slice_index (R.numbers list) i < length of_rows.now }
    ensures { StopsAt of_rows.now (R.numbers list) own from result.0 result.1 }
{
    for at in from..list.len() {
        let on = of_rows[list.at(at) as usize];
        if on != own && on != NONE {
            return (at, on);
        }
    }
    (from, NONE)
}
