//! Sets of small numbers.

ghost use Rattle.std.specs.Prelude.{◌≡◌};

use int_set::IntSet;
use sp_ids::OutOfMemory;
use std::alloc::Global;

// Puts a number below 200,000 into a set of such numbers. Whether it is one.
fn insert_number(set: &mut IntSet, number: u32) -> bool
    requires { set.old.bound ≡ 200000 }
    ensures { set.new.bound ≡ 200000 }
{
    if number >= 200_000 {
        return false;
    }
    set.insert(number);
    true
}

// Takes the least member out. Whether it is this one.
fn takes_least(set: &mut IntSet, least: Option<u32>) -> bool
    ensures { set.new.bound ≡ set.old.bound }
{
    set.take_least() == least
}

// 200,000 numbers have three levels, and the members below differ at each of them.
#[test]
fn gives_members_by_size(rt: HostRuntime) -> Result<(), OutOfMemory> {
    let mut set = IntSet::new(rt.alloc(), 200_000)?;
    assert!(rt; takes_least(&mut set, None));
    for member in [70_000, 199_999, 64, 0, 4_096, 63, 130] {
        assert!(rt; insert_number(&mut set, member));
    }
    assert!(rt; set.least() == Some(0));
    for least in [0, 63, 64, 130, 4_096, 70_000] {
        assert!(rt; takes_least(&mut set, Some(least)));
    }
    assert!(rt; insert_number(&mut set, 5));
    for least in [Some(5), Some(199_999), None] {
        assert!(rt; takes_least(&mut set, least));
    }
    Ok(())
}

// Whether a set of no numbers has no member, and a set of one number gives that.
fn small_sets_are_right(alloc: Global) -> Result<bool, OutOfMemory> {
    let mut none = IntSet::new(alloc, 0)?;
    let mut one = IntSet::new(alloc, 1)?;
    one.insert(0);
    Ok(none.least().is_none() && none.take_least().is_none() && one.take_least() == Some(0))
}

#[test]
fn is_made_for_no_numbers_too(rt: HostRuntime) -> Result<(), OutOfMemory> {
    assert!(rt; small_sets_are_right(rt.alloc())?);
    Ok(())
}
