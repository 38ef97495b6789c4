//! The classes of labels that chains of contacts join.

ghost use Rattle.std.specs.Prelude.{◌≡◌, ◌≢◌, ◌+◌, ◌<◌, ◌≤◌, ℕ, [], length, slice_index, IfOk, OnOk};
ghost use Rattle.bip_defs.specs.Lists.{Among};
ghost use Rattle.bip_graph.specs.Matching.{none};
ghost use Rattle.outer_components.specs.Classes.{AreClasses, AreEndLists, AreReached, AreTouched, IsFlooding, IsNumbering, Spreads};
ghost use Rattle.outer_components.specs.Contacts.{AreEnds, IsClosed, Touch};

use crate::contacts::{Contact, Contacts, NONE};
use id_groups::{Groups, gather};
use sp_ids::{Id, OutOfMemory};
use std::alloc::Global;

/// The class of each label, and how many classes there are.
#[derive(Drop)]
pub struct Classes {
    pub count: u32,
    pub numbers: Vec<u32>,
}

// The contacts of each label: those of which it is the first, and those of which it is the second.
#[derive(Drop)]
struct Ends<'c> {
    contacts: &'c Contacts,
    by_first: Groups<Contact>,
    by_second: Groups<Contact>,
}

/// Numbers the classes of labels from 0 on, by their least labels.
///
/// Searches from one label after the other, over the contacts of each, which are listed for both
/// ends. Takes 16 bytes a label and 8 a contact. Returns `OutOfMemory` if these cannot be
/// allocated, or there are 2^32 contacts. Work: a fixed number of looks at each label and each
/// contact.
pub fn number_classes(alloc: Global, contacts: &Contacts) -> Result<Classes, OutOfMemory>
    requires { AreEnds contacts.now }
    ensures { IfOk result (λ k. AreClasses contacts.now k.count k.numbers.items) }
{
    let ends = list_ends(alloc, contacts)?;
    let mut numbers = vec![in alloc; NONE; contacts.count as usize]?;
    let count = number_all(alloc, &ends, numbers.as_mut_slice())?;
    Ok(Classes { count, numbers })
}

// Lists the contacts for both ends.
fn list_ends<'c>(alloc: Global, contacts: &'c Contacts) -> Result<Ends<'c>, OutOfMemory>
    requires { AreEnds contacts.now }
    ensures { IfOk result (AreEndLists contacts.now) }
{
    if contacts.firsts.len() > u32::MAX as usize {
        return Err(OutOfMemory);
    }
    let by_first = gather(alloc, contacts.firsts.as_slice(), contacts.count)?;
    let by_second = gather(alloc, contacts.seconds.as_slice(), contacts.count)?;
    Ok(Ends {
        contacts,
        by_first,
        by_second,
    })
}

// Numbers all classes, and returns how many they are.
fn number_all(alloc: Global, ends: &Ends, numbers: &mut [u32]) -> Result<u32, OutOfMemory>
    requires ends { AreEndLists ends.now.contacts.now ends.now }
    requires long { length numbers.old ≡ ends.now.contacts.now.count }
    requires none { (l : ℕ) → l < length numbers.old → slice_index numbers.old l ≡ none }
    ensures { IfOk result (λ k. AreClasses ends.now.contacts.now k numbers.new) }
{
    let mut stack = Vec::new(alloc);
    let mut count = 0;
    for label in 0..ends.contacts.count {
        count = number_next(ends, label, count, numbers, &mut stack)?;
    }
    Ok(count)
}

// Gives the next number to the class of this label, if it has none, and returns how many numbers
// were given then.
fn number_next(
    ends: &Ends,
    label: u32,
    count: u32,
    numbers: &mut [u32],
    stack: &mut Vec<u32>,
) -> Result<u32, OutOfMemory>
    requires ends { AreEndLists ends.now.contacts.now ends.now }
    requires label { label < ends.now.contacts.now.count }
    requires few { ends.now.contacts.now.count ≤ none }
    requires numbers { IsNumbering ends.now.contacts.now label count numbers.old }
    requires empty { stack.old.items ≡ [] }
    ensures { IfOk result (λ k. IsNumbering ends.now.contacts.now (label + 1) k numbers.new
        × (stack.new.items ≡ [])) }
{
    if numbers[label as usize] != NONE {
        return Ok(count);
    }
    flood(ends, label, count, numbers, stack)?;
    Ok(count + 1)
}

// Gives a number to a label and to all labels without a number that chains of contacts join with it.
fn flood(
    ends: &Ends,
    label: u32,
    number: u32,
    numbers: &mut [u32],
    stack: &mut Vec<u32>,
) -> Result<(), OutOfMemory>
    requires ends { AreEndLists ends.now.contacts.now ends.now }
    requires label { label < ends.now.contacts.now.count }
    requires number { number ≢ none }
    requires long { length numbers.old ≡ ends.now.contacts.now.count }
    requires fresh { slice_index numbers.old label ≡ none }
    requires closed { IsClosed ends.now.contacts.now numbers.old }
    requires empty { stack.old.items ≡ [] }
    ensures { OnOk result (IsFlooding ends.now.contacts.now label number numbers.old numbers.new []
        × (stack.new.items ≡ [])) }
{
    numbers[label as usize] = number;
    stack.push(label)?;
    while let Some(next) = stack.pop() {
        spread(ends, next, number, numbers, stack)?;
    }
    Ok(())
}

// Gives a number to the labels without one that are in contact with this one, and stacks them.
fn spread(
    ends: &Ends,
    label: u32,
    number: u32,
    numbers: &mut [u32],
    stack: &mut Vec<u32>,
) -> Result<(), OutOfMemory>
    requires ends { AreEndLists ends.now.contacts.now ends.now }
    requires label { label < ends.now.contacts.now.count }
    requires number { number ≢ none }
    requires long { length numbers.old ≡ ends.now.contacts.now.count }
    ensures spreads { OnOk result
        (Spreads number numbers.old numbers.new stack.old.items stack.new.items) }
    ensures touched { OnOk result (AreTouched (Touch ends.now.contacts.now label)
        numbers.old numbers.new) }
{
    let seconds = ends.contacts.seconds.as_slice();
    reach_all(ends.by_first.of(label), seconds, number, numbers, stack)?;
    let firsts = ends.contacts.firsts.as_slice();
    reach_all(ends.by_second.of(label), firsts, number, numbers, stack)?;
    Ok(())
}

// The same for the labels that are the other ends of these contacts.
fn reach_all(
    contacts: &[Contact],
    ends: &[u32],
    number: u32,
    numbers: &mut [u32],
    stack: &mut Vec<u32>,
) -> Result<(), OutOfMemory>
    requires number { number ≢ none }
    requires ends { (i : ℕ) → Among i contacts.now
        → (i < length ends.now) × (slice_index ends.now i < length numbers.old) }
    ensures spreads { OnOk result
        (Spreads number numbers.old numbers.new stack.old.items stack.new.items) }
    ensures reached { OnOk result (AreReached contacts.now ends.now
        (length contacts.now) numbers.old numbers.new) }
{
    for at in 0..contacts.len() {
        let contact = contacts[at].number();
        reach(ends[contact as usize], number, numbers, stack)?;
    }
    Ok(())
}

// The same for one label.
#[inline(always)]
fn reach(
    label: u32,
    number: u32,
    numbers: &mut [u32],
    stack: &mut Vec<u32>,
) -> Result<(), OutOfMemory>
    requires number { number ≢ none }
    requires label { label < length numbers.old }
    ensures spreads { OnOk result
        (Spreads number numbers.old numbers.new stack.old.items stack.new.items) }
    ensures touched { OnOk result (AreTouched (λ l. l ≡ label) numbers.old numbers.new) }
{
    if numbers[label as usize] == NONE {
        numbers[label as usize] = number;
        stack.push(label)?;
    }
    Ok(())
}
