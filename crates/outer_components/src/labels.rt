//! The labels of rows and columns.

ghost use Rattle.std.specs.Prelude.{◌≡◌, ◌≢◌, ◌<◌, ℕ, length, map, replicate, slice_index, IfOk, OnOk};
ghost use Rattle.bip_defs.specs.Lists.{Among, Lists};
ghost use Rattle.bip_defs.specs.Matrix.{IsEntry, Matrix, cols};
ghost use Rattle.bip_defs.specs.Parts.{IsHorizontalCol};
ghost use Rattle.bip_graph.specs.Matching.{none};
ghost use Rattle.column_lists.specs.Listed.{AreListed};
ghost use Rattle.outer_components.specs.Contacts.{AreEnds, HasNoContacts};
ghost use Rattle.outer_components.specs.Labels.{AreLabels, AreMet, AreRenamed, FitLabels, IsLabelFor, IsMet, KeepsLabels, LabelsColumn};
ghost use Rattle.outer_components.specs.Numbers.{AreNumbers};

use crate::classes::number_classes;
use crate::contacts::{Contacts, NONE};
use column_lists::ColumnLists;
use sp_ids::{Col, Id, OutOfMemory};
use sp_pattern::NumberList;
use std::alloc::Global;

/// Writes the number of its component in place of no label for each row and column of the part, and
/// returns how many components there are.
pub fn label_all<N: Id, L: ColumnLists>(
    alloc: Global,
    lists: L,
    columns: &[N],
    row_labels: &mut [u32],
    col_labels: &mut [u32],
) -> Result<u32, OutOfMemory>
    requires columns { Lists (IsHorizontalCol (L.matrix lists)) (map N.number columns.now) }
    requires rows { row_labels.old ≡ replicate (Matrix.rows (L.matrix lists)) none }
    requires cols { col_labels.old ≡ replicate (cols (L.matrix lists)) none }
    ensures { IfOk result (λ n. AreNumbers (L.matrix lists) n row_labels.new col_labels.new) }
{
    lists.are_listed();
    let many = (row_labels.len() / 8) + (columns.len() / 8) + 64;
    let mut contacts = Contacts::new(alloc);
    for at in 0..columns.len() {
        merge_if_many(alloc, many, row_labels, col_labels, &mut contacts)?;
        label_column(
            lists,
            columns[at].number(),
            row_labels,
            col_labels,
            &mut contacts,
        )?;
    }
    merge(alloc, row_labels, col_labels, &mut contacts)?;
    Ok(contacts.count)
}

// Makes classes of the labels where many contacts have come together, and at least as many as there
// are labels.
fn merge_if_many(
    alloc: Global,
    many: usize,
    row_labels: &mut [u32],
    col_labels: &mut [u32],
    contacts: &mut Contacts,
) -> Result<(), OutOfMemory>
    requires { FitLabels contacts.old row_labels.old col_labels.old }
    ensures { OnOk result (KeepsLabels contacts.old row_labels.old col_labels.old
        contacts.new row_labels.new col_labels.new) }
{
    let len = contacts.firsts.len();
    if len < many || len < contacts.count as usize {
        return Ok(());
    }
    merge(alloc, row_labels, col_labels, contacts)
}

// Makes one label of all that chains of contacts join, and forgets the contacts. The new labels
// stand in the order of the old ones.
fn merge(
    alloc: Global,
    row_labels: &mut [u32],
    col_labels: &mut [u32],
    contacts: &mut Contacts,
) -> Result<(), OutOfMemory>
    requires { FitLabels contacts.old row_labels.old col_labels.old }
    ensures kept { OnOk result (KeepsLabels contacts.old row_labels.old col_labels.old
        contacts.new row_labels.new col_labels.new) }
    ensures empty { OnOk result (HasNoContacts contacts.new) }
{
    let classes = number_classes(alloc, contacts)?;
    rename(classes.numbers.as_slice(), row_labels);
    rename(classes.numbers.as_slice(), col_labels);
    contacts.restart(classes.count);
    Ok(())
}

// Gives each label its number, in its place.
fn rename(numbers: &[u32], labels: &mut [u32])
    requires { (v : ℕ) → v < length labels.old → slice_index labels.old v ≢ none
        → slice_index labels.old v < length numbers.now }
    ensures { AreRenamed numbers.now labels.old labels.new }
{
    for at in 0..labels.len() {
        let label = labels[at];
        if label != NONE {
            labels[at] = numbers[label as usize];
        }
    }
}

// Labels a column and those of its rows that have no label.
fn label_column<L: ColumnLists>(
    lists: L,
    col: u32,
    row_labels: &mut [u32],
    col_labels: &mut [u32],
    contacts: &mut Contacts,
) -> Result<(), OutOfMemory>
    requires listed { AreListed (L.matrix lists) (L.listed lists) }
    requires col { col < cols (L.matrix lists) }
    requires few { contacts.old.count < none }
    requires fit { FitLabels contacts.old row_labels.old col_labels.old }
    requires long_rows { length row_labels.old ≡ Matrix.rows (L.matrix lists) }
    requires long_cols { length col_labels.old ≡ cols (L.matrix lists) }
    ensures { OnOk result (LabelsColumn (L.matrix lists) col contacts.old row_labels.old
        col_labels.old contacts.new row_labels.new col_labels.new) }
{
    let entries = lists.rows_of(Col(col));
    let label = label_for(entries, row_labels, contacts);
    col_labels[col as usize] = label;
    meet_all(entries, label, row_labels, contacts)?;
    Ok(())
}

// The label of the first of these rows that has one, else a new one.
fn label_for<R: NumberList>(entries: R, rows: &[u32], contacts: &mut Contacts) -> u32
    requires rows { (r : ℕ) → Among r (R.numbers entries) → r < length rows.now }
    requires few { contacts.old.count < none }
    ensures { IsLabelFor (R.numbers entries) rows.now result contacts.old contacts.new }
{
    for at in 0..entries.len() {
        let label = rows[entries.at(at) as usize];
        if label != NONE {
            return label;
        }
    }
    let label = contacts.count;
    contacts.count += 1;
    label
}

// Gives a label to those of these rows that have none, and keeps its contacts with the labels of the
// others.
fn meet_all<R: NumberList>(
    entries: R,
    label: u32,
    rows: &mut [u32],
    contacts: &mut Contacts,
) -> Result<(), OutOfMemory>
    requires rows { (r : ℕ) → Among r (R.numbers entries) → r < length rows.old }
    requires label { label ≢ none }
    requires long { length contacts.old.seconds.items ≡ length contacts.old.firsts.items }
    ensures { OnOk result (AreMet (R.numbers entries) (length (R.numbers entries)) label rows.old
        rows.new contacts.old contacts.new) }
{
    let mut last = label;
    for at in 0..entries.len() {
        last = meet(entries.at(at) as usize, label, last, rows, contacts)?;
    }
    Ok(())
}

// The same for one row. The contact with the last other label is there, and so is each label's with
// itself; gives the last one then.
#[inline(always)]
fn meet(
    row: usize,
    label: u32,
    last: u32,
    rows: &mut [u32],
    contacts: &mut Contacts,
) -> Result<u32, OutOfMemory>
    requires { row < length rows.old }
    ensures { IfOk result (λ now. IsMet row label last now rows.old rows.new contacts.old
        contacts.new) }
{
    let known = rows[row];
    if known == label || known == last {
        return Ok(last);
    }
    if known == NONE {
        rows[row] = label;
        return Ok(last);
    }
    contacts.add(label, known)?;
    Ok(known)
}
