//! What stands above each class.

ghost use Rattle.std.specs.Prelude.{◌≡◌, ◌<◌, ◌≤◌, ◌+◌, ◌^◌, ◌||◌, ◌==◌, [], length, map, true, IfOk, IsOkUnless, Some, List, ℕ, slice_get, slice_set};
ghost use Rattle.std.specs.List.{range_with_len};
ghost use Rattle.std.specs.Option.{option_to_list};
ghost use Rattle.nr_linkrules.specs.Reaches.{HasSteps, reaches, reaches_by, row_of, rows_of, steps_up};
ghost use Rattle.nr_link.specs.Marks.{set_all};

use nr_base::Items;
use nr_linked::{ClassId, ProgramTables};
use nr_linkrules::LinkFault;
use std::alloc::Global;

/// Sets the class's bit, where there is one.
pub fn mark(row: &mut Items<bool>, class: ClassId)
    ensures { row.new ≡ slice_set row.old class true }
{
    if let Some(bit) = row.get_mut(class as usize) {
        *bit = true;
    }
}

fn mark_some(row: &mut Items<bool>, class: Option<ClassId>)
    ensures { row.new ≡ set_all row.old (option_to_list class) }
{
    if let Some(class) = class {
        mark(row, class);
    }
}

#[tactic(auto, using(crate::proofs::Marks::sets_on, crate::proofs::Marks::sets_all))]
fn mark_all(row: &mut Items<bool>, classes: &[ClassId])
    ensures { row.new ≡ set_all row.old classes.now }
{
    for class in classes {
        mark(row, *class);
    }
}

/// Sets the bits of what stands directly above the class.
#[tactic(auto, using(crate::proofs::Marks::set_both))]
fn mark_steps(tables: &ProgramTables, row: &mut Items<bool>, class: ClassId)
    ensures { row.new ≡ set_all row.old (steps_up tables.now class) }
{
    let Some(info) = tables.class_at(class) else {
        return;
    };
    mark_some(row, info.super_class);
    mark_all(row, info.interfaces.as_slice());
}

/// Which classes stand directly above the class, or are it.
#[tactic(auto, using(crate::proofs::Marks::first_marked))]
fn first_row(
    alloc: Global,
    tables: &ProgramTables,
    class: ClassId,
) -> Result<Items<bool>, LinkFault>
    ensures row { IfOk result (λ row. row ≡ row_of tables.now 0 class) }
    ensures err { IsOkUnless result LinkFault.NoMemory }
{
    let mut row = Items::from_vec(vec![in alloc; false; tables.classes.len()]?);
    mark(&mut row, class);
    mark_steps(tables, &mut row, class);
    Ok(row)
}

/// The row of a class with what the row of one class more has.
#[tactic(auto, using(crate::proofs::Rows::row_length, crate::proofs::Rows::row_at, crate::proofs::Rows::at_next, crate::proofs::Rows::part_more), unfolding(nr_linkrules::specs::Reaches::row_of))]
fn joined(
    alloc: Global,
    tables: &ProgramTables,
    by: usize,
    class: usize,
    row: &[bool],
    pivot: &[bool],
) -> Result<Items<bool>, LinkFault>
    requires few { length tables.now.classes < 2 ^ 32 }
    requires by { by < length tables.now.classes }
    requires row { row.now ≡ row_of tables.now by class }
    requires pivot { pivot.now ≡ row_of tables.now by by }
    ensures row { IfOk result (λ row. row ≡ row_of tables.now (by + 1) class) }
    ensures err { IsOkUnless result LinkFault.NoMemory }
{
    let mut next = Items::new(alloc);
    for above in 0..tables.classes.len() {
        next.push(row[above] || row[by] && pivot[above])?;
    }
    Ok(next)
}

/// The row of a class by way of one class more. It stays where that isn't above.
#[tactic(auto, using(crate::proofs::Rows::row_length, crate::proofs::Rows::row_at, crate::proofs::Rows::kept))]
fn next_row(
    alloc: Global,
    tables: &ProgramTables,
    by: usize,
    class: usize,
    row: Items<bool>,
    pivot: &[bool],
) -> Result<Items<bool>, LinkFault>
    requires few { length tables.now.classes < 2 ^ 32 }
    requires by { by < length tables.now.classes }
    requires row { row ≡ row_of tables.now by class }
    requires pivot { pivot.now ≡ row_of tables.now by by }
    ensures row { IfOk result (λ next. next ≡ row_of tables.now (by + 1) class) }
    ensures err { IsOkUnless result LinkFault.NoMemory }
{
    if row.as_slice()[by] {
        joined(alloc, tables, by, class, row.as_slice(), pivot)
    } else {
        Ok(row)
    }
}

#[tactic(auto, using(crate::proofs::Rows::parts_more), unfolding(nr_linkrules::specs::Reaches::rows_of))]
fn first_rows(alloc: Global, tables: &ProgramTables) -> Result<Items<Items<bool>>, LinkFault>
    requires few { length tables.now.classes < 2 ^ 32 }
    ensures rows { IfOk result (λ rows. rows ≡ rows_of tables.now 0) }
    ensures err { IsOkUnless result LinkFault.NoMemory }
{
    let mut rows = Items::new(alloc);
    for class in 0..tables.classes.len() as u32 {
        rows.push(first_row(alloc, tables, class)?)?;
    }
    Ok(rows)
}

/// The rows by way of one class more.
#[tactic(auto, using(crate::proofs::Rows::rows_length, crate::proofs::Rows::rows_at))]
fn next_rows(
    alloc: Global,
    tables: &ProgramTables,
    by: usize,
    rows: Items<Items<bool>>,
) -> Result<Items<Items<bool>>, LinkFault>
    requires few { length tables.now.classes < 2 ^ 32 }
    requires by { by < length tables.now.classes }
    requires rows { rows ≡ rows_of tables.now by }
    ensures rows { IfOk result (λ next. next ≡ rows_of tables.now (by + 1)) }
    ensures err { IsOkUnless result LinkFault.NoMemory }
{
    let pivot = Vec::from_slice(alloc, rows.as_slice()[by].as_slice())?;
    let mut next = Items::new(alloc);
    let mut rest = rows.into_vec().into_iter();
    for class in 0..tables.classes.len() {
        let Some(row) = rest.next() else {
            return Ok(next);
        };
        next.push(next_row(alloc, tables, by, class, row, pivot.as_slice())?)?;
    }
    Ok(next)
}

/// Which classes stand above which.
pub fn rows(alloc: Global, tables: &ProgramTables) -> Result<Items<Items<bool>>, LinkFault>
    requires few { length tables.now.classes < 2 ^ 32 }
    ensures rows { IfOk result (λ rows. rows ≡ rows_of tables.now (length tables.now.classes)) }
    ensures err { IsOkUnless result LinkFault.NoMemory }
{
    let mut rows = first_rows(alloc, tables)?;
    for by in 0..tables.classes.len() {
        rows = next_rows(alloc, tables, by, rows)?;
    }
    Ok(rows)
}

/// Whether one class stands above the other, or is it.
#[tactic(auto, using(crate::proofs::Rows::rows_length, crate::proofs::Rows::rows_at, crate::proofs::Rows::row_length, crate::proofs::Rows::row_at, crate::proofs::Rows::outside_row, crate::proofs::Rows::outside_bit))]
pub fn reaches(tables: &ProgramTables, rows: &[Items<bool>], class: ClassId, above: ClassId) -> bool
    requires rows { rows.now ≡ rows_of tables.now (length tables.now.classes) }
    requires steps { HasSteps tables.now }
    ensures { result ≡ reaches tables.now class above }
{
    if class as usize >= rows.len() {
        return class == above;
    }
    let row = rows[class as usize].as_slice();
    if above as usize >= row.len() {
        return false;
    }
    row[above as usize]
}
