//! The lists of rows that the references of one select have to see, and the order in which they are
//! read: of those that see few rows first, so that the others are looked up after them.

ghost use Rattle.std.specs.List.{AllByRecursion};
ghost use Rattle.std.specs.Prelude.{◌≡◌, ◌++◌, ◌<◌, IfOk, List, None, OnOk, Some, length, map};
ghost use Rattle.std.specs.Prelude.{slice_get, true};
ghost use Rattle.period_core.specs.declared.row.PeriodRow.{PeriodRow as Row};
ghost use Rattle.history_model.specs.Histories.{History, catalog_of};
ghost use Rattle.script_engine.specs.engine.Answering.{IsKnown};
ghost use Rattle.script_engine.specs.engine.Needed.{AddNeeded, AreNeeded, AreReadBelow, HavePlaces};
ghost use Rattle.script_engine.specs.engine.Needed.{IsReadIn, ReadOn, starts_from};
ghost use Rattle.script_engine.specs.engine.Stored.{TablesRepresent};

use crate::engine::conditions::Conditions;
use crate::engine::in_memory::TablesInMemory;
use crate::engine::needed_rows::needed_after;
use catalog_core::Cond;
use catalog_core::resolved::QueryReference;
use period_core::{Items, Memory, PeriodRow};
use std::alloc::Global;

/// The references of a select in the order of the text, its conditions, and the position in a
/// combined row at which the values of each reference begin.
#[derive(Clone, Copy)]
pub struct PlacedReferences<'a> {
    /// The conditions.
    pub conjuncts: &'a [Cond],
    /// The references.
    pub references: &'a [QueryReference],
    /// The position of each.
    pub starts: &'a [usize],
}

impl<'a> PlacedReferences<'a> {
    /// The conditions on the rows of the reference in a place.
    fn conditions_of(&self, place: usize) -> Conditions<'a>
        requires references { place < length self.now.references.now }
        requires starts { place < length self.now.starts.now }
        ensures conjuncts { result.conjuncts.now ≡ self.now.conjuncts.now }
        ensures reference { slice_get self.now.references.now place ≡ Some result.reference.now }
        ensures start { slice_get self.now.starts.now place ≡ Some result.start }
        ensures width { result.width ≡ length result.reference.now.kinds }
    {
        let reference = &self.references[place];
        Conditions {
            reference,
            conjuncts: self.conjuncts,
            start: self.starts[place],
            width: reference.kinds.len(),
        }
    }
}

/// Reads the list of the reference in a place, if it is not read yet. Whether that was done: a list
/// of a whole table, if that has many rows, is read only if it is to be read as a `whole`.
fn read_at(
    alloc: Global,
    tables: &mut TablesInMemory,
    select: &PlacedReferences,
    lists: &mut Vec<Option<Items<PeriodRow>>>,
    place: usize,
    whole: bool,
) -> Result<bool, Memory>
    requires places { HavePlaces select.now lists.old.items }
    requires place { place < length select.now.references.now }
    ensures read { OnOk result
        (ReadOn tables.old select.now lists.old.items lists.new.items) }
    ensures there { whole ≡ true → OnOk result (IsReadIn lists.new.items place) }
    ensures same { tables.new ≡ tables.old }
{
    if lists[place].is_some() {
        return Ok(false);
    }
    let conditions = select.conditions_of(place);
    let seen = lists.as_slice();
    let found = needed_after(alloc, tables, &conditions, select.starts, seen, whole)?;
    let Some(rows) = found else {
        return Ok(false);
    };
    lists[place] = Some(Items::from_vec(rows));
    Ok(true)
}

/// Reads one list more, the first that `read_at` reads. Whether there was one.
fn read_next(
    alloc: Global,
    tables: &mut TablesInMemory,
    select: &PlacedReferences,
    lists: &mut Vec<Option<Items<PeriodRow>>>,
    whole: bool,
) -> Result<bool, Memory>
    requires { HavePlaces select.now lists.old.items }
    ensures read { OnOk result
        (ReadOn tables.old select.now lists.old.items lists.new.items) }
    ensures same { tables.new ≡ tables.old }
{
    for place in 0..select.references.len() {
        if read_at(alloc, tables, select, lists, place, whole)? {
            return Ok(true);
        }
    }
    Ok(false)
}

/// Reads one list more, if one is left: the first of a reference that is looked up after a list, or
/// of whose table its conditions leave a part, or whose table is small; or else the first.
fn read_one_more(
    alloc: Global,
    tables: &mut TablesInMemory,
    select: &PlacedReferences,
    lists: &mut Vec<Option<Items<PeriodRow>>>,
) -> Result<(), Memory>
    requires { HavePlaces select.now lists.old.items }
    ensures read { OnOk result
        (ReadOn tables.old select.now lists.old.items lists.new.items) }
    ensures same { tables.new ≡ tables.old }
{
    if read_next(alloc, tables, select, lists, false)? {
        return Ok(());
    }
    read_next(alloc, tables, select, lists, true)?;
    Ok(())
}

/// Reads the lists of a select but for one, which no other waits for.
fn read_first(
    alloc: Global,
    tables: &mut TablesInMemory,
    select: &PlacedReferences,
    lists: &mut Vec<Option<Items<PeriodRow>>>,
) -> Result<(), Memory>
    requires { HavePlaces select.now lists.old.items }
    ensures read { OnOk result
        (ReadOn tables.old select.now lists.old.items lists.new.items) }
    ensures same { tables.new ≡ tables.old }
{
    for _more in 1..select.references.len() {
        read_one_more(alloc, tables, select, lists)?;
    }
    Ok(())
}

/// Reads the lists of a select.
fn read_each(
    alloc: Global,
    tables: &mut TablesInMemory,
    select: &PlacedReferences,
    lists: &mut Vec<Option<Items<PeriodRow>>>,
) -> Result<(), Memory>
    requires { HavePlaces select.now lists.old.items }
    ensures read { OnOk result
        (ReadOn tables.old select.now lists.old.items lists.new.items) }
    ensures all { OnOk result
        (AreReadBelow lists.new.items (length select.now.references.now)) }
    ensures same { tables.new ≡ tables.old }
{
    read_first(alloc, tables, select, lists)?;
    for place in 0..select.references.len() {
        read_at(alloc, tables, select, lists, place, true)?;
    }
    Ok(())
}

/// The position in a combined row at which the values of each of these references begin.
fn starts_of(alloc: Global, references: &[QueryReference]) -> Result<Vec<usize>, Memory>
    ensures { IfOk result (λ starts. starts.items ≡ starts_from 0 references.now) }
{
    let mut starts = Vec::new(alloc);
    let mut start: usize = 0;
    for reference in references {
        starts.push(start)?;
        let Some(next) = start.checked_add(reference.kinds.len()) else {
            return Err(Memory);
        };
        start = next;
    }
    Ok(starts)
}

/// Lists of these references, of which none is read yet.
fn none_read(
    alloc: Global,
    references: &[QueryReference],
) -> Result<Vec<Option<Items<PeriodRow>>>, Memory>
    ensures { IfOk result (λ lists. lists.items ≡ map (λ reference. None) references.now) }
{
    let mut lists = Vec::new(alloc);
    for _reference in references {
        lists.push(None)?;
    }
    Ok(lists)
}

/// Adds lists, all of which are read.
fn push_read(
    read: Vec<Option<Items<PeriodRow>>>,
    lists: &mut Vec<Items<PeriodRow>>,
) -> Result<(), Memory>
    requires { AreReadBelow read.items (length read.items) }
    ensures { OnOk result ((added : List (List Row))
        × (read.items ≡ map Some added) × (lists.new.items ≡ lists.old.items ++ added)) }
{
    for list in read {
        lists.push(list.unwrap())?;
    }
    Ok(())
}

/// Adds to lists what each of the references of a select has to see, in the order of the text.
pub fn push_needed_by_each(
    alloc: Global,
    tables: &mut TablesInMemory,
    conjuncts: &[Cond],
    references: &[QueryReference],
    lists: &mut Vec<Items<PeriodRow>>,
) -> Result<(), Memory>
    ensures needed { (history : History) → TablesRepresent history tables.old
        → AllByRecursion (IsKnown (catalog_of history)) references.now
        → OnOk result (AddNeeded (AreNeeded history conjuncts.now references.now)
        lists.old.items lists.new.items) }
    ensures same { tables.new ≡ tables.old }
{
    let starts = starts_of(alloc, references)?;
    let select = PlacedReferences {
        conjuncts,
        references,
        starts: starts.as_slice(),
    };
    let mut read = none_read(alloc, references)?;
    read_each(alloc, tables, &select, &mut read)?;
    push_read(read, lists)
}
