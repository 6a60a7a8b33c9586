//! The tables in memory, loaded from what was read of a store as it was opened.

ghost use Rattle.std.specs.Prelude.{◌≡◌, ◌⊎◌, ℕ, [], IfErr, IfOk, IfSome, IsPermutation, List};
ghost use Rattle.std.specs.Prelude.{None, OnErr, OnOk, filter, length, map};
ghost use Rattle.ended_versions.specs.Packed.{AreEndedBy, Hold};
ghost use Rattle.period_core.specs.declared.refusal.Refusal.TheVariants.{BadStore};
ghost use Rattle.period_core.specs.declared.refusal.Refusal.TheVariants.{Memory as OutOfMemory};
ghost use Rattle.period_core.specs.declared.version.VersionRow.{VersionRow as Version};
ghost use Rattle.period_keys.specs.Current.{rows_by_key};
ghost use Rattle.period_keys.specs.Lawful.{key_positions};
ghost use Rattle.version_store.specs.Contents.{Contents, rows_of_table};
ghost use Rattle.version_store.specs.GoodStore.{AreGood, AreLawful, NoExtraCondition};
ghost use Rattle.version_store.specs.StoreState.{IsOpenRefusal, IsStoreRefusal};
ghost use Rattle.script_engine.specs.engine.Ended.{AllEndedBy, AreInOrderOfEnds, HaveEnded};
ghost use Rattle.script_engine.specs.engine.Ended.{SomeEndedAfter, has_ended, is_current};
ghost use Rattle.script_engine.specs.engine.Faults.{AreConstrained};
ghost use Rattle.script_engine.specs.engine.InMemory.{AreReadOf, FollowCatalog, HaveCurrentRows};

use crate::engine::in_memory::TablesInMemory;
use catalog_core::{Catalog, TableDef, of_number_mut};
use ended_versions::EndedVersions;
use period_core::{Items, Memory, Moment, Refusal, VersionRow};
use period_keys::{CurrentRows, is_lawful, positions_of, tables_of};
use std::alloc::Global;
use std::mem;

/// No rows of a table, by its key.
fn no_rows(alloc: Global, table: &TableDef) -> Result<CurrentRows, Memory>
    ensures keys { IfOk result (λ rows. rows.positions ≡ key_positions table.now) }
    ensures none { IfOk result (λ rows. rows.rows ≡ []) }
{
    let positions = positions_of(alloc, table, table.key.as_slice())?;
    Ok(CurrentRows::new(alloc, Items::from_vec(positions)))
}

/// The versions in two lists: the current ones, and those that have ended.
fn split_by_end(
    alloc: Global,
    versions: Vec<VersionRow>,
) -> Result<(Vec<VersionRow>, Vec<VersionRow>), Memory>
    ensures current { IfOk result (λ found. found.0.items ≡ filter is_current versions.items) }
    ensures ended { IfOk result (λ found. found.1.items ≡ filter has_ended versions.items) }
{
    let forever = Moment::forever();
    let mut current: Vec<VersionRow> = Vec::new(alloc);
    let mut ended: Vec<VersionRow> = Vec::new(alloc);
    for version in versions {
        if version.to == forever {
            current.push(version)?;
        } else {
            ended.push(version)?;
        }
    }
    Ok((current, ended))
}

/// The versions in the order in which they ended.
fn in_order_of_ends(mut versions: Vec<VersionRow>) -> Result<Vec<VersionRow>, Memory>
    ensures ended { IfOk result (λ ended. IsPermutation versions.items ended.items) }
    ensures ordered { IfOk result (λ ended. AreInOrderOfEnds ended.items) }
{
    versions.sort_by_key(|version| version.to)?;
    Ok(versions)
}

/// The list, which has none yet, of versions that have ended, if all did so by a moment.
fn load_ended(
    alloc: Global,
    mut list: EndedVersions,
    versions: Vec<VersionRow>,
    moment: Moment,
) -> Result<Option<EndedVersions>, Memory>
    requires { list ≡ [] }
    ensures held { IfOk result (λ found. IfSome found (λ list. (ended : List Version)
        × Hold list ended × IsPermutation versions.items ended)) }
    ensures before { IfOk result (λ found. IfSome found (AreEndedBy moment)) }
    ensures none { IfOk result (λ found. found ≡ None → SomeEndedAfter moment versions.items) }
{
    let ended = in_order_of_ends(versions)?;
    for version in &ended {
        if version.to > moment {
            return Ok(None);
        }
        list.add(alloc, version, version.to)?;
    }
    Ok(Some(list))
}

/// The versions of a table: the current ones by its key, and those that have ended. One that ended
/// after the clock, which a good store has not, is a failure of the store.
fn load_table(
    alloc: Global,
    table: &TableDef,
    clock: Moment,
    versions: Items<VersionRow>,
) -> Result<(CurrentRows, EndedVersions), Refusal>
    ensures keys { IfOk result (λ found. found.0.positions ≡ key_positions table.now) }
    ensures current { IfOk result
        (λ found. IsPermutation (filter is_current versions) found.0.rows) }
    ensures ended { IfOk result (λ found. (ended : List Version)
        × Hold found.1 ended × IsPermutation (filter has_ended versions) ended) }
    ensures before { IfOk result (λ found. AreEndedBy clock found.1) }
    ensures why { IfErr result (λ refusal. (refusal ≡ OutOfMemory)
        ⊎ SomeEndedAfter clock (filter has_ended versions)) }
    ensures named { IfErr result IsStoreRefusal }
{
    let mut rows = no_rows(alloc, table)?;
    let none = EndedVersions::new(alloc);
    let (current, ended) = split_by_end(alloc, versions.into_vec())?;
    rows.add_each(alloc, current)?;
    let found = load_ended(alloc, none, ended, clock)?;
    match found {
        Some(list) => Ok((rows, list)),
        None => Err(Refusal::Store),
    }
}

/// Takes the rows of the table of a number out of the lists.
fn take_rows(alloc: Global, lists: &mut Vec<Items<VersionRow>>, number: u8) -> Items<VersionRow>
    ensures taken { result ≡ rows_of_table lists.old.items number }
    ensures others { (other : ℕ) → (other ≡ number → ⊥)
        → rows_of_table lists.new.items other ≡ rows_of_table lists.old.items other }
{
    let Some(list) = of_number_mut(lists, number) else {
        return Items::empty(alloc);
    };
    mem::replace(list, Items::empty(alloc))
}

/// The versions of each table of a catalog, in its order, by the lists that were read of a store:
/// the current ones, and those that have ended by the clock. Without tables nothing is refused.
fn load(
    alloc: Global,
    catalog: &Catalog,
    clock: Moment,
    mut lists: Vec<Items<VersionRow>>,
) -> Result<(Vec<CurrentRows>, Vec<EndedVersions>), Refusal>
    ensures current { (c : Contents) → AreReadOf c catalog.now.tables lists.items
        → IfOk result (λ found. HaveCurrentRows c found.0.items) }
    ensures ended { (c : Contents) → AreReadOf c catalog.now.tables lists.items
        → IfOk result (λ found. HaveEnded c found.1.items) }
    ensures before { IfOk result (λ found. AllEndedBy clock found.1.items) }
    ensures why { (c : Contents) → AreReadOf c catalog.now.tables lists.items
        → AreGood NoExtraCondition c → c.clock ≡ clock
        → IfErr result (λ refusal. refusal ≡ OutOfMemory) }
    ensures count { IfOk result
        (λ found. length found.0.items ≡ length catalog.now.tables) }
    ensures ended_count { IfOk result
        (λ found. length found.1.items ≡ length catalog.now.tables) }
    ensures some { OnErr result (catalog.now.tables ≡ [] → ⊥) }
    ensures named { IfErr result IsStoreRefusal }
{
    let mut tables = Vec::new(alloc);
    let mut ended = Vec::new(alloc);
    for place in 0..catalog.len() {
        let versions = take_rows(alloc, &mut lists, place as u8 + 1);
        let table = &catalog.tables.as_slice()[place];
        let (rows, list) = load_table(alloc, table, clock, versions)?;
        tables.push(rows)?;
        ended.push(list)?;
    }
    Ok((tables, ended))
}

/// The tables of a catalog with their current rows, and the versions of each that have ended, by
/// the lists that were read of a store. If two current rows share a key on some day, or a child
/// row has no parent, the store is refused as a bad one. A store without tables is not refused.
pub fn load_lawful(
    alloc: Global,
    catalog: &Catalog,
    clock: Moment,
    lists: Vec<Items<VersionRow>>,
) -> Result<TablesInMemory, Refusal>
    requires { AreLawful [] catalog.now.tables }
    ensures follow { IfOk result (λ found. FollowCatalog catalog.now.tables found.current) }
    ensures loaded { (c : Contents) → AreReadOf c catalog.now.tables lists.items
        → IfOk result (λ found. HaveCurrentRows c (map rows_by_key found.current)) }
    ensures ended { (c : Contents) → AreReadOf c catalog.now.tables lists.items
        → IfOk result (λ found. HaveEnded c found.ended) }
    ensures before { IfOk result (λ found. AllEndedBy clock found.ended) }
    ensures lawful { (c : Contents) → AreReadOf c catalog.now.tables lists.items
        → OnOk result (AreConstrained c) }
    ensures bad { (c : Contents) → AreReadOf c catalog.now.tables lists.items
        → IfErr result (λ refusal. refusal ≡ BadStore → AreConstrained c → ⊥) }
    ensures some { OnErr result (catalog.now.tables ≡ [] → ⊥) }
    ensures why { (c : Contents) → AreReadOf c catalog.now.tables lists.items
        → AreGood AreConstrained c → c.clock ≡ clock
        → IfErr result (λ refusal. refusal ≡ OutOfMemory) }
    ensures named { IfErr result IsOpenRefusal }
{
    let (rows, ended) = load(alloc, catalog, clock, lists)?;
    if rows.is_empty() {
        let current = Vec::new(alloc);
        return Ok(TablesInMemory { current, ended });
    }
    let current = tables_of(alloc, catalog, rows)?;
    let lawful = is_lawful(alloc, catalog, current.as_slice())?;
    if !lawful {
        return Err(Refusal::BadStore);
    }
    Ok(TablesInMemory { current, ended })
}
