//! A select with positions in place of names, and its faults, in one walk.

ghost use Rattle.std.specs.Prelude.{◌≡◌, ◌++◌, ◌+◌, ◌<◌, ◌∷◌, [], List, IfOk, flat_map, length};
ghost use Rattle.std.specs.Prelude.{map};
ghost use Rattle.sql_statements.specs.Plain.{plain_chain, plain_select};
ghost use Rattle.sql_statements.specs.Trees.{simple};
ghost use Rattle.sql_statements.specs.declared.statement.TableReference.{TableReference as Named};
ghost use Rattle.statement_resolution.specs.Faults.{either, faults_among};
ghost use Rattle.statement_resolution.specs.query.Faults.{scoped_faults};
ghost use Rattle.statement_resolution.specs.query.Places.{Converts, scoped_members};
ghost use Rattle.statement_resolution.specs.query.Resolving.{conjunct_parts};
ghost use Rattle.statement_resolution.specs.query.Scopes.{chain_conditions, chain_tables};
ghost use Rattle.statement_resolution.specs.query.Scopes.{conditions_in};
ghost use Rattle.statement_resolution.specs.query.Scopes.{seen_columns, tables_of};

use crate::faults::Faults;
use crate::query::conversion::{convert_items, convert_references, push_members};
use crate::query::references::{names_twice, references_of};
use crate::query::scope::Scope;
use crate::query::seen_column::{SeenColumn, push_columns};
use crate::query::sides::Side;
use catalog_core::resolved::{Query, Select};
use catalog_core::{Catalog, Cond};
use period_core::{Items, Memory};
use sql_statements::{JoinChain, NonEmpty, SelectDistinct};
use std::alloc::Global;

/// Adds the members of the conditions of ON in a chain, each of which sees the tables of the chain
/// up to its own, and their faults; and the columns of its tables, which come after those of
/// the chains before it.
fn push_chain<'a>(
    alloc: Global,
    catalog: &'a Catalog,
    chain: &'a JoinChain,
    columns: &mut Vec<SeenColumn<'a>>,
    conjuncts: &mut Vec<Cond>,
    faults: &mut Faults,
) -> Result<(), Memory>
    ensures seen { IfOk result (λ _. columns.new.items ≡ columns.old.items
        ++ seen_columns catalog.now.tables (chain_tables (plain_chain chain.now))) }
    ensures placed { IfOk result (λ _. (before : List Named)
        → columns.old.items ≡ seen_columns catalog.now.tables before
        → map conjunct_parts conjuncts.new.items ≡ map conjunct_parts conjuncts.old.items
        ++ flat_map (scoped_members catalog.now.tables)
        (chain_conditions before (chain.now.first ∷ []) (plain_chain chain.now).joins)) }
    ensures faults { IfOk result (λ _. faults.new ≡ either faults.old
        (faults_among (scoped_faults catalog.now.tables)
        (chain_conditions [] (chain.now.first ∷ []) (plain_chain chain.now).joins))) }
{
    let start = columns.len();
    push_columns(columns, catalog, &chain.first)?;
    for join in chain.joins.as_slice() {
        push_columns(columns, catalog, &join.reference)?;
        let scope = Scope {
            before: &columns[..start],
            seen: &columns[start..],
        };
        push_members(alloc, &scope, &join.condition, conjuncts, faults)?;
    }
    Ok(())
}

/// The members of all conditions of a select, whose faults are added to those found so far. The
/// columns of its tables are added to none.
fn convert_conjuncts<'a>(
    alloc: Global,
    catalog: &'a Catalog,
    select: &'a SelectDistinct,
    columns: &mut Vec<SeenColumn<'a>>,
    faults: &mut Faults,
) -> Result<Vec<Cond>, Memory>
    requires { columns.old.items ≡ [] }
    ensures seen { IfOk result (λ _. columns.new.items
        ≡ seen_columns catalog.now.tables (tables_of (plain_select select.now))) }
    ensures placed { IfOk result (λ conjuncts. map conjunct_parts conjuncts.items
        ≡ flat_map (scoped_members catalog.now.tables) (conditions_in (plain_select select.now))) }
    ensures faults { IfOk result (λ _. faults.new ≡ either faults.old (faults_among
        (scoped_faults catalog.now.tables) (conditions_in (plain_select select.now)))) }
{
    let mut conjuncts = Vec::new(alloc);
    for chain in select.chains.as_slice() {
        push_chain(alloc, catalog, chain, columns, &mut conjuncts, faults)?;
    }
    if let Some(condition) = &select.condition {
        let scope = Scope {
            before: &[],
            seen: columns.as_slice(),
        };
        push_members(alloc, &scope, condition, &mut conjuncts, faults)?;
    }
    Ok(conjuncts)
}

/// A select by positions. The places of its references count up from this one, which becomes that
/// after the last. Its faults are added to those found so far.
pub fn convert_select(
    alloc: Global,
    catalog: &Catalog,
    select: &SelectDistinct,
    place: &mut usize,
    faults: &mut Faults,
) -> Result<Side, Memory>
    requires { place.old + length (tables_of (plain_select select.now)) < 1_000 }
    ensures { IfOk result (λ side. Converts catalog.now.tables
        (simple (plain_select select.now)) place.old place.new faults.old faults.new side) }
{
    let references = references_of(alloc, select)?;
    *faults = faults.or(Faults {
        twice: names_twice(references.as_slice()),
        ..Faults::none()
    });
    let references = convert_references(alloc, catalog, references.as_slice(), *place, faults)?;
    *place += references.len();
    let mut columns = Vec::new(alloc);
    let conjuncts = convert_conjuncts(alloc, catalog, select, &mut columns, faults)?;
    let scope = Scope {
        before: &[],
        seen: columns.as_slice(),
    };
    let mut kinds = Vec::new(alloc);
    let items = convert_items(alloc, &scope, select.items.as_slice(), &mut kinds, faults)?;
    let query = Query::Select(Select {
        references: NonEmpty::from_vec(references),
        conjuncts: Items::from_vec(conjuncts),
        items: Items::from_vec(items),
    });
    Ok(Side { query, kinds })
}
