//! CREATE TABLE: its refusal, or the definition that it gives.

ghost use Rattle.std.specs.Prelude.{◌≡◌, IfErr, IfOk, OnOk, true};
ghost use Rattle.period_core.specs.Leasts.{MayAnswer, NoneApplies};
ghost use Rattle.catalog_core.specs.create.Creation.{create_conditions, named_conditions};
ghost use Rattle.catalog_core.specs.create.Definition.{Defines};
ghost use Rattle.catalog_core.specs.RefusalConditions.{Holds, first_holding};
ghost use Rattle.catalog_core.specs.table.TableWords.{has_date_period, has_distinct_names};

pub mod builder;
pub mod lawful;
pub mod names;
pub mod period_counts;
pub mod places;
pub mod shape;

use crate::create::builder::{build, declared_columns, declared_references};
use crate::create::names::{
    exceeds_limits, is_ambiguous, is_there, keys_period_column, lacks_name, lacks_parent,
    repeats_name,
};
use crate::create::period_counts::period_counts;
use crate::create::shape::{has_bad_column, placed_fault};
use crate::table::TableDef;
use crate::table::catalog::Catalog;
use period_core::{Memory, Refusal};
use sql_statements::CreateTable;
use std::alloc::Global;

/// The first refusal whose condition holds, of those that names alone decide.
#[tactic(auto, unfolding(crate::specs::create::Creation::lacks_name))]
fn named_fault(
    alloc: Global,
    catalog: &Catalog,
    create: &CreateTable,
) -> Result<Option<Refusal>, Memory>
    ensures { IfOk result
        (λ first. first ≡ first_holding (named_conditions catalog.now.tables create.now)) }
{
    if exceeds_limits(catalog, create) {
        return Ok(Some(Refusal::LimitReached));
    }
    if is_there(catalog, &create.name) {
        return Ok(Some(Refusal::TableExists));
    }
    if lacks_parent(catalog, create) {
        return Ok(Some(Refusal::UnknownTable));
    }
    let counts = period_counts(alloc, create)?;
    if lacks_name(catalog, create, &counts) {
        return Ok(Some(Refusal::UnknownColumn));
    }
    if is_ambiguous(catalog, create) {
        return Ok(Some(Refusal::AmbiguousColumn));
    }
    if repeats_name(create, &counts) {
        return Ok(Some(Refusal::DuplicateName));
    }
    if keys_period_column(create) {
        return Ok(Some(Refusal::PeriodColumn));
    }
    Ok(None)
}

/// The definition that a CREATE gives. An `Err` is the lowest-numbered of the refusals 21 to 30
/// that apply, or out of memory.
pub fn define(alloc: Global, catalog: &Catalog, create: &CreateTable) -> Result<TableDef, Refusal>
    ensures sound { OnOk result
        (NoneApplies (Holds (create_conditions catalog.now.tables create.now))) }
    ensures defined { IfOk result (λ d. Defines catalog.now.tables create.now d) }
    ensures dated { IfOk result (λ d. has_date_period d ≡ true) }
    ensures distinct { IfOk result (λ d. has_distinct_names d ≡ true) }
    ensures refused { IfErr result
        (MayAnswer (Holds (create_conditions catalog.now.tables create.now))) }
{
    let fault = named_fault(alloc, catalog, create)?;
    if let Some(fault) = fault {
        return Err(fault);
    }
    if has_bad_column(create) {
        return Err(Refusal::BadDefinition);
    }
    let columns = declared_columns(alloc, create)?;
    let references = declared_references(alloc, catalog, create)?;
    if let Some(fault) = placed_fault(catalog, create, &columns, &references) {
        return Err(fault);
    }
    Ok(build(alloc, create, columns, references)?)
}
