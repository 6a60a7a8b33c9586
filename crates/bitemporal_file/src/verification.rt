//! The verification of a store: how many versions each table has, and the sum of its history.

ghost use Rattle.std.specs.Prelude.{◌≡◌, ◌++◌, ℕ, IfErr, IfOk, List, OnOk, length};
ghost use Rattle.std.specs.List.{zip};
ghost use Rattle.std.specs.String.{string_bytes};
ghost use Rattle.md5.specs.Md5.{Holds};
ghost use Rattle.version_store.specs.StoreState.{IsStoreRefusal, IsUsable, SparesOthers};
ghost use Rattle.history_model.specs.Histories.{History, catalog_of};
ghost use Rattle.history_sums.specs.Sums.{tables_bytes};
ghost use Rattle.script_engine.specs.engine.Stored.{EngineRepresents, WasUsable};
ghost use Rattle.bitemporal_file.specs.Verification.{AlikeAreVerifiedAlike, sum_line};
ghost use Rattle.bitemporal_file.specs.Verification.{verification_of, verified_line};
ghost use Rattle.bitemporal_file.specs.Verification.{verified_lines, version_counts};

use catalog_core::TableDef;
use history_sums::{add_definitions, add_number, add_versions, digits_of};
use md5::{Digest, Md5};
use period_core::Refusal;
use script_engine::Engine;
use sqlite::Alter;
use std::alloc::{AllocError, Global};

fn push_line(text: &mut String, table: &TableDef, versions: usize) -> Result<(), AllocError>
    ensures { OnOk result
        (string_bytes text.new ≡ string_bytes text.old ++ verified_line (table.now, versions)) }
{
    let name = table.name.as_text().as_str();
    write!(text, "verified,{name},{versions}\n")
}

fn push_lines(text: &mut String, tables: &[TableDef], counts: &[usize]) -> Result<(), AllocError>
    ensures { OnOk result
        (string_bytes text.new ≡ string_bytes text.old ++ verified_lines tables.now counts.now) }
{
    for (table, versions) in tables.iter().zip(counts) {
        push_line(text, table, *versions)?;
    }
    Ok(())
}

fn push_sum(text: &mut String, sum: &str) -> Result<(), AllocError>
    ensures { OnOk result (string_bytes text.new ≡ string_bytes text.old ++ sum_line sum.now) }
{
    write!(text, "sum,{sum}\n")
}

// Adds the versions of each table to the sum, one table after the other. Gives how many each has.
fn add_tables<S: Alter>(
    alloc: Global,
    engine: &mut Engine<S>,
    sum: &mut Md5,
) -> Result<Vec<usize>, Refusal>
    ensures counts { IfOk result (λ counts. IsUsable S.Store engine.new.connection
        → (history : History) → EngineRepresents S.Store history engine.old
        → counts.items ≡ version_counts history (length (catalog_of history))) }
    ensures added { OnOk result (IsUsable S.Store engine.new.connection
        → (history : History) → EngineRepresents S.Store history engine.old
        → (bytes : List ℕ) → Holds sum.old bytes
        → Holds sum.new (bytes ++ tables_bytes history (length (catalog_of history)))) }
    ensures named { IfErr result IsStoreRefusal }
    ensures same { IsUsable S.Store engine.new.connection
        → (history : History) → EngineRepresents S.Store history engine.old
        → EngineRepresents S.Store history engine.new }
    ensures usable { WasUsable S.Store engine.old.connection engine.new.connection }
    ensures others { SparesOthers S.Store engine.old.connection engine.new.connection }
{
    let mut counts = Vec::new(alloc);
    for i in 0..engine.catalog().len() {
        let rows = engine.rows(alloc, i as u8 + 1)?;
        counts.push(rows.len())?;
        add_versions(alloc, sum, rows)?;
    }
    Ok(counts)
}

/// The report of an open store that is verified. Nothing is changed.
pub(crate) fn verified_text<S: Alter>(
    alloc: Global,
    engine: &mut Engine<S>,
) -> Result<Vec<u8>, Refusal>
    ensures verified { IfOk result (λ text. IsUsable S.Store engine.new.connection
        → (history : History) → EngineRepresents S.Store history engine.old
        → text.items ≡ verification_of history) }
    ensures named { IfErr result IsStoreRefusal }
    ensures same { IsUsable S.Store engine.new.connection
        → (history : History) → EngineRepresents S.Store history engine.old
        → EngineRepresents S.Store history engine.new }
    ensures usable { WasUsable S.Store engine.old.connection engine.new.connection }
    ensures others { SparesOthers S.Store engine.old.connection engine.new.connection }
{
    let mut sum = Md5::new();
    add_number(&mut sum, engine.clock().number());
    add_definitions(alloc, &mut sum, engine.catalog().tables.as_slice())?;
    let counts = add_tables(alloc, engine, &mut sum)?;
    let digits = digits_of(alloc, sum)?;
    let mut text = String::new(alloc);
    push_lines(
        &mut text,
        engine.catalog().tables.as_slice(),
        counts.as_slice(),
    )?;
    push_sum(&mut text, digits.as_str())?;
    Ok(text.into_bytes())
}

/// Histories that have the same clock, the same definitions and the same versions, in whatever
/// order, have one report.
pub fn alike_are_verified_alike()
    ensures { AlikeAreVerifiedAlike }
{}
