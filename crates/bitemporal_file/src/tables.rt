//! The list of a store's tables: its clock, and of each table how many versions it has, its
//! columns, its periods, its key and its references.

ghost use Rattle.std.specs.Prelude.{◌≡◌, IfErr, IfOk};
ghost use Rattle.version_store.specs.StoreState.{IsStoreRefusal, IsUsable, SparesOthers};
ghost use Rattle.history_model.specs.Histories.{History};
ghost use Rattle.script_engine.specs.engine.Stored.{EngineRepresents, WasUsable};
ghost use Rattle.bitemporal_file.specs.Listing.{AreCountsOf, listing_of};

use crate::listing::{clock_text, push_tables};
use period_core::Refusal;
use script_engine::Engine;
use sqlite::Alter;
use std::alloc::Global;

// The number of versions of each table, in the order of the catalog.
fn counts_of<S: Alter>(alloc: Global, engine: &mut Engine<S>) -> Result<Vec<usize>, Refusal>
    ensures counts { IfOk result (λ counts. IsUsable S.Store engine.new.connection
        → (history : History) → EngineRepresents S.Store history engine.old
        → AreCountsOf history counts.items) }
    ensures named { IfErr result IsStoreRefusal }
    ensures same { IsUsable S.Store engine.new.connection
        → (history : History) → EngineRepresents S.Store history engine.old
        → EngineRepresents S.Store history engine.new }
    ensures usable { WasUsable S.Store engine.old.connection engine.new.connection }
    ensures others { SparesOthers S.Store engine.old.connection engine.new.connection }
{
    let mut counts = Vec::new(alloc);
    for i in 0..engine.catalog().len() {
        let rows = engine.rows(alloc, i as u8 + 1)?;
        counts.push(rows.len())?;
    }
    Ok(counts)
}

/// The list of an open store's tables. Nothing is changed.
pub(crate) fn text_of<S: Alter>(alloc: Global, engine: &mut Engine<S>) -> Result<Vec<u8>, Refusal>
    ensures listed { IfOk result (λ text. IsUsable S.Store engine.new.connection
        → (history : History) → EngineRepresents S.Store history engine.old
        → text.items ≡ listing_of history) }
    ensures named { IfErr result IsStoreRefusal }
    ensures same { IsUsable S.Store engine.new.connection
        → (history : History) → EngineRepresents S.Store history engine.old
        → EngineRepresents S.Store history engine.new }
    ensures usable { WasUsable S.Store engine.old.connection engine.new.connection }
    ensures others { SparesOthers S.Store engine.old.connection engine.new.connection }
{
    let counts = counts_of(alloc, engine)?;
    let mut tables = String::new(alloc);
    push_tables(&mut tables, engine.catalog(), counts.as_slice())?;
    let mut text = clock_text(alloc, engine.clock())?;
    text.extend_from_slice(tables.as_bytes())?;
    Ok(text)
}
