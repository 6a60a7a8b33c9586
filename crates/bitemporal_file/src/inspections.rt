//! Reports of a store if nothing is run: the list of its tables, or how many versions each has
//! and the sum of its history.

ghost use Rattle.std.specs.Prelude.{◌≡◌, ◌⊎◌, IfErr, IfOk, OnOk, false};
ghost use Rattle.std.specs.Io.KnownBytes.{Appends};
ghost use Rattle.sqlite.specs.Held.{state};
ghost use Rattle.version_store.specs.StoreState.{IsStoreRefusal, IsUsable, SparesOthers};
ghost use Rattle.history_model.specs.Histories.{History};
ghost use Rattle.script_engine.specs.engine.Opens.{RefusesStore};
ghost use Rattle.script_engine.specs.engine.Stored.{DatabaseRepresents, EngineRepresents};
ghost use Rattle.script_engine.specs.engine.Stored.{WasUsable};
ghost use Rattle.bitemporal_file.specs.Inspections.{inspection_in, report_asked};
ghost use Rattle.bitemporal_file.specs.StoreRuns.{IsRefusalFault, LeadsDatabase};

use crate::tables::text_of;
use crate::verification::verified_text;
use command_line::{Request, RunFault};
use period_core::Refusal;
use script_engine::Engine;
use sqlite::{Alter, Connection};
use std::alloc::Global;
use std::io::Write;

/// A report of a store for which nothing is run.
#[derive(Clone, Copy)]
pub(crate) enum Inspection {
    /// The list of its tables.
    Tables,
    /// The number of versions of each table, and the sum of the history.
    Sum,
}

/// The inspection for which a command line asks, if it asks for one.
pub(crate) fn inspection_of(asked: &Request) -> Option<Inspection>
    ensures { result ≡ inspection_in asked.now }
{
    if asked.lists {
        Some(Inspection::Tables)
    } else if asked.verifies {
        Some(Inspection::Sum)
    } else {
        None
    }
}

/// The report of an open store. Nothing is changed.
pub(crate) fn inspected_text<S: Alter>(
    alloc: Global,
    engine: &mut Engine<S>,
    inspection: Inspection,
) -> Result<Vec<u8>, Refusal>
    ensures told { IfOk result (λ text. IsUsable S.Store engine.new.connection
        → (history : History) → EngineRepresents S.Store history engine.old
        → text.items ≡ report_asked inspection history) }
    ensures named { IfErr result IsStoreRefusal }
    ensures same { IsUsable S.Store engine.new.connection
        → (history : History) → EngineRepresents S.Store history engine.old
        → EngineRepresents S.Store history engine.new }
    ensures usable { WasUsable S.Store engine.old.connection engine.new.connection }
    ensures others { SparesOthers S.Store engine.old.connection engine.new.connection }
{
    match inspection {
        Inspection::Tables => text_of(alloc, engine),
        Inspection::Sum => verified_text(alloc, engine),
    }
}

fn inspect<S: Alter, W: Write>(
    alloc: Global,
    engine: &mut Engine<S>,
    inspection: Inspection,
    out: &mut W,
) -> Result<(), RunFault>
    ensures told { OnOk result (IsUsable S.Store engine.new.connection
        → (history : History) → EngineRepresents S.Store history engine.old
        → Appends (W.contents out.old) (W.contents out.new) (report_asked inspection history)) }
    ensures fault { IfErr result (λ fault. (fault ≡ RunFault.Write)
        ⊎ (IsRefusalFault fault × (out.new ≡ out.old))) }
    ensures same { IsUsable S.Store engine.new.connection
        → (history : History) → EngineRepresents S.Store history engine.old
        → EngineRepresents S.Store history engine.new }
    ensures usable { WasUsable S.Store engine.old.connection engine.new.connection }
    ensures others { SparesOthers S.Store engine.old.connection engine.new.connection }
{
    let text = match inspected_text(alloc, engine, inspection) {
        Ok(text) => text,
        Err(refusal) => return Err(RunFault::Script(refusal)),
    };
    match out.write_all(text.as_slice()) {
        Ok(()) => Ok(()),
        Err(_) => Err(RunFault::Write),
    }
}

/// Writes the report of the store of a connection, and changes nothing. Gives the connection back.
/// An `Err` says why the store is not opened: it changes nothing.
pub(crate) fn inspect_store<S: Alter, W: Write>(
    alloc: Global,
    connection: Connection<S>,
    inspection: Inspection,
    out: &mut W,
) -> Result<(Result<(), RunFault>, Connection<S>), (Refusal, Connection<S>)>
    requires { connection.in_transaction ≡ false }
    ensures told { IfOk result (λ ended. OnOk ended.0 (IsUsable S.Store ended.1
        → (history : History) → DatabaseRepresents history (state S.Store connection).now
        → Appends (W.contents out.old) (W.contents out.new) (report_asked inspection history))) }
    ensures fault { IfOk result (λ ended. IfErr ended.0 (λ fault. (fault ≡ RunFault.Write)
        ⊎ (IsRefusalFault fault × (out.new ≡ out.old)))) }
    ensures same { IfOk result (λ ended.
        LeadsDatabase S.Store connection ended.1 (λ history last. last ≡ history)) }
    ensures usable { IfOk result (λ ended. WasUsable S.Store connection ended.1) }
    ensures others { IfOk result (λ ended. SparesOthers S.Store connection ended.1) }
    ensures closed { IfOk result (λ ended. ended.1.in_transaction ≡ false) }
    ensures refused { IfErr result (λ failed.
        RefusesStore S.Store connection failed.0 failed.1 × (out.new ≡ out.old)) }
{
    let mut engine = Engine::open(alloc, connection)?;
    let told = inspect(alloc, &mut engine, inspection, out);
    Ok((told, engine.close_at_exit()))
}
