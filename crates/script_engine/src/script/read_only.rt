//! Results over a store that is only read: queries are answered, and every other statement is
//! refused.

ghost use Rattle.script_engine.specs.script.ReadOnly.{ReadOnlyPieceStep, ReadOnlyPieceStepOver};

use crate::engine::Engine;
use crate::script::piece_result::PieceResult;
use period_core::Refusal;
use sql_statements::Statement;
use sqlite_trees::store::Alter;
use std::alloc::Global;
use std::time::Clock;

/// The result of a piece over a store that is only read. A statement that is no query is refused as
/// over a store that is written, or with 62 if it would be accepted there.
#[derive(Drop)]
pub struct ReadOnly<K> {
    /// The result of the piece.
    pub kept: K,
}

impl<S: Alter, K: PieceResult<S>> PieceResult<S> for ReadOnly<K> {
    ghost is_step = { ReadOnlyPieceStep K.is_step K.of_refusal };

    ghost is_step_over = { ReadOnlyPieceStepOver K.is_step_over K.of_refusal };

    ghost of_refusal = { λ refusal. record { kept = K.of_refusal refusal } };

    fn refused(refusal: Refusal) -> ReadOnly<K> {
        ReadOnly {
            kept: K::refused(refusal),
        }
    }

    fn executed<C: Clock>(
        alloc: Global,
        engine: &mut Engine<S>,
        clock: &C,
        statement: &Statement,
    ) -> ReadOnly<K> {
        match engine.refusal_unwritten(alloc, statement) {
            None => ReadOnly {
                kept: K::executed(alloc, engine, clock, statement),
            },
            Some(refusal) => ReadOnly {
                kept: K::refused(refusal),
            },
        }
    }
}
