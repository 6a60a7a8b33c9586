//! Checks of scripts: the syntax of each statement.

ghost use Rattle.std.specs.Prelude.{◌≡◌, All, IfErr, IfOk, length, map};
ghost use Rattle.std.specs.List.{AllZip};
ghost use Rattle.sql_front.specs.Pieces.{IsWithin, spanned};
ghost use Rattle.sql_front.specs.TokenSpans.{IsInScript, lexemes_at};
ghost use Rattle.script_engine.specs.script.Check.{IsCheckOf, IsPieceCheck};
ghost use Rattle.script_engine.specs.script.Script.{MayRefuseScript};

use crate::script::{script_pieces, statement_of};
use period_core::Refusal;
use sql_front::{Span, TokenSpan};
use std::alloc::Global;

// Whether a piece of a script spells a sound statement, or its refusal.
fn check_piece(alloc: Global, script: &str, piece: &[TokenSpan]) -> Result<(), Refusal>
    requires { All (IsInScript script.now) piece.now }
    ensures { IsPieceCheck (lexemes_at script.now piece.now) result }
{
    match statement_of(alloc, script, piece) {
        Ok(statement) => {
            // By a call: the proof of an implicit drop walks through each kind of statement.
            drop(statement);
            Ok(())
        }
        Err(refusal) => Err(refusal),
    }
}

// The results of the pieces of a script, each judged by itself.
fn check_pieces(
    alloc: Global,
    script: &str,
    tokens: &[TokenSpan],
    pieces: &[Span],
) -> Result<Vec<Result<(), Refusal>>, Refusal>
    requires inside { All (IsInScript script.now) tokens.now }
    requires within { All (IsWithin (length tokens.now)) pieces.now }
    ensures checked { IfOk result
        (λ results. AllZip IsPieceCheck
        (map (spanned (lexemes_at script.now tokens.now)) pieces.now) results.items) }
    ensures memory { IfErr result (λ refusal. refusal ≡ Refusal.Memory) }
{
    let mut results = Vec::with_capacity(alloc, pieces.len())?;
    for piece in pieces {
        let result = check_piece(alloc, script, &tokens[piece.start..piece.end]);
        results.push_reserved(result);
    }
    Ok(results)
}

/// Checks the syntax of each statement of a script, in order: whether it is right, or its refusal;
/// nothing is run. An `Err` is the refusal of the whole script, or out of memory.
pub fn check_script(alloc: Global, script: &[u8]) -> Result<Vec<Result<(), Refusal>>, Refusal>
    ensures check { IfOk result (λ results. IsCheckOf script.now results.items) }
    ensures refused { IfErr result (MayRefuseScript script.now) }
{
    let pieces = script_pieces(alloc, script)?;
    let tokens = pieces.tokens.as_slice();
    let spans = pieces.spans.as_slice();
    check_pieces(alloc, pieces.text, tokens, spans)
}
