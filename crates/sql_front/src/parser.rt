//! The statement that tokens spell, or why there is none.

ghost use Rattle.std.specs.Prelude.{IfOk, IfErr, OnOk};
ghost use Rattle.period_core.specs.Leasts.{MayAnswer, NoneApplies};
ghost use Rattle.sql_front.specs.Grammar.{IsStatement};
ghost use Rattle.sql_statements.specs.Lexemes.{lexemes};
ghost use Rattle.sql_front.specs.PieceRefusals.{PieceApplies};
ghost use Rattle.sql_statements.specs.Plain.{plain};

use crate::piece_faults::piece_faults;
use crate::read_error::ReadError;
use crate::statements::spelled;
use period_core::Refusal;
use sql_statements::statement::Statement;
use sql_statements::token::Token;
use std::alloc::Global;

/// The statement that the tokens of a piece of the script spell, all of them. Else the result is
/// the lowest-numbered refusal that applies, of 10 to 14, or out of memory. Each token has its own
/// slice of the script, and nothing else of it is read.
pub fn parse(alloc: Global, _script: &str, tokens: &[Token<'_>]) -> Result<Statement, Refusal>
    // A statement is returned only if the tokens spell it.
    ensures found { IfOk result (λ s. IsStatement (lexemes tokens.now) (plain s)) }

    // A statement is returned only if no refusal applies.
    ensures sound { OnOk result (NoneApplies (PieceApplies (lexemes tokens.now))) }

    // A refusal is the lowest-numbered one that applies, or out of memory.
    ensures refused { IfErr result (MayAnswer (PieceApplies (lexemes tokens.now))) }
{
    let faults = piece_faults(tokens);
    if faults.too_deep {
        return Err(Refusal::TooDeep);
    }
    let literal = faults.literal;
    match spelled(alloc, tokens) {
        Ok(statement) => match literal {
            None => Ok(statement),
            Some(refusal) => {
                // By a call: the proof of an implicit drop walks through each kind of statement.
                drop(statement);
                Err(refusal)
            }
        },
        Err(ReadError::Memory) => Err(Refusal::Memory),
        Err(ReadError::Syntax) => Err(Refusal::Syntax),
    }
}
