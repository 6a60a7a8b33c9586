//! A statement, read from all of its tokens.

ghost use Rattle.std.specs.Prelude.{◌≡◌, IfOk};
ghost use Rattle.sql_front.specs.declared.read_error.ReadError.TheVariants.{Syntax};
ghost use Rattle.sql_front.specs.Depth.{most_open};
ghost use Rattle.sql_front.specs.reading.Gives.{Gives};
ghost use Rattle.sql_front.specs.Grammar.{Spells};
ghost use Rattle.sql_statements.specs.Lexemes.{lexemes};
ghost use Rattle.sql_front.specs.PieceRefusals.{IsTooDeep, SpellsNone};
ghost use Rattle.sql_statements.specs.Plain.{plain, plain_form};
ghost use Rattle.sql_front.specs.reading.Reading.{whole_read};
ghost use Rattle.sql_front.specs.Placeholders.{placeholders};
ghost use Rattle.sql_front.specs.reading.StatementReaders.{later_statement_read};
ghost use Rattle.sql_front.specs.reading.StatementReaders.{query_statement_read, statement_read};

use crate::changes::{read_at, read_delete, read_insert, read_update};
use crate::depth::MOST_OPEN;
use crate::queries::read_sequenced;
use crate::read_error::ReadError;
use crate::stored::read_stored;
use crate::tables::read_create;
use crate::terminal::{Terminal, starts};
use sql_statements::statement::{Statement, StatementForm};
use sql_statements::token::Token;
use std::alloc::Global;

/// A query by its first keyword, and the tokens after it.
#[tactic(auto, unfolding(crate::specs::reading::StatementReaders::query_statement_read))]
fn read_query_statement<'a, 'b>(
    alloc: Global,
    tokens: &'b [Token<'a>],
) -> Result<(StatementForm, &'b [Token<'a>]), ReadError>
    ensures { Gives (λ x. (plain_form x.0, lexemes x.1.now)) result
        (query_statement_read most_open (lexemes tokens.now)) }
{
    if starts(tokens, Terminal::Keyword("VALIDTIME")) {
        let (query, rest) = read_sequenced(alloc, MOST_OPEN, tokens)?;
        return Ok((StatementForm::Sequenced(query), rest));
    }
    let (query, rest) = read_stored(alloc, MOST_OPEN, tokens)?;
    Ok((StatementForm::Stored(query), rest))
}

/// INSERT, UPDATE, DELETE or a query, and the tokens after it.
#[tactic(auto, unfolding(crate::specs::reading::StatementReaders::later_statement_read))]
fn read_later_statement<'a, 'b>(
    alloc: Global,
    tokens: &'b [Token<'a>],
) -> Result<(StatementForm, &'b [Token<'a>]), ReadError>
    ensures { Gives (λ x. (plain_form x.0, lexemes x.1.now)) result
        (later_statement_read most_open (lexemes tokens.now)) }
{
    if starts(tokens, Terminal::Keyword("INSERT")) {
        let (rows, rest) = read_insert(alloc, tokens)?;
        return Ok((StatementForm::Insert(rows), rest));
    }
    if starts(tokens, Terminal::Keyword("UPDATE")) {
        let (rows, rest) = read_update(alloc, MOST_OPEN, tokens)?;
        return Ok((StatementForm::Update(rows), rest));
    }
    if starts(tokens, Terminal::Keyword("DELETE")) {
        let (rows, rest) = read_delete(alloc, MOST_OPEN, tokens)?;
        return Ok((StatementForm::Delete(rows), rest));
    }
    read_query_statement(alloc, tokens)
}

#[tactic(auto, unfolding(crate::specs::reading::StatementReaders::statement_read))]
fn read_statement<'a, 'b>(
    alloc: Global,
    tokens: &'b [Token<'a>],
) -> Result<(StatementForm, &'b [Token<'a>]), ReadError>
    ensures { Gives (λ x. (plain_form x.0, lexemes x.1.now)) result
        (statement_read most_open (lexemes tokens.now)) }
{
    if starts(tokens, Terminal::Keyword("AT")) {
        return match read_at(tokens) {
            Ok((moment, rest)) => Ok((StatementForm::At(moment), rest)),
            Err(error) => Err(error),
        };
    }
    if starts(tokens, Terminal::Keyword("CREATE")) {
        let (table, rest) = read_create(alloc, tokens)?;
        return Ok((StatementForm::Create(table), rest));
    }
    read_later_statement(alloc, tokens)
}

fn read_all(alloc: Global, tokens: &[Token<'_>]) -> Result<Statement, ReadError>
    ensures { Gives plain result (whole_read (statement_read most_open) (lexemes tokens.now)) }
{
    let (found, rest) = read_statement(alloc, tokens)?;
    if !rest.is_empty() {
        // By a call: the proof of an implicit drop walks through each kind of statement.
        drop(found);
        return Err(ReadError::Syntax);
    }
    Ok(Statement::new(found))
}

/// The statement that the tokens spell, all of them, with at most 32 parentheses open.
pub fn spelled(alloc: Global, tokens: &[Token<'_>]) -> Result<Statement, ReadError>
    // The tokens spell what is read, with a stand-in for a literal that names no value.
    ensures found { IfOk result (λ s. Spells placeholders (lexemes tokens.now) (plain s)) }

    // No statement is spelled so, whatever its literals mean.
    ensures none { result ≡ Err Syntax
        → (IsTooDeep (lexemes tokens.now) → ⊥) → SpellsNone (lexemes tokens.now) }
{
    read_all(alloc, tokens)
}
