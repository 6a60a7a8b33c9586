//! The columns of CREATE TABLE, read from the front.

ghost use Rattle.std.specs.Prelude.{◌≤◌, length, IfOk, codes};
ghost use Rattle.sql_front.specs.reading.ElementReaders.{column_element_read, generated_read};
ghost use Rattle.sql_front.specs.reading.ElementReaders.{length_read, not_null_read, row_end_read};
ghost use Rattle.sql_front.specs.reading.ElementReaders.{timestamp_read, type_read};
ghost use Rattle.sql_front.specs.reading.Gives.{Gives};
ghost use Rattle.sql_front.specs.Language.{keyword};
ghost use Rattle.sql_statements.specs.Lexemes.{lexemes};
ghost use Rattle.sql_front.specs.reading.Reading.{optional_read};

use crate::leaves::{read_name, read_number};
use crate::read_error::ReadError;
use crate::terminal::{Terminal, accept, expect, starts};
use sql_statements::create::{ColumnElement, Generated, TypeName};
use sql_statements::token::Token;
use std::alloc::Global;

// A number in parentheses.
#[tactic(auto, unfolding(crate::specs::reading::ElementReaders::length_read))]
fn read_length<'a, 'b>(tokens: &'b [Token<'a>]) -> Result<(u64, &'b [Token<'a>]), ReadError>
    ensures value { Gives (λ x. (x.0, lexemes x.1.now)) result (length_read (lexemes tokens.now)) }
    ensures rest { IfOk result (λ x. length x.1.now ≤ length tokens.now) }
{
    let (length, rest) = read_number(expect(tokens, Terminal::Symbol("("))?)?;
    Ok((length, expect(rest, Terminal::Symbol(")"))?))
}

// TIMESTAMP with a precision or without.
#[tactic(auto, unfolding(crate::specs::reading::ElementReaders::timestamp_read))]
fn read_timestamp<'a, 'b>(tokens: &'b [Token<'a>]) -> Result<(TypeName, &'b [Token<'a>]), ReadError>
    ensures value { Gives (λ x. (x.0, lexemes x.1.now)) result
        (timestamp_read (lexemes tokens.now)) }
    ensures rest { IfOk result (λ x. length x.1.now ≤ length tokens.now) }
{
    let rest = expect(tokens, Terminal::Keyword("TIMESTAMP"))?;
    if !starts(rest, Terminal::Symbol("(")) {
        return Ok((TypeName::Timestamp(None), rest));
    }
    let (precision, rest) = read_length(rest)?;
    Ok((TypeName::Timestamp(Some(precision)), rest))
}

// A type by its keywords.
#[tactic(auto, unfolding(crate::specs::reading::ElementReaders::type_read))]
fn read_type<'a, 'b>(tokens: &'b [Token<'a>]) -> Result<(TypeName, &'b [Token<'a>]), ReadError>
    ensures value { Gives (λ x. (x.0, lexemes x.1.now)) result (type_read (lexemes tokens.now)) }
    ensures rest { IfOk result (λ x. length x.1.now ≤ length tokens.now) }
{
    if let Some(rest) = accept(tokens, Terminal::Keyword("INTEGER")) {
        return Ok((TypeName::Integer, rest));
    }
    if let Some(rest) = accept(tokens, Terminal::Keyword("DATE")) {
        return Ok((TypeName::Date, rest));
    }
    if let Some(rest) = accept(tokens, Terminal::Keyword("VARCHAR")) {
        let (length, rest) = read_length(rest)?;
        return Ok((TypeName::Varchar(length), rest));
    }
    if let Some(rest) = accept(tokens, Terminal::Keyword("CHARACTER")) {
        let (length, rest) = read_length(expect(rest, Terminal::Keyword("VARYING"))?)?;
        return Ok((TypeName::Varchar(length), rest));
    }
    read_timestamp(tokens)
}

// START or END.
#[tactic(auto, unfolding(crate::specs::reading::ElementReaders::row_end_read))]
fn read_row_end<'a, 'b>(tokens: &'b [Token<'a>]) -> Result<(Generated, &'b [Token<'a>]), ReadError>
    ensures value { Gives (λ x. (x.0, lexemes x.1.now)) result (row_end_read (lexemes tokens.now)) }
    ensures rest { IfOk result (λ x. length x.1.now ≤ length tokens.now) }
{
    if let Some(rest) = accept(tokens, Terminal::Keyword("START")) {
        return Ok((Generated::Start, rest));
    }
    Ok((Generated::End, expect(tokens, Terminal::Keyword("END"))?))
}

// GENERATED ALWAYS AS ROW with the end, or nothing.
#[tactic(auto, unfolding(crate::specs::reading::ElementReaders::generated_read))]
fn read_generated<'a, 'b>(
    tokens: &'b [Token<'a>],
) -> Result<(Option<Generated>, &'b [Token<'a>]), ReadError>
    ensures value { Gives (λ x. (x.0, lexemes x.1.now)) result
        (optional_read (keyword (codes "GENERATED")) generated_read (lexemes tokens.now)) }
    ensures rest { IfOk result (λ x. length x.1.now ≤ length tokens.now) }
{
    let Some(rest) = accept(tokens, Terminal::Keyword("GENERATED")) else {
        return Ok((None, tokens));
    };
    let rest = expect(rest, Terminal::Keyword("ALWAYS"))?;
    let rest = expect(rest, Terminal::Keyword("AS"))?;
    let (generated, rest) = read_row_end(expect(rest, Terminal::Keyword("ROW"))?)?;
    Ok((Some(generated), rest))
}

// NOT NULL or nothing.
#[tactic(auto, unfolding(crate::specs::reading::ElementReaders::not_null_read))]
fn read_not_null<'a, 'b>(
    tokens: &'b [Token<'a>],
) -> Result<(Option<()>, &'b [Token<'a>]), ReadError>
    ensures value { Gives (λ x. (x.0, lexemes x.1.now)) result
        (optional_read (keyword (codes "NOT")) not_null_read (lexemes tokens.now)) }
    ensures rest { IfOk result (λ x. length x.1.now ≤ length tokens.now) }
{
    let Some(rest) = accept(tokens, Terminal::Keyword("NOT")) else {
        return Ok((None, tokens));
    };
    Ok((Some(()), expect(rest, Terminal::Keyword("NULL"))?))
}

/// A column with its type, and the tokens after it. NOT NULL adds nothing: no column holds NULL.
#[tactic(auto, unfolding(crate::specs::reading::ElementReaders::column_element_read))]
pub fn read_column_element<'a, 'b>(
    alloc: Global,
    tokens: &'b [Token<'a>],
) -> Result<(ColumnElement, &'b [Token<'a>]), ReadError>
    ensures value { Gives (λ x. (x.0, lexemes x.1.now)) result
        (column_element_read (lexemes tokens.now)) }
    ensures rest { IfOk result (λ x. length x.1.now ≤ length tokens.now) }
{
    let (name, rest) = read_name(alloc, tokens)?;
    let (kind, rest) = read_type(rest)?;
    let (generated, rest) = read_generated(rest)?;
    let (_not_null, rest) = read_not_null(rest)?;
    let column = ColumnElement {
        name,
        kind,
        generated,
    };
    Ok((column, rest))
}
