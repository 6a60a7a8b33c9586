//! Columns and comparisons, read from the front.

ghost use Rattle.std.specs.Prelude.{◌≤◌, length, IfOk};
ghost use Rattle.sql_front.specs.reading.ConditionReaders.{column_read, comparison_read};
ghost use Rattle.sql_front.specs.reading.ConditionReaders.{compare_read, operand_read};
ghost use Rattle.sql_front.specs.reading.Gives.{Gives};
ghost use Rattle.sql_statements.specs.Lexemes.{lexemes};

use crate::conditions::Test;
use crate::leaves::{read_literal, read_name};
use crate::read_error::ReadError;
use crate::terminal::{Terminal, accept, expect, starts_name};
use sql_statements::statement::{ColumnReference, Compare, Comparison, Operand};
use sql_statements::token::Token;
use std::alloc::Global;

/// A column, and the tokens after it.
#[tactic(auto, unfolding(crate::specs::reading::ConditionReaders::column_read))]
pub fn read_column<'a, 'b>(
    alloc: Global,
    tokens: &'b [Token<'a>],
) -> Result<(ColumnReference, &'b [Token<'a>]), ReadError>
    ensures value { Gives (λ x. (x.0, lexemes x.1.now)) result (column_read (lexemes tokens.now)) }
    ensures rest { IfOk result (λ x. length x.1.now ≤ length tokens.now) }
{
    let (first, rest) = read_name(alloc, tokens)?;
    let Some(behind) = accept(rest, Terminal::Symbol(".")) else {
        let column = ColumnReference {
            qualifier: None,
            name: first,
        };
        return Ok((column, rest));
    };
    let (second, rest) = read_name(alloc, behind)?;
    let column = ColumnReference {
        qualifier: Some(first),
        name: second,
    };
    Ok((column, rest))
}

#[tactic(auto, unfolding(crate::specs::reading::ConditionReaders::operand_read))]
fn read_operand<'a, 'b>(
    alloc: Global,
    tokens: &'b [Token<'a>],
) -> Result<(Operand, &'b [Token<'a>]), ReadError>
    ensures value { Gives (λ x. (x.0, lexemes x.1.now)) result (operand_read (lexemes tokens.now)) }
    ensures rest { IfOk result (λ x. length x.1.now ≤ length tokens.now) }
{
    if starts_name(tokens) {
        let (column, rest) = read_column(alloc, tokens)?;
        return Ok((Operand::Column(column), rest));
    }
    let (literal, rest) = read_literal(alloc, tokens)?;
    Ok((Operand::Literal(literal), rest))
}

#[tactic(auto, unfolding(crate::specs::reading::ConditionReaders::comparison_read))]
fn read_comparison<'a, 'b>(
    tokens: &'b [Token<'a>],
) -> Result<(Comparison, &'b [Token<'a>]), ReadError>
    ensures value { Gives (λ x. (x.0, lexemes x.1.now)) result
        (comparison_read (lexemes tokens.now)) }
    ensures rest { IfOk result (λ x. length x.1.now ≤ length tokens.now) }
{
    if let Some(rest) = accept(tokens, Terminal::Symbol("=")) {
        return Ok((Comparison::Equal, rest));
    }
    if let Some(rest) = accept(tokens, Terminal::Symbol("<>")) {
        return Ok((Comparison::NotEqual, rest));
    }
    if let Some(rest) = accept(tokens, Terminal::Symbol("<")) {
        return Ok((Comparison::Less, rest));
    }
    if let Some(rest) = accept(tokens, Terminal::Symbol("<=")) {
        return Ok((Comparison::LessOrEqual, rest));
    }
    if let Some(rest) = accept(tokens, Terminal::Symbol(">")) {
        return Ok((Comparison::Greater, rest));
    }
    Ok((
        Comparison::GreaterOrEqual,
        expect(tokens, Terminal::Symbol(">="))?,
    ))
}

/// Two operands compared, and the tokens after them.
#[tactic(auto, unfolding(crate::specs::reading::ConditionReaders::compare_read))]
pub fn read_compare<'a, 'b>(
    alloc: Global,
    tokens: &'b [Token<'a>],
) -> Result<(Compare, &'b [Token<'a>]), ReadError>
    ensures value { Gives (λ x. (x.0, lexemes x.1.now)) result (compare_read (lexemes tokens.now)) }
    ensures rest { IfOk result (λ x. length x.1.now ≤ length tokens.now) }
{
    let (left, rest) = read_operand(alloc, tokens)?;
    let (comparison, rest) = read_comparison(rest)?;
    let (right, rest) = read_operand(alloc, rest)?;
    let compare = Compare {
        left,
        comparison,
        right,
    };
    Ok((compare, rest))
}

impl Test for Compare {
    ghost reader = { compare_read };

    fn read<'a, 'b>(
        alloc: Global,
        tokens: &'b [Token<'a>],
    ) -> Result<(Self, &'b [Token<'a>]), ReadError> {
        read_compare(alloc, tokens)
    }
}
