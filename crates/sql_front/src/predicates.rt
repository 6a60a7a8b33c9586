//! The tests of stored queries: period predicates and comparisons, read from the front.

ghost use Rattle.std.specs.Prelude.{◌≡◌, ◌≤◌, length, IfOk};
ghost use Rattle.sql_front.specs.reading.Gives.{Gives};
ghost use Rattle.sql_statements.specs.Lexemes.{lexemes};
ghost use Rattle.sql_front.specs.reading.PredicateReaders.{begins_contains_date, dates_read};
ghost use Rattle.sql_front.specs.reading.PredicateReaders.{period_operand_read, predicate_ahead};
ghost use Rattle.sql_front.specs.reading.PredicateReaders.{predicate_read, relation_after_column};
ghost use Rattle.sql_front.specs.reading.PredicateReaders.{relation_read, relation_word};
ghost use Rattle.sql_front.specs.reading.PredicateReaders.{stored_test_read};
ghost use Rattle.sql_front.specs.reading.Reading.{begins};

use crate::comparisons::{read_column, read_compare};
use crate::conditions::Test;
use crate::leaves::read_date;
use crate::read_error::ReadError;
use crate::terminal::{Terminal, accept, expect, is_terminal, starts, starts_name};
use period_core::Day;
use sql_statements::statement::{PeriodOperand, PeriodPredicate, StoredTest};
use sql_statements::token::Token;
use std::alloc::Global;

/// Two days in parentheses, and the tokens after them.
#[tactic(auto, unfolding(crate::specs::reading::PredicateReaders::dates_read))]
fn read_dates<'a, 'b>(tokens: &'b [Token<'a>]) -> Result<((Day, Day), &'b [Token<'a>]), ReadError>
    ensures value { Gives (λ x. (x.0, lexemes x.1.now)) result (dates_read (lexemes tokens.now)) }
    ensures rest { IfOk result (λ x. length x.1.now ≤ length tokens.now) }
{
    let (from, rest) = match read_date(expect(tokens, Terminal::Symbol("("))?) {
        Ok(read) => read,
        Err(fault) => return Err(fault),
    };
    let (to, rest) = match read_date(expect(rest, Terminal::Symbol(","))?) {
        Ok(read) => read,
        Err(fault) => return Err(fault),
    };
    let rest = expect(rest, Terminal::Symbol(")"))?;
    Ok(((from, to), rest))
}

#[tactic(auto, unfolding(crate::specs::reading::PredicateReaders::period_operand_read))]
fn read_period_operand<'a, 'b>(
    alloc: Global,
    tokens: &'b [Token<'a>],
) -> Result<(PeriodOperand, &'b [Token<'a>]), ReadError>
    ensures value { Gives (λ x. (x.0, lexemes x.1.now)) result
        (period_operand_read (lexemes tokens.now)) }
    ensures rest { IfOk result (λ x. length x.1.now ≤ length tokens.now) }
{
    let Some(dates) = accept(tokens, Terminal::Keyword("PERIOD")) else {
        let (column, rest) = read_column(alloc, tokens)?;
        return Ok((PeriodOperand::Named(column), rest));
    };
    match read_dates(dates) {
        Ok(((from, to), rest)) => Ok((PeriodOperand::Dates(from, to), rest)),
        Err(fault) => Err(fault),
    }
}

#[tactic(auto, unfolding(crate::specs::reading::PredicateReaders::relation_read))]
fn read_relation<'a, 'b>(
    tokens: &'b [Token<'a>],
) -> Result<(PeriodPredicate, &'b [Token<'a>]), ReadError>
    ensures value { Gives (λ x. (x.0, lexemes x.1.now)) result
        (relation_read (lexemes tokens.now)) }
    ensures rest { IfOk result (λ x. length x.1.now ≤ length tokens.now) }
{
    if let Some(rest) = accept(tokens, Terminal::Keyword("OVERLAPS")) {
        return Ok((PeriodPredicate::Overlaps, rest));
    }
    if let Some(rest) = accept(tokens, Terminal::Keyword("EQUALS")) {
        return Ok((PeriodPredicate::Equals, rest));
    }
    if let Some(rest) = accept(tokens, Terminal::Keyword("CONTAINS")) {
        return Ok((PeriodPredicate::Contains, rest));
    }
    if let Some(behind) = accept(tokens, Terminal::Keyword("IMMEDIATELY")) {
        if let Some(rest) = accept(behind, Terminal::Keyword("PRECEDES")) {
            return Ok((PeriodPredicate::ImmediatelyPrecedes, rest));
        }
        let rest = expect(behind, Terminal::Keyword("SUCCEEDS"))?;
        return Ok((PeriodPredicate::ImmediatelySucceeds, rest));
    }
    if let Some(rest) = accept(tokens, Terminal::Keyword("PRECEDES")) {
        return Ok((PeriodPredicate::Precedes, rest));
    }
    let rest = expect(tokens, Terminal::Keyword("SUCCEEDS"))?;
    Ok((PeriodPredicate::Succeeds, rest))
}

/// Do the tokens begin with CONTAINS DATE?
#[tactic(auto, unfolding(crate::specs::reading::PredicateReaders::begins_contains_date))]
fn starts_contains_date(tokens: &[Token<'_>]) -> bool
    ensures { result ≡ begins_contains_date (lexemes tokens.now) }
{
    match tokens {
        [] => false,
        [first, rest @ ..] => {
            is_terminal(first, Terminal::Keyword("CONTAINS"))
                && starts(rest, Terminal::Keyword("DATE"))
        }
    }
}

/// A period predicate, and the tokens after it.
#[tactic(auto, unfolding(crate::specs::reading::PredicateReaders::predicate_read))]
fn read_predicate<'a, 'b>(
    alloc: Global,
    tokens: &'b [Token<'a>],
) -> Result<(StoredTest, &'b [Token<'a>]), ReadError>
    ensures value { Gives (λ x. (x.0, lexemes x.1.now)) result
        (predicate_read (lexemes tokens.now)) }
    ensures rest { IfOk result (λ x. length x.1.now ≤ length tokens.now) }
{
    let (left, rest) = read_period_operand(alloc, tokens)?;
    if starts_contains_date(rest) {
        return match read_date(expect(rest, Terminal::Keyword("CONTAINS"))?) {
            Ok((day, rest)) => Ok((StoredTest::ContainsDay(left, day), rest)),
            Err(fault) => Err(fault),
        };
    }
    let (relation, rest) = read_relation(rest)?;
    let (right, rest) = read_period_operand(alloc, rest)?;
    Ok((StoredTest::Periods(left, relation, right), rest))
}

/// Do the tokens begin with a word of a period predicate?
#[tactic(auto, unfolding(crate::specs::reading::PredicateReaders::relation_word))]
fn starts_relation(tokens: &[Token<'_>]) -> bool
    ensures { result ≡ begins relation_word (lexemes tokens.now) }
{
    starts(tokens, Terminal::Keyword("OVERLAPS"))
        || (starts(tokens, Terminal::Keyword("EQUALS"))
            || (starts(tokens, Terminal::Keyword("CONTAINS"))
                || (starts(tokens, Terminal::Keyword("IMMEDIATELY"))
                    || (starts(tokens, Terminal::Keyword("PRECEDES"))
                        || starts(tokens, Terminal::Keyword("SUCCEEDS"))))))
}

/// Does such a word come after the column that the tokens begin with?
#[tactic(auto, unfolding(crate::specs::reading::PredicateReaders::relation_after_column))]
fn has_relation_after_column(tokens: &[Token<'_>]) -> bool
    ensures { result ≡ relation_after_column (lexemes tokens.now) }
{
    match tokens {
        [] => false,
        [_, rest @ ..] if !starts(rest, Terminal::Symbol(".")) => starts_relation(rest),
        [_, _, _, rest @ ..] => starts_relation(rest),
        _ => false,
    }
}

/// Do the tokens begin as a predicate does, and not as a comparison?
#[tactic(auto, unfolding(crate::specs::reading::PredicateReaders::predicate_ahead))]
fn is_predicate_ahead(tokens: &[Token<'_>]) -> bool
    ensures { result ≡ predicate_ahead (lexemes tokens.now) }
{
    starts(tokens, Terminal::Keyword("PERIOD"))
        || (starts_name(tokens) && has_relation_after_column(tokens))
}

/// A period predicate or a comparison, and the tokens after it.
#[tactic(auto, unfolding(crate::specs::reading::PredicateReaders::stored_test_read))]
pub fn read_stored_test<'a, 'b>(
    alloc: Global,
    tokens: &'b [Token<'a>],
) -> Result<(StoredTest, &'b [Token<'a>]), ReadError>
    ensures value { Gives (λ x. (x.0, lexemes x.1.now)) result
        (stored_test_read (lexemes tokens.now)) }
    ensures rest { IfOk result (λ x. length x.1.now ≤ length tokens.now) }
{
    if is_predicate_ahead(tokens) {
        return read_predicate(alloc, tokens);
    }
    let (compare, rest) = read_compare(alloc, tokens)?;
    Ok((StoredTest::Values(compare), rest))
}

impl Test for StoredTest {
    ghost reader = { stored_test_read };

    fn read<'a, 'b>(
        alloc: Global,
        tokens: &'b [Token<'a>],
    ) -> Result<(Self, &'b [Token<'a>]), ReadError> {
        read_stored_test(alloc, tokens)
    }
}
