//! AT, INSERT, UPDATE and DELETE, read from the front.

ghost use Rattle.std.specs.Prelude.{◌≤◌, length, IfOk};
ghost use Rattle.sql_front.specs.reading.ChangeReaders.{assignment_read, at_read, bounds_read};
ghost use Rattle.sql_front.specs.reading.ChangeReaders.{columns_read, delete_read, deleted_read};
ghost use Rattle.sql_front.specs.reading.ChangeReaders.{in_portion_read, insert_read};
ghost use Rattle.sql_front.specs.reading.ChangeReaders.{inserted_read, named_portion_read};
ghost use Rattle.sql_front.specs.reading.ChangeReaders.{portion_read, set_read, update_read};
ghost use Rattle.sql_front.specs.reading.ChangeReaders.{values_read};
ghost use Rattle.sql_front.specs.reading.Gives.{Gives};
ghost use Rattle.sql_statements.specs.Lexemes.{lexemes};
ghost use Rattle.sql_statements.specs.Plain.{plain_condition, plain_delete, plain_update};
ghost use Rattle.std.specs.Option.{option_map};
ghost use Rattle.sql_statements.specs.declared.statement.Assignment as assignments;

use crate::conditions::read_where;
use crate::leaves::{read_clock_moment, read_date, read_literal, read_name, read_names};
use crate::list::{Item, listed};
use crate::read_error::ReadError;
use crate::terminal::{Terminal, expect, starts};
use period_core::{Day, Value};
use sql_statements::clock_moment::ClockMoment;
use sql_statements::name::Name;
use sql_statements::nonempty::NonEmpty;
use sql_statements::statement::{Assignment, Compare, DeleteRows, InsertRows, Portion, UpdateRows};
use sql_statements::token::Token;
use sql_statements::tree::Tree;
use std::alloc::Global;

/// AT with a moment, and the tokens after it.
#[tactic(auto, unfolding(crate::specs::reading::ChangeReaders::at_read))]
pub fn read_at<'a, 'b>(tokens: &'b [Token<'a>]) -> Result<(ClockMoment, &'b [Token<'a>]), ReadError>
    ensures value { Gives (λ x. (x.0, lexemes x.1.now)) result (at_read (lexemes tokens.now)) }
    ensures rest { IfOk result (λ x. length x.1.now ≤ length tokens.now) }
{
    read_clock_moment(expect(tokens, Terminal::Keyword("AT"))?)
}

/// Names of columns in parentheses or nothing, and the tokens after them.
#[tactic(auto, unfolding(crate::specs::reading::ChangeReaders::columns_read))]
fn read_columns<'a, 'b>(
    alloc: Global,
    tokens: &'b [Token<'a>],
) -> Result<(Option<NonEmpty<Name>>, &'b [Token<'a>]), ReadError>
    ensures value { Gives (λ x. (x.0, lexemes x.1.now)) result (columns_read (lexemes tokens.now)) }
    ensures rest { IfOk result (λ x. length x.1.now ≤ length tokens.now) }
{
    if !starts(tokens, Terminal::Symbol("(")) {
        return Ok((None, tokens));
    }
    let (columns, rest) = read_names(alloc, tokens)?;
    Ok((Some(columns), rest))
}

/// VALUES with rows, and the tokens after them.
#[tactic(auto, unfolding(crate::specs::reading::ChangeReaders::values_read))]
fn read_values<'a, 'b>(
    alloc: Global,
    tokens: &'b [Token<'a>],
) -> Result<(NonEmpty<NonEmpty<Value>>, &'b [Token<'a>]), ReadError>
    ensures value { Gives (λ x. (x.0, lexemes x.1.now)) result (values_read (lexemes tokens.now)) }
    ensures rest { IfOk result (λ x. length x.1.now ≤ length tokens.now) }
{
    listed::<NonEmpty<Value>>(alloc, 0, expect(tokens, Terminal::Keyword("VALUES"))?)
}

/// A table with columns and rows, and the tokens after them.
#[tactic(auto, unfolding(crate::specs::reading::ChangeReaders::inserted_read))]
fn read_inserted<'a, 'b>(
    alloc: Global,
    tokens: &'b [Token<'a>],
) -> Result<(InsertRows, &'b [Token<'a>]), ReadError>
    ensures value { Gives (λ x. (x.0, lexemes x.1.now)) result
        (inserted_read (lexemes tokens.now)) }
    ensures rest { IfOk result (λ x. length x.1.now ≤ length tokens.now) }
{
    let (table, rest) = read_name(alloc, tokens)?;
    let (columns, rest) = read_columns(alloc, rest)?;
    let (rows, rest) = read_values(alloc, rest)?;
    Ok((
        InsertRows {
            table,
            columns,
            rows,
        },
        rest,
    ))
}

/// INSERT, and the tokens after it.
#[tactic(auto, unfolding(crate::specs::reading::ChangeReaders::insert_read))]
pub fn read_insert<'a, 'b>(
    alloc: Global,
    tokens: &'b [Token<'a>],
) -> Result<(InsertRows, &'b [Token<'a>]), ReadError>
    ensures value { Gives (λ x. (x.0, lexemes x.1.now)) result (insert_read (lexemes tokens.now)) }
    ensures rest { IfOk result (λ x. length x.1.now ≤ length tokens.now) }
{
    let rest = expect(tokens, Terminal::Keyword("INSERT"))?;
    read_inserted(alloc, expect(rest, Terminal::Keyword("INTO"))?)
}

/// FROM a day TO another, and the tokens after them.
#[tactic(auto, unfolding(crate::specs::reading::ChangeReaders::bounds_read))]
fn read_bounds<'a, 'b>(tokens: &'b [Token<'a>]) -> Result<((Day, Day), &'b [Token<'a>]), ReadError>
    ensures value { Gives (λ x. (x.0, lexemes x.1.now)) result (bounds_read (lexemes tokens.now)) }
    ensures rest { IfOk result (λ x. length x.1.now ≤ length tokens.now) }
{
    let (from, rest) = match read_date(expect(tokens, Terminal::Keyword("FROM"))?) {
        Ok(found) => found,
        Err(error) => return Err(error),
    };
    match read_date(expect(rest, Terminal::Keyword("TO"))?) {
        Ok((to, rest)) => Ok(((from, to), rest)),
        Err(error) => Err(error),
    }
}

/// A period with its bounds, and the tokens after them.
#[tactic(auto, unfolding(crate::specs::reading::ChangeReaders::named_portion_read))]
fn read_named_portion<'a, 'b>(
    alloc: Global,
    tokens: &'b [Token<'a>],
) -> Result<(Portion, &'b [Token<'a>]), ReadError>
    ensures value { Gives (λ x. (x.0, lexemes x.1.now)) result
        (named_portion_read (lexemes tokens.now)) }
    ensures rest { IfOk result (λ x. length x.1.now ≤ length tokens.now) }
{
    let (period, rest) = read_name(alloc, tokens)?;
    match read_bounds(rest) {
        Ok(((from, to), rest)) => Ok((Portion { period, from, to }, rest)),
        Err(error) => Err(error),
    }
}

#[tactic(auto, unfolding(crate::specs::reading::ChangeReaders::in_portion_read))]
fn read_in_portion<'a, 'b>(
    alloc: Global,
    tokens: &'b [Token<'a>],
) -> Result<(Portion, &'b [Token<'a>]), ReadError>
    ensures value { Gives (λ x. (x.0, lexemes x.1.now)) result
        (in_portion_read (lexemes tokens.now)) }
    ensures rest { IfOk result (λ x. length x.1.now ≤ length tokens.now) }
{
    let rest = expect(tokens, Terminal::Keyword("FOR"))?;
    let rest = expect(rest, Terminal::Keyword("PORTION"))?;
    read_named_portion(alloc, expect(rest, Terminal::Keyword("OF"))?)
}

/// FOR PORTION OF a period with its bounds or nothing, and the tokens after them.
#[tactic(auto, unfolding(crate::specs::reading::ChangeReaders::portion_read))]
pub fn read_portion<'a, 'b>(
    alloc: Global,
    tokens: &'b [Token<'a>],
) -> Result<(Option<Portion>, &'b [Token<'a>]), ReadError>
    ensures value { Gives (λ x. (x.0, lexemes x.1.now)) result (portion_read (lexemes tokens.now)) }
    ensures rest { IfOk result (λ x. length x.1.now ≤ length tokens.now) }
{
    if !starts(tokens, Terminal::Keyword("FOR")) {
        return Ok((None, tokens));
    }
    let (portion, rest) = read_in_portion(alloc, tokens)?;
    Ok((Some(portion), rest))
}

impl<'a> Item<'a> for Assignment {
    ghost Tree = { assignments.Assignment };

    ghost view = { λ a. a };

    ghost reader = { λ depth. assignment_read };

    #[tactic(auto, unfolding(crate::specs::reading::ChangeReaders::assignment_read))]
    fn read<'b>(
        alloc: Global,
        _depth: usize,
        tokens: &'b [Token<'a>],
    ) -> Result<(Self, &'b [Token<'a>]), ReadError> {
        let (column, rest) = read_name(alloc, tokens)?;
        let (value, rest) = read_literal(alloc, expect(rest, Terminal::Symbol("="))?)?;
        Ok((Assignment { column, value }, rest))
    }
}

/// SET with assignments and a condition, and the tokens after them. At most `depth` parentheses
/// open in it.
#[tactic(auto, unfolding(crate::specs::reading::ChangeReaders::set_read))]
fn read_set<'a, 'b>(
    alloc: Global,
    depth: usize,
    tokens: &'b [Token<'a>],
) -> Result<
    (
        (NonEmpty<Assignment>, Option<Tree<Compare>>),
        &'b [Token<'a>],
    ),
    ReadError,
>
    ensures value { Gives (λ x. ((x.0.0, option_map plain_condition x.0.1), lexemes x.1.now)) result
        (set_read depth (lexemes tokens.now)) }
    ensures rest { IfOk result (λ x. length x.1.now ≤ length tokens.now) }
{
    let rest = expect(tokens, Terminal::Keyword("SET"))?;
    let (assignments, rest) = listed::<Assignment>(alloc, 0, rest)?;
    let (condition, rest) = read_where::<Compare>(alloc, depth, rest)?;
    Ok(((assignments, condition), rest))
}

/// UPDATE, and the tokens after it. At most `depth` parentheses open in it.
#[tactic(auto, unfolding(crate::specs::reading::ChangeReaders::update_read))]
pub fn read_update<'a, 'b>(
    alloc: Global,
    depth: usize,
    tokens: &'b [Token<'a>],
) -> Result<(UpdateRows, &'b [Token<'a>]), ReadError>
    ensures value { Gives (λ x. (plain_update x.0, lexemes x.1.now)) result
        (update_read depth (lexemes tokens.now)) }
    ensures rest { IfOk result (λ x. length x.1.now ≤ length tokens.now) }
{
    let (table, rest) = read_name(alloc, expect(tokens, Terminal::Keyword("UPDATE"))?)?;
    let (portion, rest) = read_portion(alloc, rest)?;
    let ((assignments, condition), rest) = read_set(alloc, depth, rest)?;
    Ok((
        UpdateRows {
            table,
            portion,
            assignments,
            condition,
        },
        rest,
    ))
}

/// A table with a portion and a condition, and the tokens after them. At most `depth` parentheses
/// open in it.
#[tactic(auto, unfolding(crate::specs::reading::ChangeReaders::deleted_read))]
fn read_deleted<'a, 'b>(
    alloc: Global,
    depth: usize,
    tokens: &'b [Token<'a>],
) -> Result<(DeleteRows, &'b [Token<'a>]), ReadError>
    ensures value { Gives (λ x. (plain_delete x.0, lexemes x.1.now)) result
        (deleted_read depth (lexemes tokens.now)) }
    ensures rest { IfOk result (λ x. length x.1.now ≤ length tokens.now) }
{
    let (table, rest) = read_name(alloc, tokens)?;
    let (portion, rest) = read_portion(alloc, rest)?;
    let (condition, rest) = read_where::<Compare>(alloc, depth, rest)?;
    Ok((
        DeleteRows {
            table,
            portion,
            condition,
        },
        rest,
    ))
}

/// DELETE, and the tokens after it. At most `depth` parentheses open in it.
#[tactic(auto, unfolding(crate::specs::reading::ChangeReaders::delete_read))]
pub fn read_delete<'a, 'b>(
    alloc: Global,
    depth: usize,
    tokens: &'b [Token<'a>],
) -> Result<(DeleteRows, &'b [Token<'a>]), ReadError>
    ensures value { Gives (λ x. (plain_delete x.0, lexemes x.1.now)) result
        (delete_read depth (lexemes tokens.now)) }
    ensures rest { IfOk result (λ x. length x.1.now ≤ length tokens.now) }
{
    let rest = expect(tokens, Terminal::Keyword("DELETE"))?;
    read_deleted(alloc, depth, expect(rest, Terminal::Keyword("FROM"))?)
}
