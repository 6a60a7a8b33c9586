//! Names and literals, read from the front.

ghost use Rattle.std.specs.Prelude.{◌≤◌, ℕ, List, length, IfOk};
ghost use Rattle.period_core.specs.Encoding.{greatest_number};
ghost use Rattle.period_core.specs.declared.value.Value as values;
ghost use Rattle.sql_front.specs.reading.Gives.{Gives};
ghost use Rattle.sql_front.specs.Builders as builders;
ghost use Rattle.sql_front.specs.Language as language;
ghost use Rattle.sql_front.specs.reading.Reading.{built_read, one_read};
ghost use Rattle.sql_statements.specs.Lexemes.{lexemes};
ghost use Rattle.sql_front.specs.reading.Leaves.{clock_moment_read, date_read, literal_read};
ghost use Rattle.sql_front.specs.reading.Leaves.{moment_read, name_read, names_read, number_read};
ghost use Rattle.sql_front.specs.reading.Leaves.{tuple_read, unsigned_read};
ghost use Rattle.sql_front.specs.reading.LeafValues.{day_value};

use crate::date_tokens::{named_clock_moment, named_day, named_moment};
use crate::digits::{negative_value, number_value};
use crate::list::{Item, enclosed};
use crate::read_error::ReadError;
use crate::terminal::{Terminal, accept, expect, name, number, skip_optional, starts_text, text};
use crate::texts::text_of;
use period_core::{Day, Moment, Value};
use sql_statements::clock_moment::ClockMoment;
use sql_statements::name::Name;
use sql_statements::nonempty::NonEmpty;
use sql_statements::token::Token;
use std::alloc::Global;

/// A name, and the tokens after it.
#[tactic(auto, unfolding(crate::specs::reading::Leaves::name_read))]
pub fn read_name<'a, 'b>(
    alloc: Global,
    tokens: &'b [Token<'a>],
) -> Result<(Name, &'b [Token<'a>]), ReadError>
    ensures value { Gives (λ x. (x.0, lexemes x.1.now)) result (name_read (lexemes tokens.now)) }
    ensures rest { IfOk result (λ x. length x.1.now ≤ length tokens.now) }
{
    let (word, rest) = name(tokens)?;
    match Name::of_word(alloc, word) {
        Ok(name) => Ok((name, rest)),
        Err(_) => Err(ReadError::Memory),
    }
}

/// A number, and the tokens after it.
#[tactic(auto, unfolding(crate::specs::reading::Leaves::number_read))]
pub fn read_number<'a, 'b>(tokens: &'b [Token<'a>]) -> Result<(u64, &'b [Token<'a>]), ReadError>
    ensures value { Gives (λ x. (x.0, lexemes x.1.now)) result (number_read (lexemes tokens.now)) }
    ensures fits { IfOk result (λ x. x.0 ≤ greatest_number) }
    ensures rest { IfOk result (λ x. length x.1.now ≤ length tokens.now) }
{
    let (digits, rest) = number(tokens)?;
    Ok((number_value(digits), rest))
}

/// A moment, and the tokens after it.
#[tactic(auto, unfolding(crate::specs::reading::Leaves::moment_read))]
pub fn read_moment<'a, 'b>(tokens: &'b [Token<'a>]) -> Result<(Moment, &'b [Token<'a>]), ReadError>
    ensures value { Gives (λ x. (x.0, lexemes x.1.now)) result (moment_read (lexemes tokens.now)) }
    ensures rest { IfOk result (λ x. length x.1.now ≤ length tokens.now) }
{
    let (token, rest) = text(expect(tokens, Terminal::Keyword("TIMESTAMP"))?)?;
    Ok((named_moment(token), rest))
}

/// A moment before the open end, and the tokens after it.
#[tactic(auto, unfolding(crate::specs::reading::Leaves::clock_moment_read))]
pub fn read_clock_moment<'a, 'b>(
    tokens: &'b [Token<'a>],
) -> Result<(ClockMoment, &'b [Token<'a>]), ReadError>
    ensures value { Gives (λ x. (x.0, lexemes x.1.now)) result
        (clock_moment_read (lexemes tokens.now)) }
    ensures rest { IfOk result (λ x. length x.1.now ≤ length tokens.now) }
{
    let (token, rest) = text(expect(tokens, Terminal::Keyword("TIMESTAMP"))?)?;
    Ok((named_clock_moment(token), rest))
}

/// The day of a text, and the tokens after it.
fn read_day<'a, 'b>(tokens: &'b [Token<'a>]) -> Result<(Day, &'b [Token<'a>]), ReadError>
    ensures value { Gives (λ x. (x.0, lexemes x.1.now)) result
        (built_read day_value (one_read language.text) (lexemes tokens.now)) }
    ensures rest { IfOk result (λ x. length x.1.now ≤ length tokens.now) }
{
    let (token, rest) = text(tokens)?;
    Ok((named_day(token), rest))
}

/// A date, and the tokens after it.
#[tactic(auto, unfolding(crate::specs::reading::Leaves::date_read))]
pub fn read_date<'a, 'b>(tokens: &'b [Token<'a>]) -> Result<(Day, &'b [Token<'a>]), ReadError>
    ensures value { Gives (λ x. (x.0, lexemes x.1.now)) result (date_read (lexemes tokens.now)) }
    ensures rest { IfOk result (λ x. length x.1.now ≤ length tokens.now) }
{
    read_day(expect(tokens, Terminal::Keyword("DATE"))?)
}

/// A number without a minus as a value, and the tokens after it.
#[tactic(auto, unfolding(crate::specs::reading::Leaves::unsigned_read))]
fn read_unsigned<'a, 'b>(tokens: &'b [Token<'a>]) -> Result<(Value, &'b [Token<'a>]), ReadError>
    ensures value { Gives (λ x. (x.0, lexemes x.1.now)) result
        (unsigned_read (lexemes tokens.now)) }
    ensures rest { IfOk result (λ x. length x.1.now ≤ length tokens.now) }
{
    let (value, rest) = read_number(skip_optional(tokens, Terminal::Symbol("+")))?;
    Ok((Value::Int(value as i64), rest))
}

/// A text as a value, and the tokens after it.
fn read_text<'a, 'b>(
    alloc: Global,
    tokens: &'b [Token<'a>],
) -> Result<(Value, &'b [Token<'a>]), ReadError>
    ensures value { Gives (λ x. (x.0, lexemes x.1.now)) result
        (built_read builders.text_of (one_read language.text) (lexemes tokens.now)) }
    ensures rest { IfOk result (λ x. length x.1.now ≤ length tokens.now) }
{
    let (token, rest) = text(tokens)?;
    match text_of(alloc, token) {
        Ok(value) => Ok((Value::Text(value), rest)),
        Err(_) => Err(ReadError::Memory),
    }
}

/// A literal, and the tokens after it.
// Inlined: what it returns is too large for registers, and would be copied for each literal.
#[inline(always)]
#[tactic(auto, unfolding(crate::specs::reading::Leaves::date_read, crate::specs::reading::Leaves::literal_read))]
pub fn read_literal<'a, 'b>(
    alloc: Global,
    tokens: &'b [Token<'a>],
) -> Result<(Value, &'b [Token<'a>]), ReadError>
    ensures value { Gives (λ x. (x.0, lexemes x.1.now)) result (literal_read (lexemes tokens.now)) }
    ensures rest { IfOk result (λ x. length x.1.now ≤ length tokens.now) }
{
    if let Some(rest) = accept(tokens, Terminal::Symbol("-")) {
        let (digits, rest) = number(rest)?;
        return Ok((Value::Int(negative_value(digits)), rest));
    }
    if starts_text(tokens) {
        return read_text(alloc, tokens);
    }
    if let Some(rest) = accept(tokens, Terminal::Keyword("DATE")) {
        return match read_day(rest) {
            Ok((day, rest)) => Ok((Value::Date(day), rest)),
            Err(error) => Err(error),
        };
    }
    read_unsigned(tokens)
}

impl<'a> Item<'a> for Name {
    ghost Tree = { List ℕ };

    ghost view = { λ n. n };

    ghost reader = { λ depth. name_read };

    fn read<'b>(
        alloc: Global,
        _depth: usize,
        tokens: &'b [Token<'a>],
    ) -> Result<(Self, &'b [Token<'a>]), ReadError> {
        read_name(alloc, tokens)
    }
}

impl<'a> Item<'a> for Value {
    ghost Tree = { values.Value };

    ghost view = { λ v. v };

    ghost reader = { λ depth. literal_read };

    #[inline(always)]
    fn read<'b>(
        alloc: Global,
        _depth: usize,
        tokens: &'b [Token<'a>],
    ) -> Result<(Self, &'b [Token<'a>]), ReadError> {
        read_literal(alloc, tokens)
    }
}

/// Names in parentheses with commas, and the tokens after them.
#[tactic(auto, unfolding(crate::specs::reading::Leaves::names_read))]
pub fn read_names<'a, 'b>(
    alloc: Global,
    tokens: &'b [Token<'a>],
) -> Result<(NonEmpty<Name>, &'b [Token<'a>]), ReadError>
    ensures value { Gives (λ x. (x.0, lexemes x.1.now)) result (names_read (lexemes tokens.now)) }
    ensures rest { IfOk result (λ x. length x.1.now ≤ length tokens.now) }
{
    let (names, rest) = enclosed::<Name>(alloc, 0, tokens)?;
    Ok((NonEmpty::from_vec(names), rest))
}

/// Literals in parentheses with commas, and the tokens after them.
#[tactic(auto, unfolding(crate::specs::reading::Leaves::tuple_read))]
pub fn read_tuple<'a, 'b>(
    alloc: Global,
    tokens: &'b [Token<'a>],
) -> Result<(NonEmpty<Value>, &'b [Token<'a>]), ReadError>
    ensures value { Gives (λ x. (x.0, lexemes x.1.now)) result (tuple_read (lexemes tokens.now)) }
    ensures rest { IfOk result (λ x. length x.1.now ≤ length tokens.now) }
{
    let (values, rest) = enclosed::<Value>(alloc, 0, tokens)?;
    Ok((NonEmpty::from_vec(values), rest))
}

impl<'a> Item<'a> for NonEmpty<Value> {
    ghost Tree = { List values.Value };

    ghost view = { λ v. v };

    ghost reader = { λ depth. tuple_read };

    fn read<'b>(
        alloc: Global,
        _depth: usize,
        tokens: &'b [Token<'a>],
    ) -> Result<(Self, &'b [Token<'a>]), ReadError> {
        read_tuple(alloc, tokens)
    }
}
