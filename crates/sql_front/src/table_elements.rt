//! The periods, keys and references of CREATE TABLE, read from the front.

ghost use Rattle.std.specs.Prelude.{◌≡◌, ◌≤◌, ◌<◌, length, IfOk};
ghost use Rattle.sql_front.specs.reading.ElementReaders.{key_element_read, key_list_read};
ghost use Rattle.sql_front.specs.reading.ElementReaders.{key_names_read, last_period_read};
ghost use Rattle.sql_front.specs.reading.ElementReaders.{leading_names_read, one_more_name};
ghost use Rattle.sql_front.specs.reading.ElementReaders.{pair_read, parent_read};
ghost use Rattle.sql_front.specs.reading.ElementReaders.{period_element_read};
ghost use Rattle.sql_front.specs.reading.ElementReaders.{reference_element_read};
ghost use Rattle.sql_front.specs.reading.ElementReaders.{reference_list_read, split_last};
ghost use Rattle.sql_front.specs.reading.ElementReaders.{system_element_read};
ghost use Rattle.sql_front.specs.reading.ElementReaders.{without_overlaps_read};
ghost use Rattle.sql_front.specs.reading.Gives.{Gives};
ghost use Rattle.sql_statements.specs.Lexemes.{lexemes};

use crate::leaves::read_name;
use crate::list::separated;
use crate::read_error::ReadError;
use crate::terminal::{Terminal, expect, starts, starts_name};
use sql_statements::create::{KeyElement, PeriodElement, ReferenceElement, SystemElement};
use sql_statements::name::Name;
use sql_statements::nonempty::NonEmpty;
use sql_statements::token::Token;
use std::alloc::Global;

// Two names in parentheses.
#[tactic(auto, unfolding(crate::specs::reading::ElementReaders::pair_read))]
fn read_pair<'a, 'b>(
    alloc: Global,
    tokens: &'b [Token<'a>],
) -> Result<((Name, Name), &'b [Token<'a>]), ReadError>
    ensures value { Gives (λ x. (x.0, lexemes x.1.now)) result (pair_read (lexemes tokens.now)) }
    ensures rest { IfOk result (λ x. length x.1.now ≤ length tokens.now) }
{
    let (start, rest) = read_name(alloc, expect(tokens, Terminal::Symbol("("))?)?;
    let (end, rest) = read_name(alloc, expect(rest, Terminal::Symbol(","))?)?;
    Ok(((start, end), expect(rest, Terminal::Symbol(")"))?))
}

/// PERIOD FOR a name with its two columns, and the tokens after it.
#[tactic(auto, unfolding(crate::specs::reading::ElementReaders::period_element_read))]
pub fn read_period_element<'a, 'b>(
    alloc: Global,
    tokens: &'b [Token<'a>],
) -> Result<(PeriodElement, &'b [Token<'a>]), ReadError>
    ensures value { Gives (λ x. (x.0, lexemes x.1.now)) result
        (period_element_read (lexemes tokens.now)) }
    ensures rest { IfOk result (λ x. length x.1.now ≤ length tokens.now) }
{
    let rest = expect(tokens, Terminal::Keyword("PERIOD"))?;
    let rest = expect(rest, Terminal::Keyword("FOR"))?;
    let (name, rest) = read_name(alloc, rest)?;
    let ((start, end), rest) = read_pair(alloc, rest)?;
    Ok((PeriodElement { name, start, end }, rest))
}

/// PERIOD FOR SYSTEM_TIME with its two columns, and the tokens after it.
#[tactic(auto, unfolding(crate::specs::reading::ElementReaders::system_element_read))]
pub fn read_system_element<'a, 'b>(
    alloc: Global,
    tokens: &'b [Token<'a>],
) -> Result<(SystemElement, &'b [Token<'a>]), ReadError>
    ensures value { Gives (λ x. (x.0, lexemes x.1.now)) result
        (system_element_read (lexemes tokens.now)) }
    ensures rest { IfOk result (λ x. length x.1.now ≤ length tokens.now) }
{
    let rest = expect(tokens, Terminal::Keyword("PERIOD"))?;
    let rest = expect(rest, Terminal::Keyword("FOR"))?;
    let rest = expect(rest, Terminal::Keyword("SYSTEM_TIME"))?;
    let ((start, end), rest) = read_pair(alloc, rest)?;
    Ok((SystemElement { start, end }, rest))
}

// The names before the last, and the last. A lone name has none before it.
#[tactic(auto, using(crate::proofs::SplitLast::split_views))]
fn split_off_last(names: Vec<Name>) -> Result<(NonEmpty<Name>, Name), ReadError>
    ensures { Gives (λ x. x) result (split_last names.items) }
{
    let mut names = names;
    let Some(last) = names.pop() else {
        return Err(ReadError::Syntax);
    };
    if names.is_empty() {
        return Err(ReadError::Syntax);
    }
    Ok((NonEmpty::from_vec(names), last))
}

// The names of a key's columns and its period's, which is the last.
#[tactic(auto, unfolding(crate::specs::reading::ElementReaders::all_and_last_read))]
fn read_key_names<'a, 'b>(
    alloc: Global,
    tokens: &'b [Token<'a>],
) -> Result<((NonEmpty<Name>, Name), &'b [Token<'a>]), ReadError>
    ensures value { Gives (λ x. (x.0, lexemes x.1.now)) result
        (key_names_read (lexemes tokens.now)) }
    ensures rest { IfOk result (λ x. length x.1.now ≤ length tokens.now) }
{
    let (names, rest) = separated::<Name>(alloc, 0, tokens)?;
    Ok((split_off_last(names)?, rest))
}

// The tokens after WITHOUT OVERLAPS.
#[tactic(auto, unfolding(crate::specs::reading::ElementReaders::without_overlaps_read))]
fn skip_without_overlaps<'a, 'b>(tokens: &'b [Token<'a>]) -> Result<&'b [Token<'a>], ReadError>
    ensures value { Gives (λ x. (tt, lexemes x.now)) result
        (without_overlaps_read (lexemes tokens.now)) }
    ensures rest { IfOk result (λ x. length x.now ≤ length tokens.now) }
{
    expect(
        expect(tokens, Terminal::Keyword("WITHOUT"))?,
        Terminal::Keyword("OVERLAPS"),
    )
}

// A key's columns and period WITHOUT OVERLAPS, in parentheses.
#[tactic(auto, unfolding(crate::specs::reading::ElementReaders::key_list_read))]
fn read_key_list<'a, 'b>(
    alloc: Global,
    tokens: &'b [Token<'a>],
) -> Result<(KeyElement, &'b [Token<'a>]), ReadError>
    ensures value { Gives (λ x. (x.0, lexemes x.1.now)) result
        (key_list_read (lexemes tokens.now)) }
    ensures rest { IfOk result (λ x. length x.1.now ≤ length tokens.now) }
{
    let inside = expect(tokens, Terminal::Symbol("("))?;
    let ((columns, period), rest) = read_key_names(alloc, inside)?;
    let rest = skip_without_overlaps(rest)?;
    let rest = expect(rest, Terminal::Symbol(")"))?;
    Ok((KeyElement { columns, period }, rest))
}

/// PRIMARY KEY of columns and a period WITHOUT OVERLAPS, and the tokens after it.
#[tactic(auto, unfolding(crate::specs::reading::ElementReaders::key_element_read))]
pub fn read_key_element<'a, 'b>(
    alloc: Global,
    tokens: &'b [Token<'a>],
) -> Result<(KeyElement, &'b [Token<'a>]), ReadError>
    ensures value { Gives (λ x. (x.0, lexemes x.1.now)) result
        (key_element_read (lexemes tokens.now)) }
    ensures rest { IfOk result (λ x. length x.1.now ≤ length tokens.now) }
{
    let rest = expect(tokens, Terminal::Keyword("PRIMARY"))?;
    read_key_list(alloc, expect(rest, Terminal::Keyword("KEY"))?)
}

// Does a name come after a comma? What else may come there is a keyword.
#[tactic(auto, unfolding(crate::specs::reading::ElementReaders::one_more_name))]
fn names_one_more(tokens: &[Token<'_>]) -> bool
    ensures { result ≡ one_more_name (lexemes tokens.now) }
{
    match tokens {
        [] => false,
        [_, rest @ ..] => starts(tokens, Terminal::Symbol(",")) && starts_name(rest),
    }
}

// The names before a comma and a keyword.
fn read_leading_names<'a, 'b>(
    alloc: Global,
    tokens: &'b [Token<'a>],
) -> Result<(NonEmpty<Name>, &'b [Token<'a>]), ReadError>
    ensures value { Gives (λ x. (x.0, lexemes x.1.now)) result
        (leading_names_read (lexemes tokens.now)) }
    ensures rest { IfOk result (λ x. length x.1.now ≤ length tokens.now) }
{
    let mut names = Vec::new(alloc);
    let (first, mut rest) = read_name(alloc, tokens)?;
    names.push(first)?;
    'names: while names_one_more(rest) {
        let (next, after) = read_name(alloc, expect(rest, Terminal::Symbol(","))?)?;
        names.push(next)?;
        rest = after;
    }
    Ok((NonEmpty::from_vec(names), rest))
}

// PERIOD with a name, after a comma.
#[tactic(auto, unfolding(crate::specs::reading::ElementReaders::last_period_read))]
fn read_last_period<'a, 'b>(
    alloc: Global,
    tokens: &'b [Token<'a>],
) -> Result<(Name, &'b [Token<'a>]), ReadError>
    ensures value { Gives (λ x. (x.0, lexemes x.1.now)) result
        (last_period_read (lexemes tokens.now)) }
    ensures rest { IfOk result (λ x. length x.1.now ≤ length tokens.now) }
{
    let rest = expect(tokens, Terminal::Symbol(","))?;
    read_name(alloc, expect(rest, Terminal::Keyword("PERIOD"))?)
}

// Columns and PERIOD with a name, in parentheses.
#[tactic(auto, unfolding(crate::specs::reading::ElementReaders::reference_list_read))]
fn read_reference_list<'a, 'b>(
    alloc: Global,
    tokens: &'b [Token<'a>],
) -> Result<((NonEmpty<Name>, Name), &'b [Token<'a>]), ReadError>
    ensures value { Gives (λ x. (x.0, lexemes x.1.now)) result
        (reference_list_read (lexemes tokens.now)) }
    ensures rest { IfOk result (λ x. length x.1.now ≤ length tokens.now) }
{
    let (columns, rest) = read_leading_names(alloc, expect(tokens, Terminal::Symbol("("))?)?;
    let (period, rest) = read_last_period(alloc, rest)?;
    Ok(((columns, period), expect(rest, Terminal::Symbol(")"))?))
}

// REFERENCES with the parent and its list.
#[tactic(auto, unfolding(crate::specs::reading::ElementReaders::parent_read))]
fn read_parent<'a, 'b>(
    alloc: Global,
    tokens: &'b [Token<'a>],
) -> Result<((Name, (NonEmpty<Name>, Name)), &'b [Token<'a>]), ReadError>
    ensures value { Gives (λ x. (x.0, lexemes x.1.now)) result (parent_read (lexemes tokens.now)) }
    ensures rest { IfOk result (λ x. length x.1.now ≤ length tokens.now) }
{
    let (parent, rest) = read_name(alloc, expect(tokens, Terminal::Keyword("REFERENCES"))?)?;
    let (list, rest) = read_reference_list(alloc, rest)?;
    Ok(((parent, list), rest))
}

/// FOREIGN KEY with the child's list, the parent and its list, and the tokens after it.
#[tactic(auto, unfolding(crate::specs::reading::ElementReaders::reference_element_read))]
pub fn read_reference_element<'a, 'b>(
    alloc: Global,
    tokens: &'b [Token<'a>],
) -> Result<(ReferenceElement, &'b [Token<'a>]), ReadError>
    ensures value { Gives (λ x. (x.0, lexemes x.1.now)) result
        (reference_element_read (lexemes tokens.now)) }
    ensures rest { IfOk result (λ x. length x.1.now ≤ length tokens.now) }
{
    let rest = expect(tokens, Terminal::Keyword("FOREIGN"))?;
    let rest = expect(rest, Terminal::Keyword("KEY"))?;
    let ((columns, period), rest) = read_reference_list(alloc, rest)?;
    let ((parent, (parent_columns, parent_period)), rest) = read_parent(alloc, rest)?;
    let reference = ReferenceElement {
        columns,
        period,
        parent,
        parent_columns,
        parent_period,
    };
    Ok((reference, rest))
}
