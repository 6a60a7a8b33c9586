//! Queries, read from the front.

ghost use Rattle.std.specs.Prelude.{◌≡◌, ◌≤◌, ◌<◌, [], Some, length, map, IfOk};
ghost use Rattle.sql_front.specs.Builders.{term_of};
ghost use Rattle.sql_front.specs.reading.Gives.{Gives};
ghost use Rattle.sql_statements.specs.Lexemes.{lexemes};
ghost use Rattle.sql_statements.specs.Plain.{plain_query, plain_select, plain_step, steps_of};
ghost use Rattle.sql_front.specs.reading.Reading.{begins};
ghost use Rattle.sql_statements.specs.Trees as trees;
ghost use Rattle.sql_front.specs.reading.QueryReaders.{begins_set_operator, inner_query_read};
ghost use Rattle.sql_front.specs.reading.QueryReaders.{intersection_read, intersections_read};
ghost use Rattle.sql_front.specs.reading.QueryReaders.{operator_read, primary_read, query_read};
ghost use Rattle.sql_front.specs.reading.QueryReaders.{sequenced_read, step_read, steps_read};
ghost use Rattle.sql_front.specs.reading.QueryReaders.{term_read};

use crate::read_error::ReadError;
use crate::selects::read_select;
use crate::terminal::{Terminal, accept, expect, skip_optional, starts};
use sql_statements::statement::SelectDistinct;
use sql_statements::token::Token;
use sql_statements::tree::{QueryTree, SetOperator};
use std::alloc::Global;

/// Does UNION or EXCEPT come next?
fn starts_set_operator(tokens: &[Token<'_>]) -> bool
    ensures { result ≡ begins begins_set_operator (lexemes tokens.now) }
{
    starts(tokens, Terminal::Keyword("UNION")) || starts(tokens, Terminal::Keyword("EXCEPT"))
}

/// UNION or EXCEPT, and the tokens after it.
#[tactic(auto, unfolding(crate::specs::reading::QueryReaders::operator_read))]
fn read_operator<'a, 'b>(
    tokens: &'b [Token<'a>],
) -> Result<(SetOperator, &'b [Token<'a>]), ReadError>
    ensures value { Gives (λ x. (x.0, lexemes x.1.now)) result
        (operator_read (lexemes tokens.now)) }
    ensures rest { IfOk result (λ x. length x.1.now < length tokens.now) }
{
    if let Some(rest) = accept(tokens, Terminal::Keyword("UNION")) {
        return Ok((SetOperator::Union, rest));
    }
    Ok((
        SetOperator::Except,
        expect(tokens, Terminal::Keyword("EXCEPT"))?,
    ))
}

/// The query that is one select.
#[tactic(auto, using(sql_statements::proofs::QueryViews::simple_view))]
fn one_select(select: SelectDistinct) -> QueryTree<SelectDistinct>
    ensures { plain_query result ≡ trees.simple (plain_select select) }
{
    QueryTree::Select(select)
}

/// The query of the first and of the set operators after it.
#[tactic(auto, using(sql_statements::proofs::QueryViews::combined_view))]
fn combined(
    alloc: Global,
    first: QueryTree<SelectDistinct>,
    steps: Vec<(SetOperator, QueryTree<SelectDistinct>)>,
) -> Result<QueryTree<SelectDistinct>, ReadError>
    ensures { Gives plain_query result
        (Some (trees.combined (plain_query first) (steps_of (map plain_step steps.items)))) }
{
    Ok(QueryTree::Combined(Box::new(alloc, first)?, steps))
}

/// The query of a term: its first part, alone if no intersections come after it.
fn term(
    alloc: Global,
    first: QueryTree<SelectDistinct>,
    steps: Vec<(SetOperator, QueryTree<SelectDistinct>)>,
) -> Result<QueryTree<SelectDistinct>, ReadError>
    ensures { Gives plain_query result
        (Some (term_of (plain_query first, map plain_step steps.items))) }
{
    if steps.is_empty() {
        return Ok(first);
    }
    combined(alloc, first, steps)
}

/// A query, and the tokens after it. At most `depth` parentheses open in it.
#[cycle(queries)]
#[tactic(auto, unfolding(crate::specs::reading::QueryReaders::query_read))]
pub fn read_query<'a, 'b>(
    alloc: Global,
    depth: usize,
    tokens: &'b [Token<'a>],
) -> Result<(QueryTree<SelectDistinct>, &'b [Token<'a>]), ReadError>
    ensures value { Gives (λ x. (plain_query x.0, lexemes x.1.now)) result
        (query_read depth (lexemes tokens.now)) }
    ensures rest { IfOk result (λ x. length x.1.now ≤ length tokens.now) }
{
    let (first, rest) = read_term(alloc, depth, tokens)?;
    match read_steps(alloc, depth, rest) {
        Ok((steps, rest)) => Ok((combined(alloc, first, steps)?, rest)),
        Err(error) => {
            // By a call: the proof of an implicit drop walks through the whole of a query.
            drop(first);
            Err(error)
        }
    }
}

/// No step yet, and the tokens.
fn no_steps<'a, 'b>(
    alloc: Global,
    tokens: &'b [Token<'a>],
) -> (
    Vec<(SetOperator, QueryTree<SelectDistinct>)>,
    &'b [Token<'a>],
)
    ensures none { result.0.items ≡ [] }
    ensures rest { result.1.now ≡ tokens.now }
{
    (Vec::new(alloc), tokens)
}

/// Each UNION or EXCEPT with the term that follows it, or none, and the remaining tokens.
#[cycle(queries)]
fn read_steps<'a, 'b>(
    alloc: Global,
    depth: usize,
    tokens: &'b [Token<'a>],
) -> Result<
    (
        Vec<(SetOperator, QueryTree<SelectDistinct>)>,
        &'b [Token<'a>],
    ),
    ReadError,
>
    ensures value { Gives (λ x. (map plain_step x.0.items, lexemes x.1.now)) result
        (steps_read depth (lexemes tokens.now)) }
    ensures rest { IfOk result (λ x. length x.1.now ≤ length tokens.now) }
{
    let (mut items, mut rest) = no_steps(alloc, tokens);
    'items: while starts_set_operator(rest) {
        let (next, after) = read_step(alloc, depth, rest)?;
        items.push(next)?;
        rest = after;
    }
    Ok((items, rest))
}

/// UNION or EXCEPT with the term that follows it, and the remaining tokens.
#[cycle(queries)]
#[tactic(auto, unfolding(crate::specs::reading::QueryReaders::step_read))]
fn read_step<'a, 'b>(
    alloc: Global,
    depth: usize,
    tokens: &'b [Token<'a>],
) -> Result<((SetOperator, QueryTree<SelectDistinct>), &'b [Token<'a>]), ReadError>
    ensures value { Gives (λ x. (plain_step x.0, lexemes x.1.now)) result
        (step_read depth (lexemes tokens.now)) }
    ensures rest { IfOk result (λ x. length x.1.now < length tokens.now) }
{
    let (operator, rest) = read_operator(tokens)?;
    let term = skip_optional(rest, Terminal::Keyword("DISTINCT"));
    let (next, rest) = read_term(alloc, depth, term)?;
    Ok(((operator, next), rest))
}

/// A term, and the tokens after it: what INTERSECT combines before UNION and EXCEPT do.
#[cycle(queries)]
#[tactic(auto, unfolding(crate::specs::reading::QueryReaders::term_read))]
fn read_term<'a, 'b>(
    alloc: Global,
    depth: usize,
    tokens: &'b [Token<'a>],
) -> Result<(QueryTree<SelectDistinct>, &'b [Token<'a>]), ReadError>
    ensures value { Gives (λ x. (plain_query x.0, lexemes x.1.now)) result
        (term_read depth (lexemes tokens.now)) }
    ensures rest { IfOk result (λ x. length x.1.now ≤ length tokens.now) }
{
    let (first, rest) = read_primary(alloc, depth, tokens)?;
    match read_intersections(alloc, depth, rest) {
        Ok((steps, rest)) => Ok((term(alloc, first, steps)?, rest)),
        Err(error) => {
            // By a call: the proof of an implicit drop walks through the whole of a query.
            drop(first);
            Err(error)
        }
    }
}

/// Each INTERSECT with the select or query in parentheses that follows it, or none, and the
/// remaining tokens.
#[cycle(queries)]
fn read_intersections<'a, 'b>(
    alloc: Global,
    depth: usize,
    tokens: &'b [Token<'a>],
) -> Result<
    (
        Vec<(SetOperator, QueryTree<SelectDistinct>)>,
        &'b [Token<'a>],
    ),
    ReadError,
>
    ensures value { Gives (λ x. (map plain_step x.0.items, lexemes x.1.now)) result
        (intersections_read depth (lexemes tokens.now)) }
    ensures rest { IfOk result (λ x. length x.1.now ≤ length tokens.now) }
{
    let (mut items, mut rest) = no_steps(alloc, tokens);
    'items: while starts(rest, Terminal::Keyword("INTERSECT")) {
        let (next, after) = read_intersection(alloc, depth, rest)?;
        items.push(next)?;
        rest = after;
    }
    Ok((items, rest))
}

/// INTERSECT with the select or query in parentheses that follows it, and the remaining tokens.
#[cycle(queries)]
#[tactic(auto, unfolding(crate::specs::reading::QueryReaders::intersection_read))]
fn read_intersection<'a, 'b>(
    alloc: Global,
    depth: usize,
    tokens: &'b [Token<'a>],
) -> Result<((SetOperator, QueryTree<SelectDistinct>), &'b [Token<'a>]), ReadError>
    ensures value { Gives (λ x. (plain_step x.0, lexemes x.1.now)) result
        (intersection_read depth (lexemes tokens.now)) }
    ensures rest { IfOk result (λ x. length x.1.now < length tokens.now) }
{
    let rest = expect(tokens, Terminal::Keyword("INTERSECT"))?;
    let primary = skip_optional(rest, Terminal::Keyword("DISTINCT"));
    let (next, rest) = read_primary(alloc, depth, primary)?;
    Ok(((SetOperator::Intersect, next), rest))
}

/// A select, or a query in parentheses, and the tokens after it.
#[cycle(queries)]
#[tactic(auto, unfolding(crate::specs::reading::QueryReaders::primary_read))]
fn read_primary<'a, 'b>(
    alloc: Global,
    depth: usize,
    tokens: &'b [Token<'a>],
) -> Result<(QueryTree<SelectDistinct>, &'b [Token<'a>]), ReadError>
    ensures value { Gives (λ x. (plain_query x.0, lexemes x.1.now)) result
        (primary_read depth (lexemes tokens.now)) }
    ensures rest { IfOk result (λ x. length x.1.now ≤ length tokens.now) }
{
    let Some(inside) = accept(tokens, Terminal::Symbol("(")) else {
        let (select, rest) = read_select(alloc, depth, tokens)?;
        return Ok((one_select(select), rest));
    };
    let (inner, rest) = read_inner_query(alloc, depth, inside)?;
    match expect(rest, Terminal::Symbol(")")) {
        Ok(rest) => Ok((inner, rest)),
        Err(error) => {
            // By a call: the proof of an implicit drop walks through the whole of a query.
            drop(inner);
            Err(error)
        }
    }
}

/// A query in parentheses, if `depth` may open, and the tokens after it.
#[cycle(queries)]
#[tactic(auto, using(crate::proofs::QueryViews::inner_views))]
fn read_inner_query<'a, 'b>(
    alloc: Global,
    depth: usize,
    tokens: &'b [Token<'a>],
) -> Result<(QueryTree<SelectDistinct>, &'b [Token<'a>]), ReadError>
    ensures value { Gives (λ x. (plain_query x.0, lexemes x.1.now)) result
        (inner_query_read depth (lexemes tokens.now)) }
    ensures rest { IfOk result (λ x. length x.1.now ≤ length tokens.now) }
{
    if depth == 0 {
        return Err(ReadError::Syntax);
    }
    read_query(alloc, depth - 1, tokens)
}

/// VALIDTIME with a query, and the tokens after it. At most `depth` parentheses open in it.
#[tactic(auto, unfolding(crate::specs::reading::QueryReaders::sequenced_read))]
pub fn read_sequenced<'a, 'b>(
    alloc: Global,
    depth: usize,
    tokens: &'b [Token<'a>],
) -> Result<(QueryTree<SelectDistinct>, &'b [Token<'a>]), ReadError>
    ensures value { Gives (λ x. (plain_query x.0, lexemes x.1.now)) result
        (sequenced_read depth (lexemes tokens.now)) }
    ensures rest { IfOk result (λ x. length x.1.now ≤ length tokens.now) }
{
    read_query(
        alloc,
        depth,
        expect(tokens, Terminal::Keyword("VALIDTIME"))?,
    )
}
