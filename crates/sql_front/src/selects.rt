//! SELECT DISTINCT, read from the front.

ghost use Rattle.std.specs.Prelude.{◌≡◌, ◌≤◌, ◌<◌, length, map, IfOk};
ghost use Rattle.sql_front.specs.reading.Gives.{Gives};
ghost use Rattle.sql_statements.specs.Lexemes.{lexemes};
ghost use Rattle.sql_statements.specs.Plain.{plain_chain, plain_condition, plain_join};
ghost use Rattle.sql_statements.specs.Plain.{plain_select};
ghost use Rattle.sql_front.specs.reading.Reading.{begins};
ghost use Rattle.sql_statements.specs.Trees as trees;
ghost use Rattle.sql_front.specs.reading.QueryReaders.{begins_join, chain_read, from_read};
ghost use Rattle.sql_front.specs.reading.QueryReaders.{join_read, joined_read};
ghost use Rattle.sql_front.specs.reading.QueryReaders.{select_read, selected_read};
ghost use Rattle.std.specs.Option.{option_map};

use crate::conditions::{read_condition, read_where};
use crate::list::{Item, listed};
use crate::read_error::ReadError;
use crate::references::read_reference;
use crate::terminal::{Terminal, expect, skip_optional, starts};
use period_core::Items;
use sql_statements::nonempty::NonEmpty;
use sql_statements::statement::{
    Compare, Join, JoinChain, SelectDistinct, SelectItem, TableReference,
};
use sql_statements::token::Token;
use sql_statements::tree::Tree;
use std::alloc::Global;

/// Does a join come next?
fn starts_join(tokens: &[Token<'_>]) -> bool
    ensures { result ≡ begins begins_join (lexemes tokens.now) }
{
    starts(tokens, Terminal::Keyword("INNER")) || starts(tokens, Terminal::Keyword("JOIN"))
}

/// JOIN with a table and ON with a condition, and the tokens after them.
#[tactic(auto, unfolding(crate::specs::reading::QueryReaders::joined_read))]
fn read_joined<'a, 'b>(
    alloc: Global,
    depth: usize,
    tokens: &'b [Token<'a>],
) -> Result<((TableReference, Tree<Compare>), &'b [Token<'a>]), ReadError>
    ensures value { Gives (λ x. ((x.0.0, plain_condition x.0.1), lexemes x.1.now)) result
        (joined_read depth (lexemes tokens.now)) }
    ensures rest { IfOk result (λ x. length x.1.now < length tokens.now) }
{
    let (reference, rest) = read_reference(alloc, expect(tokens, Terminal::Keyword("JOIN"))?)?;
    let rest = expect(rest, Terminal::Keyword("ON"))?;
    let (condition, rest) = read_condition::<Compare>(alloc, depth, rest)?;
    Ok(((reference, condition), rest))
}

/// JOIN of a table with its condition, and the tokens after it.
#[tactic(auto, unfolding(crate::specs::reading::QueryReaders::join_read))]
fn read_join<'a, 'b>(
    alloc: Global,
    depth: usize,
    tokens: &'b [Token<'a>],
) -> Result<(Join, &'b [Token<'a>]), ReadError>
    ensures value { Gives (λ x. (plain_join x.0, lexemes x.1.now)) result
        (join_read depth (lexemes tokens.now)) }
    ensures rest { IfOk result (λ x. length x.1.now < length tokens.now) }
{
    let joined = skip_optional(tokens, Terminal::Keyword("INNER"));
    let ((reference, condition), rest) = read_joined(alloc, depth, joined)?;
    Ok((
        Join {
            reference,
            condition,
        },
        rest,
    ))
}

/// Tables that are joined from left to right, and the tokens after them.
#[tactic(auto, unfolding(crate::specs::reading::QueryReaders::chain_read))]
fn read_chain<'a, 'b>(
    alloc: Global,
    depth: usize,
    tokens: &'b [Token<'a>],
) -> Result<(JoinChain, &'b [Token<'a>]), ReadError>
    ensures value { Gives (λ x. (plain_chain x.0, lexemes x.1.now)) result
        (chain_read depth (lexemes tokens.now)) }
    ensures rest { IfOk result (λ x. length x.1.now ≤ length tokens.now) }
{
    let mut items = Vec::new(alloc);
    let (first, mut rest) = read_reference(alloc, tokens)?;
    'items: while starts_join(rest) {
        let (next, after) = read_join(alloc, depth, rest)?;
        items.push(next)?;
        rest = after;
    }
    Ok((
        JoinChain {
            first,
            joins: Items::from_vec(items),
        },
        rest,
    ))
}

impl<'a> Item<'a> for JoinChain {
    ghost Tree = { trees.JoinChain };

    ghost view = { plain_chain };

    ghost reader = { chain_read };

    fn read<'b>(
        alloc: Global,
        depth: usize,
        tokens: &'b [Token<'a>],
    ) -> Result<(Self, &'b [Token<'a>]), ReadError> {
        read_chain(alloc, depth, tokens)
    }
}

/// FROM with tables and a condition, and the tokens after them. At most `depth` parentheses open
/// in it.
#[tactic(auto, unfolding(crate::specs::reading::QueryReaders::from_read))]
fn read_from<'a, 'b>(
    alloc: Global,
    depth: usize,
    tokens: &'b [Token<'a>],
) -> Result<
    (
        (NonEmpty<JoinChain>, Option<Tree<Compare>>),
        &'b [Token<'a>],
    ),
    ReadError,
>
    ensures value { Gives
        (λ x. ((map plain_chain x.0.0, option_map plain_condition x.0.1), lexemes x.1.now)) result
        (from_read depth (lexemes tokens.now)) }
    ensures rest { IfOk result (λ x. length x.1.now ≤ length tokens.now) }
{
    let rest = expect(tokens, Terminal::Keyword("FROM"))?;
    let (chains, rest) = listed::<JoinChain>(alloc, depth, rest)?;
    let (condition, rest) = read_where::<Compare>(alloc, depth, rest)?;
    Ok(((chains, condition), rest))
}

/// The items, the tables and the condition of a select, and the tokens after them. At most `depth`
/// parentheses open in it.
#[tactic(auto, unfolding(crate::specs::reading::QueryReaders::selected_read))]
fn read_selected<'a, 'b>(
    alloc: Global,
    depth: usize,
    tokens: &'b [Token<'a>],
) -> Result<(SelectDistinct, &'b [Token<'a>]), ReadError>
    ensures value { Gives (λ x. (plain_select x.0, lexemes x.1.now)) result
        (selected_read depth (lexemes tokens.now)) }
    ensures rest { IfOk result (λ x. length x.1.now ≤ length tokens.now) }
{
    let (items, rest) = listed::<SelectItem>(alloc, 0, tokens)?;
    let ((chains, condition), rest) = read_from(alloc, depth, rest)?;
    Ok((
        SelectDistinct {
            items,
            chains,
            condition,
        },
        rest,
    ))
}

/// SELECT DISTINCT with its items, its tables and its condition, and the tokens after it. At most
/// `depth` parentheses open in it.
#[tactic(auto, unfolding(crate::specs::reading::QueryReaders::select_read))]
pub fn read_select<'a, 'b>(
    alloc: Global,
    depth: usize,
    tokens: &'b [Token<'a>],
) -> Result<(SelectDistinct, &'b [Token<'a>]), ReadError>
    ensures value { Gives (λ x. (plain_select x.0, lexemes x.1.now)) result
        (select_read depth (lexemes tokens.now)) }
    ensures rest { IfOk result (λ x. length x.1.now ≤ length tokens.now) }
{
    let rest = expect(tokens, Terminal::Keyword("SELECT"))?;
    let rest = expect(rest, Terminal::Keyword("DISTINCT"))?;
    read_selected(alloc, depth, rest)
}
