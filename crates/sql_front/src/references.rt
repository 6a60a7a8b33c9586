//! Table references and the items of a select list, read from the front.

ghost use Rattle.std.specs.Prelude.{◌≡◌, ◌≤◌, length, IfOk};
ghost use Rattle.sql_front.specs.reading.Gives.{Gives};
ghost use Rattle.sql_statements.specs.Lexemes.{lexemes};
ghost use Rattle.sql_front.specs.reading.Reading.{begins};
ghost use Rattle.sql_statements.specs.declared.statement.SelectItem as items;
ghost use Rattle.sql_front.specs.reading.QueryReaders.{begins_new_name, item_read, new_name_read};
ghost use Rattle.sql_front.specs.reading.QueryReaders.{reference_read};

use crate::comparisons::read_column;
use crate::leaves::read_name;
use crate::list::Item;
use crate::read_error::ReadError;
use crate::terminal::{Terminal, skip_optional, starts, starts_name};
use crate::windows::read_for_window;
use sql_statements::name::Name;
use sql_statements::statement::{SelectItem, TableReference};
use sql_statements::token::Token;
use std::alloc::Global;

/// Does a new name come next, with AS or without?
fn starts_new_name(tokens: &[Token<'_>]) -> bool
    ensures { result ≡ begins begins_new_name (lexemes tokens.now) }
{
    starts(tokens, Terminal::Keyword("AS")) || starts_name(tokens)
}

/// A new name with AS or without, or nothing, and the tokens after it.
#[tactic(auto, unfolding(crate::specs::reading::QueryReaders::new_name_read))]
fn read_new_name<'a, 'b>(
    alloc: Global,
    tokens: &'b [Token<'a>],
) -> Result<(Option<Name>, &'b [Token<'a>]), ReadError>
    ensures value { Gives (λ x. (x.0, lexemes x.1.now)) result
        (new_name_read (lexemes tokens.now)) }
    ensures rest { IfOk result (λ x. length x.1.now ≤ length tokens.now) }
{
    if !starts_new_name(tokens) {
        return Ok((None, tokens));
    }
    let (new_name, rest) = read_name(alloc, skip_optional(tokens, Terminal::Keyword("AS")))?;
    Ok((Some(new_name), rest))
}

/// A table with its window and its new name, and the tokens after it.
#[tactic(auto, unfolding(crate::specs::reading::QueryReaders::reference_read))]
pub fn read_reference<'a, 'b>(
    alloc: Global,
    tokens: &'b [Token<'a>],
) -> Result<(TableReference, &'b [Token<'a>]), ReadError>
    ensures value { Gives (λ x. (x.0, lexemes x.1.now)) result
        (reference_read (lexemes tokens.now)) }
    ensures rest { IfOk result (λ x. length x.1.now ≤ length tokens.now) }
{
    let (table, rest) = read_name(alloc, tokens)?;
    // `?` on moments has no rule while tokens are borrowed
    let (window, rest) = match read_for_window(rest) {
        Ok(read) => read,
        Err(error) => return Err(error),
    };
    let (new_name, rest) = read_new_name(alloc, rest)?;
    Ok((
        TableReference {
            table,
            window,
            new_name,
        },
        rest,
    ))
}

impl<'a> Item<'a> for SelectItem {
    ghost Tree = { items.SelectItem };

    ghost view = { λ i. i };

    ghost reader = { λ depth. item_read };

    #[tactic(auto, unfolding(crate::specs::reading::QueryReaders::item_read))]
    fn read<'b>(
        alloc: Global,
        _depth: usize,
        tokens: &'b [Token<'a>],
    ) -> Result<(Self, &'b [Token<'a>]), ReadError> {
        let (column, rest) = read_column(alloc, tokens)?;
        let (new_name, rest) = read_new_name(alloc, rest)?;
        Ok((SelectItem { column, new_name }, rest))
    }
}
