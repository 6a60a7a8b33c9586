//! CREATE TABLE, read from the front.

ghost use Rattle.std.specs.Prelude.{◌≡◌, ◌≤◌, ◌<◌, Some, length, map, IfOk, OnOk};
ghost use Rattle.sql_front.specs.reading.ElementReaders.{create_read, element_read, elements_read};
ghost use Rattle.sql_front.specs.reading.ElementReaders.{some_period_read, created_table_read};
ghost use Rattle.sql_front.specs.reading.ElementReaders.{versioning_read};
ghost use Rattle.sql_front.specs.reading.Gives.{Gives};
ghost use Rattle.sql_front.specs.Builders.{Element, table_of};
ghost use Rattle.sql_statements.specs.Lexemes.{lexemes};
ghost use Rattle.sql_front.specs.PlainElements.{plain_element, with_element};

use crate::column_elements::read_column_element;
use crate::leaves::read_name;
use crate::list::{Item, enclosed};
use crate::read_error::ReadError;
use crate::table_elements::{
    read_key_element, read_period_element, read_reference_element, read_system_element,
};
use crate::terminal::{Terminal, expect, starts, starts_name, third_is};
use period_core::{Items, Memory};
use sql_statements::create::{
    ColumnElement, CreateStatement, CreateTable, KeyElement, PeriodElement, ReferenceElement,
    SystemElement,
};
use sql_statements::name::Name;
use sql_statements::token::Token;
use std::alloc::Global;

/// An element of any kind.
#[derive(Drop)]
enum TableElement {
    Column(ColumnElement),
    Period(PeriodElement),
    System(SystemElement),
    Key(KeyElement),
    Reference(ReferenceElement),
}

// Periods of both kinds begin alike: the third token decides whether the period is a system period.
#[tactic(auto, unfolding(crate::specs::reading::ElementReaders::some_period_read))]
fn read_some_period<'a, 'b>(
    alloc: Global,
    tokens: &'b [Token<'a>],
) -> Result<(TableElement, &'b [Token<'a>]), ReadError>
    ensures value { Gives (λ x. (plain_element x.0, lexemes x.1.now)) result
        (some_period_read (lexemes tokens.now)) }
    ensures rest { IfOk result (λ x. length x.1.now ≤ length tokens.now) }
{
    if third_is(tokens, Terminal::Keyword("SYSTEM_TIME")) {
        let (period, rest) = read_system_element(alloc, tokens)?;
        return Ok((TableElement::System(period), rest));
    }
    let (period, rest) = read_period_element(alloc, tokens)?;
    Ok((TableElement::Period(period), rest))
}

// An element of any kind: the first token decides.
#[tactic(auto, unfolding(crate::specs::reading::ElementReaders::element_read))]
fn read_element<'a, 'b>(
    alloc: Global,
    tokens: &'b [Token<'a>],
) -> Result<(TableElement, &'b [Token<'a>]), ReadError>
    ensures value { Gives (λ x. (plain_element x.0, lexemes x.1.now)) result
        (element_read (lexemes tokens.now)) }
    ensures rest { IfOk result (λ x. length x.1.now ≤ length tokens.now) }
{
    if starts_name(tokens) {
        let (column, rest) = read_column_element(alloc, tokens)?;
        return Ok((TableElement::Column(column), rest));
    }
    if starts(tokens, Terminal::Keyword("PERIOD")) {
        return read_some_period(alloc, tokens);
    }
    if starts(tokens, Terminal::Keyword("PRIMARY")) {
        let (key, rest) = read_key_element(alloc, tokens)?;
        return Ok((TableElement::Key(key), rest));
    }
    let (reference, rest) = read_reference_element(alloc, tokens)?;
    Ok((TableElement::Reference(reference), rest))
}

impl<'a> Item<'a> for TableElement {
    ghost Tree = { Element };

    ghost view = { plain_element };

    ghost reader = { λ depth. element_read };

    fn read<'b>(
        alloc: Global,
        _depth: usize,
        tokens: &'b [Token<'a>],
    ) -> Result<(Self, &'b [Token<'a>]), ReadError> {
        read_element(alloc, tokens)
    }
}

// The elements in their parentheses.
#[tactic(auto, unfolding(crate::specs::reading::ElementReaders::elements_read))]
fn read_elements<'a, 'b>(
    alloc: Global,
    tokens: &'b [Token<'a>],
) -> Result<(Vec<TableElement>, &'b [Token<'a>]), ReadError>
    ensures value { Gives (λ x. (map plain_element x.0.items, lexemes x.1.now)) result
        (elements_read (lexemes tokens.now)) }
    ensures rest { IfOk result (λ x. length x.1.now ≤ length tokens.now) }
    ensures filled { IfOk result (λ x. 0 < length x.0.items) }
{
    enclosed::<TableElement>(alloc, 0, tokens)
}

// The table with one more element, which is the last of its kind.
fn add_element(table: &mut CreateTable, element: TableElement) -> Result<(), Memory>
    ensures { OnOk result (table.new ≡ with_element table.old (plain_element element)) }
{
    match element {
        TableElement::Column(column) => table.columns.push(column),
        TableElement::Period(period) => table.periods.push(period),
        TableElement::System(period) => table.system_periods.push(period),
        TableElement::Key(key) => table.keys.push(key),
        TableElement::Reference(reference) => table.references.push(reference),
    }
}

// The table with these elements, each kind in its order.
fn table_with(
    alloc: Global,
    name: Name,
    elements: Vec<TableElement>,
) -> Result<CreateStatement, ReadError>
    requires { 0 < length elements.items }
    ensures { Gives (λ t. t) result
        (Some (table_of (name, (map plain_element elements.items, tt)))) }
{
    let mut table = CreateTable {
        name,
        columns: Items::empty(alloc),
        periods: Items::empty(alloc),
        system_periods: Items::empty(alloc),
        keys: Items::empty(alloc),
        references: Items::empty(alloc),
    };
    for element in elements {
        if add_element(&mut table, element).is_err() {
            return Err(ReadError::Memory);
        }
    }
    Ok(CreateStatement::new(table))
}

// The tokens after WITH SYSTEM VERSIONING.
#[tactic(auto, unfolding(crate::specs::reading::ElementReaders::versioning_read))]
fn skip_versioning<'a, 'b>(tokens: &'b [Token<'a>]) -> Result<&'b [Token<'a>], ReadError>
    ensures value { Gives (λ x. (tt, lexemes x.now)) result (versioning_read (lexemes tokens.now)) }
    ensures rest { IfOk result (λ x. length x.now ≤ length tokens.now) }
{
    let rest = expect(tokens, Terminal::Keyword("WITH"))?;
    let rest = expect(rest, Terminal::Keyword("SYSTEM"))?;
    expect(rest, Terminal::Keyword("VERSIONING"))
}

// A table by its name, its elements and its versioning.
#[tactic(auto, unfolding(crate::specs::reading::ElementReaders::created_table_read))]
fn read_table<'a, 'b>(
    alloc: Global,
    tokens: &'b [Token<'a>],
) -> Result<(CreateStatement, &'b [Token<'a>]), ReadError>
    ensures value { Gives (λ x. (x.0, lexemes x.1.now)) result
        (created_table_read (lexemes tokens.now)) }
    ensures rest { IfOk result (λ x. length x.1.now ≤ length tokens.now) }
{
    let (name, rest) = read_name(alloc, tokens)?;
    let (elements, rest) = read_elements(alloc, rest)?;
    let rest = skip_versioning(rest)?;
    Ok((table_with(alloc, name, elements)?, rest))
}

/// CREATE TABLE, and the tokens after it.
#[tactic(auto, unfolding(crate::specs::reading::ElementReaders::create_read))]
pub fn read_create<'a, 'b>(
    alloc: Global,
    tokens: &'b [Token<'a>],
) -> Result<(CreateStatement, &'b [Token<'a>]), ReadError>
    ensures value { Gives (λ x. (x.0, lexemes x.1.now)) result (create_read (lexemes tokens.now)) }
    ensures rest { IfOk result (λ x. length x.1.now ≤ length tokens.now) }
{
    let rest = expect(tokens, Terminal::Keyword("CREATE"))?;
    read_table(alloc, expect(rest, Terminal::Keyword("TABLE"))?)
}
