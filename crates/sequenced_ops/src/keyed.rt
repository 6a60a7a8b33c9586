//! The rows of a join, with the values by which they are joined.

ghost use Rattle.std.specs.Prelude.{◌≡◌, ◌⊎◌, List, Contains, IfOk, MatchOption, OnOk};
ghost use Rattle.period_core.specs.declared.row.PeriodRow.{PeriodRow as Row};
ghost use Rattle.period_core.specs.declared.value.Value.{Value as ColumnValue};
ghost use Rattle.sequenced_ops.specs.Operations.{ReadsColumns};
ghost use Rattle.sequenced_ops.specs.Joining.{IsKeyed, key_of};

use crate::columns::read_columns;
use period_core::{Memory, Period, PeriodRow, Value, Values};
use std::alloc::Global;

/// The side of a join that a row is of.
#[derive(Clone, Copy, PartialEq, Eq, PartialOrd, Ord)]
pub enum Side {
    /// The values of the row come first.
    Left,
    /// The values of the row come second.
    Right,
}

/// The values by which a row is joined. A first integer is in the key itself, so most comparisons
/// read no other memory.
#[derive(Drop, PartialEq, Eq, PartialOrd, Ord)]
pub struct JoinKey {
    /// The first value, if it is an integer; the number of the day, if it is a date; or 0.
    pub lead: i64,
    /// The values after the first, if that is an integer, or else all of them.
    pub rest: Values,
}

/// A row of one side, with its key. Rows are in the order of their keys, then of their periods.
#[derive(Drop, PartialEq, Eq, PartialOrd, Ord)]
pub struct KeyedRow<'a> {
    /// The values by which it is joined.
    pub key: JoinKey,
    /// The days on which it holds.
    pub period: Period,
    /// The side that it is of.
    pub side: Side,
    /// All its values.
    pub values: &'a Values,
}

/// A key with this lead, whose rest is the values at these positions: `None` if one is missing.
fn read_rest(
    alloc: Global,
    lead: &i64,
    columns: &[usize],
    values: &[Value],
) -> Result<Option<JoinKey>, Memory>
    ensures { IfOk result (λ found. MatchOption found
        ((read : List ColumnValue) → ReadsColumns columns.now values.now read → ⊥)
        (λ key. (key.lead ≡ lead.now) × ReadsColumns columns.now values.now key.rest)) }
{
    let Some(rest) = read_columns(alloc, columns, values)? else {
        return Ok(None);
    };
    Ok(Some(JoinKey { lead: *lead, rest }))
}

/// The key of a row whose key has its values at these positions: `None` if one is missing.
fn read_key(alloc: Global, columns: &[usize], values: &[Value]) -> Result<Option<JoinKey>, Memory>
    ensures { IfOk result (λ found. MatchOption found
        ((read : List ColumnValue) → ReadsColumns columns.now values.now read → ⊥)
        (λ key. (read : List ColumnValue)
        × ReadsColumns columns.now values.now read × (key_of read ≡ key))) }
{
    let [first, others @ ..] = columns else {
        return read_rest(alloc, &0, columns, values);
    };
    match values.get(*first) {
        Some(Value::Int(number)) => read_rest(alloc, number, others, values),
        Some(Value::Text(_)) => read_rest(alloc, &0, columns, values),
        Some(Value::Date(day)) => {
            let number = i64::from(day.number());
            read_rest(alloc, &number, columns, values)
        }
        None => Ok(None),
    }
}

/// Adds the rows of a side that have a key.
pub fn push_keyed<'a>(
    alloc: Global,
    keyed: &mut Vec<KeyedRow<'a>>,
    rows: &'a [PeriodRow],
    columns: &[usize],
    side: Side,
) -> Result<(), Memory>
    ensures kept { OnOk result ((a : KeyedRow) →
        Contains keyed.old.items a → Contains keyed.new.items a) }
    ensures added { OnOk result ((row : Row) (read : List ColumnValue) →
        Contains rows.now row → ReadsColumns columns.now row.values read
        → (a : KeyedRow) × Contains keyed.new.items a × IsKeyed side columns.now row a) }
    ensures others { OnOk result ((a : KeyedRow) → Contains keyed.new.items a →
        (Contains keyed.old.items a
        ⊎ ((row : Row) × Contains rows.now row × IsKeyed side columns.now row a))) }
{
    for row in rows {
        if let Some(key) = read_key(alloc, columns, row.values.as_slice())? {
            keyed.push(KeyedRow {
                key,
                period: row.period,
                side,
                values: &row.values,
            })?;
        }
    }
    Ok(())
}
