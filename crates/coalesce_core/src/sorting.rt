//! Rows in their order: by values, and then by first day.

ghost use Rattle.std.specs.Prelude.{◌≡◌, IfOk, IfSome, IsPermutation};
ghost use Rattle.coalesce_core.specs.Coalesced.{IsOrdered};
ghost use Rattle.temporal_model.specs.Answer.{answer_cmp};

use crate::ordering::compare_rows;
use period_core::{Memory, Period, PeriodRow, Value, Values};
use std::alloc::Global;
use std::cmp::Ordering;
use std::marker::Model;

/// A row whose only value is an integer, without memory of its own: so a sort of such rows reads
/// no other memory. Contracts see the row.
#[derive(Drop)]
struct NumberRow {
    number: i64,
    period: Period,
}

impl Model for NumberRow {
    ghost use Rattle.std.specs.Prelude.{[], ◌∷◌};
    ghost use Rattle.period_core.specs.declared.row.PeriodRow.{PeriodRow as Row};
    ghost use Rattle.period_core.specs.declared.value.Value.TheVariants.{Int};

    ghost Value = { Row };

    ghost view = { λ r. record { values = Int r.number ∷ []; period = r.period } };
}

impl NumberRow {
    /// The row, if its only value is an integer.
    fn of(row: &PeriodRow) -> Option<NumberRow>
        ensures { IfSome result (λ number. number ≡ row.now) }
    {
        match row.values.as_slice() {
            [Value::Int(number)] => Some(NumberRow {
                number: *number,
                period: row.period,
            }),
            _ => None,
        }
    }

    /// The row as any other.
    fn to_row(&self, alloc: Global) -> Result<PeriodRow, Memory>
        ensures { IfOk result (λ row. row ≡ self.now) }
    {
        let mut values = Vec::with_capacity(alloc, 1)?;
        values.push(Value::Int(self.number))?;
        Ok(PeriodRow {
            values: Values::from_vec(values),
            period: self.period,
        })
    }

    /// The order of two such rows.
    fn compare(&self, other: &NumberRow) -> Ordering
        ensures { result ≡ answer_cmp self.now other.now }
    {
        match self.number.cmp(&other.number) {
            Ordering::Equal => self.period.start.cmp(&other.period.start),
            unequal => unequal,
        }
    }
}

/// About how many pairs of neighbours are looked at for whether rows are scattered.
const SAMPLE: usize = 64;

/// Whether of some pairs of neighbours an eighth are out of order, so that a sort compares each row
/// with many. Either answer is right.
fn is_scattered(rows: &[PeriodRow]) -> bool {
    let mut turned: usize = 0;
    for part in rows.chunks(rows.len() / SAMPLE + 2) {
        if let [first, second, ..] = part {
            if compare_rows(first, second) == Ordering::Greater {
                turned = turned.saturating_add(1);
            }
        }
    }
    turned > SAMPLE / 8
}

/// The rows, if they are scattered and the only value of each is an integer. (Rows that are nearly
/// in order are sorted sooner as they are.)
fn numbers_of(alloc: Global, rows: &[PeriodRow]) -> Result<Option<Vec<NumberRow>>, Memory>
    ensures { IfOk result (λ found. IfSome found (λ numbers. numbers.items ≡ rows.now)) }
{
    if !is_scattered(rows) {
        return Ok(None);
    }
    let mut numbers = Vec::new(alloc);
    for row in rows {
        let Some(number) = NumberRow::of(row) else {
            return Ok(None);
        };
        numbers.push(number)?;
    }
    Ok(Some(numbers))
}

/// The rows of a list of numbered rows.
fn rows_of(alloc: Global, numbers: &[NumberRow]) -> Result<Vec<PeriodRow>, Memory>
    ensures { IfOk result (λ rows. rows.items ≡ numbers.now) }
{
    let mut rows = Vec::with_capacity(alloc, numbers.len())?;
    for number in numbers {
        rows.push(number.to_row(alloc)?)?;
    }
    Ok(rows)
}

/// The rows in their order.
pub fn in_order(alloc: Global, rows: Vec<PeriodRow>) -> Result<Vec<PeriodRow>, Memory>
    ensures same { IfOk result (λ sorted. IsPermutation rows.items sorted.items) }
    ensures ordered { IfOk result (λ sorted. IsOrdered sorted.items) }
{
    let mut rows = rows;
    let Some(numbers) = numbers_of(alloc, rows.as_slice())? else {
        rows.sort_by(compare_rows)?;
        return Ok(rows);
    };
    drop(rows);
    let mut numbers = numbers;
    numbers.sort_by(NumberRow::compare)?;
    rows_of(alloc, numbers.as_slice())
}
