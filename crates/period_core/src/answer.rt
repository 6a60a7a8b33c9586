//! The answer to a sequenced query: the names of its columns, its rows, and a witness for each row.

ghost use Rattle.std.specs.Prelude.{◌≡◌, IfOk};

use crate::day::Day;
use crate::items::Items;
use crate::memory::Memory;
use crate::row::PeriodRow;
use crate::text::Text;
use std::alloc::Global;

/// The first day of an answer's row, on which its values are in the answer, and the day before it,
/// on which they are not. 0001-01-01 has no day before.
#[derive(Clone, Copy, Debug, PartialEq, Eq)]
pub struct Witness {
    /// The first day of the row.
    pub held: Day,
    /// The day before it, if there is one.
    pub absent: Option<Day>,
}

/// The answer of a sequenced query.
#[derive(Drop, Debug)]
pub struct Answer {
    /// The names of the columns, in their order.
    pub columns: Items<Text>,
    /// The rows, each with a value for each column.
    pub rows: Items<PeriodRow>,
    /// The witness of each row, in the row's place.
    pub witnesses: Items<Witness>,
}

impl Answer {
    /// An equal answer. An `Err` says that memory was refused.
    pub fn copy(&self, alloc: Global) -> Result<Answer, Memory>
        ensures { IfOk result (λ answer. answer ≡ self.now) }
    {
        Ok(Answer {
            columns: copy_texts(alloc, &self.columns)?,
            rows: copy_rows(alloc, &self.rows)?,
            witnesses: copy_witnesses(alloc, &self.witnesses)?,
        })
    }
}

fn copy_texts(alloc: Global, texts: &Items<Text>) -> Result<Items<Text>, Memory>
    ensures { IfOk result (λ copies. copies ≡ texts.now) }
{
    let mut copies = Vec::new(alloc);
    for text in texts.as_slice() {
        copies.push(text.copy(alloc)?)?;
    }
    Ok(Items::from_vec(copies))
}

fn copy_rows(alloc: Global, rows: &Items<PeriodRow>) -> Result<Items<PeriodRow>, Memory>
    ensures { IfOk result (λ copies. copies ≡ rows.now) }
{
    let mut copies = Vec::new(alloc);
    for row in rows.as_slice() {
        copies.push(row.copy(alloc)?)?;
    }
    Ok(Items::from_vec(copies))
}

fn copy_witnesses(alloc: Global, witnesses: &Items<Witness>) -> Result<Items<Witness>, Memory>
    ensures { IfOk result (λ copies. copies ≡ witnesses.now) }
{
    let mut copies = Vec::new(alloc);
    for witness in witnesses.as_slice() {
        copies.push(*witness)?;
    }
    Ok(Items::from_vec(copies))
}
