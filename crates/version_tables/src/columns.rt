//! The values of a row that a query answers.

ghost use Rattle.std.specs.Prelude.{ℕ, ℤ, List, MatchOption};
ghost use Rattle.version_tables.specs.Rows.{AreBytesAt, IsNumberAt};

use sqlite::Row;
use sqlite::types::ValueRef;

/// The integer at a place of a row: `None` if the row has no such place, or another kind of
/// value there.
pub fn number_at(row: &Row, at: usize) -> Option<i64>
    ensures { MatchOption result
        (¬ ((n : ℤ) × IsNumberAt row.now at n)) (λ n. IsNumberAt row.now at n) }
{
    match row.get_ref(at) {
        Ok(ValueRef::Int(number)) => Some(number),
        _ => None,
    }
}

/// The bytes at a place of a row: `None` if the row has no such place, or another kind of value
/// there.
pub fn bytes_at(row: &Row, at: usize) -> Option<&[u8]>
    ensures { MatchOption result
        (¬ ((b : List ℕ) × AreBytesAt row.now at b)) (λ b. AreBytesAt row.now at b.now) }
{
    match row.get_ref(at) {
        Ok(ValueRef::Blob(bytes)) => Some(bytes),
        _ => None,
    }
}
