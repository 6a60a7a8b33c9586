//! The abbreviated key of a row: its first integer and its first bytes.

ghost use Rattle.std.specs.Prelude.{◌≡◌, ◌<◌, ℕ, slice_index_or};
ghost use Rattle.sqlite_value.specs.declared.value.Value.TheVariants.{Blob};
ghost use Rattle.ordered_rows.specs.AbbreviatedKeys.{IsAbbreviationOf, abbreviated_after};
ghost use Rattle.ordered_rows.specs.AbbreviatedKeys.{abbreviated_cmp, integer_of, spelled};

use sqlite_value::row::Row;
use sqlite_value::value::ValueRef;
use std::cmp::Ordering;

/// The beginning of a row, which is stored with it, so that most comparisons read no row. The key
/// of a version begins with its table's number and then the bytes of its values: one byte is the
/// kind of the first, and the eight after it are the value if it is an integer.
#[derive(Clone, Copy)]
pub(crate) enum AbbreviatedKey {
    /// The row begins with no integer.
    Other,
    /// An integer is first.
    Integer(i64),
    /// A blob is next: its first byte, the integer, and the number that the eight bytes after it
    /// spell. (In this order they take the least room.)
    IntegerAndBlob(u8, i64, u64),
}

impl AbbreviatedKey {
    /// The abbreviated key of a row.
    pub(crate) fn of(row: &Row) -> AbbreviatedKey
        ensures { IsAbbreviationOf result row.now }
    {
        let ValueRef::Int(first) = row.get(0) else {
            return AbbreviatedKey::Other;
        };
        let ValueRef::Blob(blob) = row.get(1) else {
            return AbbreviatedKey::Integer(first);
        };
        AbbreviatedKey::after(first, blob)
    }

    // The abbreviated key of a row that begins with this integer and this blob.
    fn after(first: i64, blob: &[u8]) -> AbbreviatedKey
        ensures value { result ≡ abbreviated_after first (Blob blob.now) }
        ensures bounded { (at : ℕ) → slice_index_or blob.now at 0 < 256 }
    {
        match blob {
            [byte, bytes @ ..] => AbbreviatedKey::IntegerAndBlob(*byte, first, number(bytes)),
            [] => AbbreviatedKey::Integer(first),
        }
    }

    /// The integer that the row begins with, if it does.
    #[inline(always)]
    pub(crate) fn integer(self) -> Option<i64>
        ensures { result ≡ integer_of self }
    {
        match self {
            AbbreviatedKey::Integer(first) => Some(first),
            AbbreviatedKey::IntegerAndBlob(_, first, _) => Some(first),
            AbbreviatedKey::Other => None,
        }
    }

    /// The order of two rows by their abbreviated keys. If this is `Equal`, nothing is known of
    /// the rows.
    #[inline(always)]
    pub(crate) fn cmp(self, other: AbbreviatedKey) -> Ordering
        ensures { result ≡ abbreviated_cmp self other }
    {
        match (self, other) {
            (
                AbbreviatedKey::IntegerAndBlob(byte, first, number),
                AbbreviatedKey::IntegerAndBlob(other_byte, other_first, other_number),
            ) => {
                let first = first.cmp(&other_first);
                let byte = byte.cmp(&other_byte);
                first.then(byte).then(number.cmp(&other_number))
            }
            _ => Ordering::Equal,
        }
    }
}

/// The number that the first eight bytes spell, the first the highest; those that are missing are
/// zeros.
fn number(bytes: &[u8]) -> u64
    ensures { result ≡ spelled 8 0 bytes.now }
{
    u64::from_be_bytes([
        byte_at(bytes, 0),
        byte_at(bytes, 1),
        byte_at(bytes, 2),
        byte_at(bytes, 3),
        byte_at(bytes, 4),
        byte_at(bytes, 5),
        byte_at(bytes, 6),
        byte_at(bytes, 7),
    ])
}

fn byte_at(bytes: &[u8], at: usize) -> u8
    ensures { result ≡ slice_index_or bytes.now at 0 }
{
    match bytes.get(at) {
        Some(byte) => *byte,
        None => 0,
    }
}
