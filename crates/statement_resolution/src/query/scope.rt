//! The scope at a place of a select, and the positions of its columns in a combined row.

ghost use Rattle.std.specs.Prelude.{◌≡◌, ◌<◌, ◌≤◌, IfSome, length};
ghost use Rattle.std.specs.List.{position};
ghost use Rattle.statement_resolution.specs.query.Faults.{matches_among};
ghost use Rattle.statement_resolution.specs.query.Matched.{matched};
ghost use Rattle.statement_resolution.specs.query.Places.{place_among, values_among};
ghost use Rattle.statement_resolution.specs.query.Scopes.{names_column};

use crate::query::seen_column::{Matched, SeenColumn, look_up};
use sql_statements::ColumnReference;

/// The columns that are seen, and the columns of the tables before them in the select.
#[derive(Clone, Copy)]
pub struct Scope<'a> {
    pub before: &'a [SeenColumn<'a>],
    pub seen: &'a [SeenColumn<'a>],
}

/// The number of the columns that rows have a value for.
fn value_count(columns: &[SeenColumn<'_>]) -> usize
    ensures value { result ≡ length (values_among columns.now) }
    ensures within { result ≤ length columns.now }
{
    columns.iter().filter(|seen| seen.has_value()).count()
}

/// The place of the first that a reference names among the columns that rows have a value for.
fn value_place(columns: &[SeenColumn<'_>], reference: &ColumnReference) -> Option<usize>
    ensures value { result ≡ position (names_column reference.now) (values_among columns.now) }
    ensures within { IfSome result (λ place. place < length columns.now) }
{
    let mut place = 0;
    for seen in columns {
        if seen.has_value() {
            if seen.is_named(reference) {
                return Some(place);
            }
            place += 1;
        }
    }
    None
}

/// The columns that a name matches, and its position: 0 for a name that has none, which no accepted
/// statement has.
#[derive(Clone, Copy)]
pub struct Named {
    pub matched: Matched,
    pub position: usize,
}

impl<'a> Scope<'a> {
    /// Looks up a name.
    pub fn look_up(&self, column: &ColumnReference) -> Named
        ensures matched { result.matched
            ≡ matched (matches_among self.now.seen.now column.now) }
        ensures position { result.position
            ≡ place_among self.now.before.now self.now.seen.now column.now }
    {
        let position = match value_place(self.seen, column) {
            Some(place) => value_count(self.before) + place,
            None => 0,
        };
        Named {
            matched: look_up(self.seen, column),
            position,
        }
    }
}
