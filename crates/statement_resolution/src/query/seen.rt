//! The names by which tables are known.

ghost use Rattle.std.specs.Prelude.{◌≡◌};
ghost use Rattle.statement_resolution.specs.query.Scopes as scope;

use sql_statements::Name;

/// Whether the name before a column is that by which the table is known.
pub fn is_qualified(qualifier: &Option<Name>, known: &Name) -> bool
    ensures { result ≡ scope.is_qualified qualifier.now known.now }
{
    match qualifier {
        Some(qualifier) => qualifier.is(known),
        None => true,
    }
}
