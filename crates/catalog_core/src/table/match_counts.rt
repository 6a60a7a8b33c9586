//! The number of columns and periods that a name matches.

ghost use Rattle.std.specs.Prelude.{◌≡◌, ◌∷◌, []};
ghost use Rattle.catalog_core.specs.create.Creation.{own_matches, some_own_match};
ghost use Rattle.catalog_core.specs.table.Matches.{is_matching};
ghost use Rattle.catalog_core.specs.table.Naming.{match_count, repeats};
ghost use Rattle.catalog_core.specs.table.TableWords.{def_matches, some_def_match};

use crate::table::TableDef;
use crate::table::named::{matches_among, some_match_among};
use sql_statements::{CreateTable, Name};

/// The number of columns that a test wants a name to match: none, or more than one.
#[derive(Clone, Copy)]
pub enum MatchCount {
    Zero,
    Many,
}

impl MatchCount {
    /// Whether a number of matches is wanted.
    #[tactic(auto, unfolding(crate::specs::table::Matches::is_matching))]
    pub fn is(self, count: usize) -> bool
        ensures { result ≡ is_matching self count }
    {
        match self {
            MatchCount::Zero => count == 0,
            MatchCount::Many => count > 1,
        }
    }
}

/// The number of the statement's columns that a name matches.
pub fn own_matches(create: &CreateTable, name: &Name) -> usize
    ensures { result ≡ own_matches create.now name.now }
{
    matches_among(create.columns.as_slice(), name)
}

/// The number of a table's columns that a name matches.
pub fn def_matches(table: &TableDef, name: &Name) -> usize
    ensures { result ≡ def_matches table.now name.now }
{
    matches_among(table.columns.as_slice(), name)
}

/// The number of a list's names that a name matches.
pub fn match_count(names: &[Name], name: &Name) -> usize
    ensures { result ≡ match_count names.now name.now }
{
    matches_among(names, name)
}

/// Whether one of the names matches the wanted number of the statement's columns.
pub fn some_own_match(create: &CreateTable, wanted: MatchCount, names: &[Name]) -> bool
    ensures { result ≡ some_own_match create.now wanted names.now }
{
    some_match_among(create.columns.as_slice(), wanted, names)
}

/// Whether one of the names matches the wanted number of a table's columns.
pub fn some_def_match(table: &TableDef, wanted: MatchCount, names: &[Name]) -> bool
    ensures { result ≡ some_def_match table.now wanted names.now }
{
    some_match_among(table.columns.as_slice(), wanted, names)
}

/// Whether one of two names matches the wanted number of the statement's columns.
#[tactic(auto, unfolding(crate::specs::table::Naming::some_match_among))]
pub fn either_matches(create: &CreateTable, wanted: MatchCount, start: &Name, end: &Name) -> bool
    ensures { result ≡ some_own_match create.now wanted (start.now ∷ end.now ∷ []) }
{
    wanted.is(own_matches(create, start)) || wanted.is(own_matches(create, end))
}

/// Whether some name is in the list twice.
#[tactic(auto, unfolding(crate::specs::table::Naming::repeats))]
pub fn repeats(names: &[Name]) -> bool
    ensures { result ≡ repeats names.now }
{
    names
        .iter()
        .any(|x| MatchCount::Many.is(match_count(names, x)))
}
