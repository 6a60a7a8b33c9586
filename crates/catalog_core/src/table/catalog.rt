//! The catalog: the tables by their numbers.

ghost use Rattle.std.specs.Borrow.{sem};
ghost use Rattle.std.specs.Prelude.{◌≡◌, ◌≤◌, ◌<◌, ◌++◌, ◌-◌, ◌∷◌, [], IfOk, IfSome, IsSome};
ghost use Rattle.std.specs.Prelude.{MatchOption, None, OnErr, Some, length, true};
ghost use Rattle.std.specs.List.{list_all};
ghost use Rattle.std.specs.Vec.{vec_follows_get};
ghost use Rattle.catalog_core.specs.Limits.{most_tables};
ghost use Rattle.catalog_core.specs.table.TableWords.{has_date_period, has_distinct_names};
ghost use Rattle.catalog_core.specs.table.TableWords.{number_of, table_of};

use crate::table::TableDef;
use period_core::{Items, Memory};
use sql_statements::Name;
use std::alloc::{Allocator, Global};

/// The tables in the order of their creation, numbered from 1. The application period of each is
/// over two different DATE columns, and no two columns of a table share a name.
#[derive(Drop)]
pub struct Catalog {
    pub tables: Items<TableDef>,
    pub ghost few: { length tables ≤ most_tables },
    pub ghost dated: { list_all has_date_period tables ≡ true },
    pub ghost distinct: { list_all has_distinct_names tables ≡ true },
}

/// The entry of a list for the table of this number, if the list has one entry a table, in the
/// order of their creation.
pub fn of_number<T>(entries: &[T], number: u8) -> Option<&T>
    ensures { MatchOption result (table_of entries.now number ≡ None)
        (λ entry. table_of entries.now number ≡ Some entry.now) }
{
    if number == 0 {
        return None;
    }
    entries.get(usize::from(number) - 1)
}

/// The entry of such a list for the table of this number, to be changed.
pub fn of_number_mut<T, A: Allocator>(entries: &mut Vec<T, A>, number: u8) -> Option<&mut T>
    ensures* writes_back { sem 𝓛 (vec_follows_get T.row A.row A.Allocator entries.entry
        (number - 1) result) }
    ensures found { MatchOption result (table_of entries.old.items number ≡ None)
        (λ entry. table_of entries.old.items number ≡ Some entry.now) }
{
    if number == 0 {
        return None;
    }
    entries.get_mut(usize::from(number) - 1)
}

impl Catalog {
    /// The catalog without a table.
    pub fn new(alloc: Global) -> Catalog
        ensures { result.tables ≡ [] }
    {
        Catalog {
            tables: Items::from_vec(Vec::new(alloc)),
        }
    }

    /// Adds a table to fewer than 64; its number is then the number of tables. Its application
    /// period is over two different DATE columns, and no two of its columns share a name. An `Err`
    /// says that memory was refused, and leaves the catalog as it was.
    pub fn push(&mut self, definition: TableDef) -> Result<(), Memory>
        requires room { length self.old.tables < most_tables }
        requires dated { has_date_period definition ≡ true }
        requires distinct { has_distinct_names definition ≡ true }
        ensures pushed { IfOk result (λ _. self.new.tables ≡ self.old.tables ++ definition ∷ []) }
        ensures kept { OnErr result (self.new ≡ self.old) }
    {
        self.tables.push(definition)
    }

    /// The number of tables.
    pub fn len(&self) -> usize
        ensures { result ≡ length self.now.tables }
    {
        self.tables.len()
    }

    /// The number of the table of this name.
    #[tactic(auto, unfolding(crate::specs::table::TableWords::number_of))]
    pub fn find(&self, name: &Name) -> Option<u8>
        ensures value { result ≡ number_of self.now.tables name.now }
        ensures there { IfSome result (λ number. IsSome (table_of self.now.tables number)) }
    {
        let tables = self.tables.as_slice();
        for i in 0..tables.len() {
            let table = &tables[i];
            if name.is(&table.name) {
                return Some(i as u8 + 1);
            }
        }
        None
    }

    /// The definition of the table of this number.
    pub fn def(&self, number: u8) -> Option<&TableDef>
        ensures { MatchOption result (table_of self.now.tables number ≡ None)
            (λ table. table_of self.now.tables number ≡ Some table.now) }
    {
        of_number(self.tables.as_slice(), number)
    }

    /// The number and the definition of the table of this name.
    pub fn table_named(&self, name: &Name) -> Option<(u8, &TableDef)>
        ensures { MatchOption result (number_of self.now.tables name.now ≡ None)
            (λ found. (number_of self.now.tables name.now ≡ Some found.0)
            × (table_of self.now.tables found.0 ≡ Some found.1.now)) }
    {
        let number = self.find(name)?;
        let table = self.def(number)?;
        Some((number, table))
    }
}
