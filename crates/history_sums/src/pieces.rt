//! The pieces of what a history spells, each added to the message that a sum has taken in so far.

ghost use Rattle.std.specs.Prelude.{◌≡◌, ◌++◌, ℕ, IfOk, List, OnOk, map};
ghost use Rattle.std.specs.String.{string_bytes};
ghost use Rattle.md5.specs.Md5.{Holds};
ghost use Rattle.history_model.specs.Versions.{plain_version};
ghost use Rattle.history_sums.specs.Sums.{count_bytes, counted_bytes, definition_bytes};
ghost use Rattle.history_sums.specs.Sums.{definitions_bytes, number_bytes, sum_text};
ghost use Rattle.history_sums.specs.Sums.{version_bytes, versions_bytes};

use catalog_core::{TableDef, encode_def};
use md5::{Digest, Md5};
use period_core::{Memory, VersionRow, encode_values};
use std::alloc::{AllocError, Global};

fn add_count(sum: &mut Md5, count: usize)
    ensures { (bytes : List ℕ) → Holds sum.old bytes
        → Holds sum.new (bytes ++ count_bytes count) }
{
    sum.update(&(count as u64).to_be_bytes());
}

/// Adds a day or a moment.
pub fn add_number(sum: &mut Md5, number: i64)
    ensures { (bytes : List ℕ) → Holds sum.old bytes
        → Holds sum.new (bytes ++ number_bytes number) }
{
    sum.update(&number.to_be_bytes());
}

fn add_counted(sum: &mut Md5, added: &[u8])
    ensures { (bytes : List ℕ) → Holds sum.old bytes
        → Holds sum.new (bytes ++ counted_bytes added.now) }
{
    add_count(sum, added.len());
    sum.update(added);
}

fn add_definition(alloc: Global, sum: &mut Md5, table: &TableDef) -> Result<(), Memory>
    ensures { OnOk result ((bytes : List ℕ) → Holds sum.old bytes
        → Holds sum.new (bytes ++ definition_bytes table.now)) }
{
    let definition = encode_def(alloc, table)?;
    add_counted(sum, definition.as_slice());
    Ok(())
}

/// Adds the definitions of tables.
pub fn add_definitions(alloc: Global, sum: &mut Md5, tables: &[TableDef]) -> Result<(), Memory>
    ensures { OnOk result ((bytes : List ℕ) → Holds sum.old bytes
        → Holds sum.new (bytes ++ definitions_bytes tables.now)) }
{
    add_count(sum, tables.len());
    for table in tables {
        add_definition(alloc, sum, table)?;
    }
    Ok(())
}

fn add_version(alloc: Global, sum: &mut Md5, version: &VersionRow) -> Result<(), Memory>
    ensures { OnOk result ((bytes : List ℕ) → Holds sum.old bytes
        → Holds sum.new (bytes ++ version_bytes (plain_version version.now))) }
{
    let values = encode_values(alloc, version.values.as_slice())?;
    add_counted(sum, values.as_slice());
    add_number(sum, i64::from(version.period.start.number()));
    add_number(sum, i64::from(version.period.end.number()));
    add_number(sum, version.from.number());
    add_number(sum, version.to.number());
    Ok(())
}

/// Adds the versions of a table, which are given in any order. To put them in order takes little
/// if they are so already.
pub fn add_versions(
    alloc: Global,
    sum: &mut Md5,
    mut versions: Vec<VersionRow>,
) -> Result<(), Memory>
    ensures { OnOk result ((bytes : List ℕ) → Holds sum.old bytes
        → Holds sum.new (bytes ++ versions_bytes (map plain_version versions.items))) }
{
    versions.sort_unstable();
    add_count(sum, versions.len());
    for version in &versions {
        add_version(alloc, sum, version)?;
    }
    Ok(())
}

/// The sum as a text: 32 hexadecimal digits.
pub fn digits_of(alloc: Global, sum: Md5) -> Result<String, AllocError>
    ensures { IfOk result (λ text. (bytes : List ℕ) → Holds sum bytes
        → string_bytes text ≡ sum_text bytes) }
{
    let digest = sum.finalize();
    hex::encode(alloc, digest)
}
