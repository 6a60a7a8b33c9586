//! The number of a statement's periods that each name matches: counted once, so that no test reads
//! over all periods for each of them or for each key.

ghost use Rattle.std.specs.Prelude.{◌≡◌, IfOk};
ghost use Rattle.catalog_core.specs.create.PeriodCounts.{AreCounts, count_of};

use period_core::Memory;
use sql_statements::{CreateTable, Name};
use std::alloc::Global;
use std::collections::BTreeMap;

/// For the name of each period, how many periods have it.
pub fn period_counts<'a>(
    alloc: Global,
    create: &'a CreateTable,
) -> Result<BTreeMap<&'a str, usize>, Memory>
    ensures { IfOk result (λ counts. AreCounts create.now counts) }
{
    let mut counts = BTreeMap::new(alloc);
    for period in create.periods.as_slice() {
        let count = count_of(&counts, &period.name);
        counts.insert(period.name.as_text().as_str(), count + 1)?;
    }
    Ok(counts)
}

/// The number of periods that have a name.
pub fn count_of(counts: &BTreeMap<&str, usize>, name: &Name) -> usize
    ensures { result ≡ count_of counts.now name.now }
{
    counts.get(name.as_text().as_str()).copied().unwrap_or(0)
}
