//! Blocks of ended versions. Entry i closes a block, and stores the earliest moment at which a
//! version of the block begins.

ghost use Rattle.std.specs.Prelude.{◌≡◌, ◌<◌, ◌≤◌, ◌≤ℤ◌, length, slice_index_or, ℕ};
ghost use Rattle.ended_versions.specs.Entries.{KnowLeast, block_start};
ghost use Rattle.ended_versions.specs.declared.blocks.VersionEntry.{VersionEntry as Kept};

use period_core::{Moment, Period};

/// An ended version: where its values are among the bytes of all, its period, its system time, and
/// the least moment at which a version of the block that it ends begins.
#[derive(Clone, Copy)]
pub struct VersionEntry {
    /// The place among the bytes at which its values begin.
    pub start: usize,
    /// The place at which they end.
    pub end: usize,
    /// The days on which they hold.
    pub period: Period,
    /// The first moment of its system time.
    pub from: Moment,
    /// The moment at which its system time ended.
    pub to: Moment,
    /// The least `from` of its block.
    pub earliest_from: Moment,
}

/// The first place of the block that the place ends. A block has 1, 2, 4, .. places, as many as the
/// least bit of the number of places up to there; so blocks of any size can be passed over, and one
/// more place changes no block.
pub fn block_start(place: usize) -> usize
    requires { place < usize.MAX }
    ensures { result ≡ block_start place }
{
    (place + 1) & place
}

/// The earlier of two moments.
fn earlier(first: Moment, second: Moment) -> Moment
    ensures by_first { result ≤ℤ first }
    ensures by_second { result ≤ℤ second }
{
    if first < second { first } else { second }
}

/// The least moment at which a version begins of the block that the next entry ends, if its own
/// begins at `from`.
pub fn least_with(entries: &[VersionEntry], from: Moment) -> Moment
    requires { KnowLeast entries.now }
    ensures own { result ≤ℤ from }
    ensures others { (place : ℕ) (d : Kept) → block_start (length entries.now) ≤ place
        → place < length entries.now → result ≤ℤ (slice_index_or entries.now place d).from }
{
    let first = block_start(entries.len());
    let mut earliest_from = from;
    let mut place = entries.len();
    while place > first {
        let entry = &entries[place - 1];
        earliest_from = earlier(earliest_from, entry.earliest_from);
        place = block_start(place - 1);
    }
    earliest_from
}
