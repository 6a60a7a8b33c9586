//! Backward iteration over the ended versions that a window sees, from the last to end.

ghost use Rattle.std.specs.Prelude.{◌≡◌, ◌++◌, ◌∷◌, ◌<◌, ◌≤◌, [], MatchOption, filter, length};
ghost use Rattle.std.specs.Prelude.{slice_index_or, take};
ghost use Rattle.ended_versions.specs.Bounds.{begins_early, ends_late};
ghost use Rattle.ended_versions.specs.Entries.{AreInOrder, KnowLeast, is_seen};
ghost use Rattle.ended_versions.specs.declared.blocks.VersionEntry.{VersionEntry as Kept};

use crate::blocks::{VersionEntry, block_start};
use period_core::{Moment, Window};

/// Whether the window sees the version of an entry.
fn is_seen(window: &Window, entry: &VersionEntry) -> bool
    ensures { result ≡ is_seen window.now entry.now }
{
    window.sees(entry.from, entry.to)
}

/// Whether a version that begins at the moment may be seen: of those that begin later none is,
/// if it is not.
fn begins_early(window: &Window, from: Moment) -> bool
    ensures { result ≡ begins_early window.now from }
{
    match *window {
        Window::Now => true,
        Window::AsOf(moment) => from <= moment,
        Window::FromTo(start, end) => start < end && from < end,
        Window::Between(start, last) => start <= last && from <= last,
    }
}

/// Whether a version that ends at the moment may be seen: of those that end earlier none is, if
/// it is not.
pub fn ends_late(window: &Window, to: Moment) -> bool
    ensures { result ≡ ends_late window.now to }
{
    match *window {
        Window::Now => Moment::forever() <= to,
        Window::AsOf(moment) => moment < to,
        Window::FromTo(start, _) | Window::Between(start, _) => start < to,
    }
}

/// The last place before this one of a version that the window sees. It takes some steps for each
/// doubling of the list's length, not for each version.
pub fn last_seen(entries: &[VersionEntry], window: &Window, before: usize) -> Option<usize>
    requires ordered { AreInOrder entries.now }
    requires earliest_from { KnowLeast entries.now }
    requires within { before ≤ length entries.now }
    ensures { MatchOption result (filter (is_seen window.now) (take before entries.now) ≡ [])
        (λ place. (place < before) × ((d : Kept)
        → filter (is_seen window.now) (take before entries.now)
        ≡ filter (is_seen window.now) (take place entries.now)
        ++ slice_index_or entries.now place d ∷ [])) }
{
    let mut place = before;
    while place > 0 {
        let entry = &entries[place - 1];
        if is_seen(window, entry) {
            return Some(place - 1);
        }
        if !ends_late(window, entry.to) {
            return None;
        }
        place = if begins_early(window, entry.earliest_from) {
            place - 1
        } else {
            block_start(place - 1)
        };
    }
    None
}
