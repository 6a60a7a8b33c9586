//! The ended versions of a table.

ghost use Rattle.std.specs.Prelude.{◌≡◌, ◌==◌, ◌++◌, ◌∷◌, ◌<◌, ◌≤◌, ◌||◌, [], IfOk, IfSome, List};
ghost use Rattle.std.specs.Prelude.{OnErr, OnOk, filter, length, map, not, reverse};
ghost use Rattle.std.specs.Prelude.{slice_index_or, take};
ghost use Rattle.std.specs.List.{All};
ghost use Rattle.period_core.specs.Encoding.{IsColumnValue};
ghost use Rattle.period_core.specs.declared.version.VersionRow.{VersionRow as Version};
ghost use Rattle.ended_versions.specs.Found.{AreChainedIn, first_chained};
ghost use Rattle.ended_versions.specs.Hashes.{has_each, hash_at, may_have};
ghost use Rattle.ended_versions.specs.Packed.{AreEndedBy, AreOfColumns, Hold, closed_at, ended_at};
ghost use Rattle.ended_versions.specs.Packed.{PackedVersion, packed, seen_through};
ghost use Rattle.ended_versions.specs.declared.chained_values.ChainedValues.{ChainedValues as Chained};

use crate::chained_values::ChainedValues;
use crate::hashes::{has_each, hash_at, hash_of};
use crate::kept::PackedVersions;
use period_core::{Memory, Moment, Value, VersionRow, Window};
use std::alloc::Global;
use std::marker::Model;

/// The ended versions of a table, in the order in which they ended, and chains of a first part of
/// them: by the values at some positions, by those at others, as `chain` was asked for. Contracts
/// see the list of all versions, with the values as bytes.
#[derive(Drop)]
pub struct EndedVersions {
    versions: PackedVersions,
    chained: Vec<ChainedValues>,
}

impl Model for EndedVersions {
    ghost use Rattle.std.specs.Prelude.{List};
    ghost use Rattle.std.specs.List.{All};
    ghost use Rattle.ended_versions.specs.Found.{AreChainedIn};
    ghost use Rattle.ended_versions.specs.Packed.{PackedVersion};

    ghost Value = { List PackedVersion };

    ghost view = { λ e. e.versions };

    ghost invariant = { λ e. All (AreChainedIn e.versions) e.chained.items };
}

impl EndedVersions {
    /// No versions.
    pub fn new(alloc: Global) -> EndedVersions
        ensures { result ≡ [] }
    {
        EndedVersions {
            versions: PackedVersions::new(alloc),
            chained: Vec::new(alloc),
        }
    }

    /// The number of versions.
    pub fn len(&self) -> usize
        ensures { result ≡ length self.now }
    {
        self.versions.len()
    }

    /// Adds a version, ended at a moment: no other of the list ended later. An error changes
    /// nothing.
    pub fn add(&mut self, alloc: Global, version: &VersionRow, end: Moment) -> Result<(), Memory>
        requires { AreEndedBy end self.old }
        ensures ok { OnOk result (self.new ≡ self.old ++ packed (ended_at end version.now) ∷ []) }
        ensures held { OnOk result (All IsColumnValue version.now.values) }
        ensures err { OnErr result (self.new ≡ self.old) }
        ensures ended { AreEndedBy end self.new }
    {
        self.versions.add(alloc, version, end)?;
        Ok(())
    }

    /// Adds versions that end at a moment, or none of them. Those that began at it are left out:
    /// they were recorded at no moment. No other of the list ended later.
    pub fn close_all(
        &mut self,
        alloc: Global,
        versions: &[VersionRow],
        moment: Moment,
    ) -> Result<(), Memory>
        requires { AreEndedBy moment self.old }
        ensures ok { OnOk result
            (self.new ≡ self.old ++ map packed (closed_at moment versions.now)) }
        ensures held { OnOk result (AreOfColumns (closed_at moment versions.now)) }
        ensures err { OnErr result (self.new ≡ self.old) }
        ensures ended { AreEndedBy moment self.new }
    {
        let count = self.len();
        for version in versions {
            if version.from == moment {
                continue;
            }
            if let Err(refused) = self.add(alloc, version, moment) {
                self.truncate(count);
                return Err(refused);
            }
        }
        Ok(())
    }

    /// Takes back all but the first `count`. It takes no memory.
    pub fn truncate(&mut self, count: usize)
        ensures { self.new ≡ take count self.old }
    {
        self.versions.truncate(count);
        truncate_each(self.chained.as_mut_slice(), count);
    }

    /// Chains those that are not chained yet by their values at these positions, so that
    /// `seen_of_key` need not look at all of them. The versions stay the same, on an error too:
    /// then some of them may be chained. With no positions, none is chained.
    pub fn chain(&mut self, alloc: Global, positions: &[usize]) -> Result<(), Memory>
        ensures { self.new ≡ self.old }
    {
        if positions.is_empty() {
            return Ok(());
        }
        let place = made_place(alloc, &mut self.chained, positions)?;
        self.chained[place].extend(alloc, &self.versions)
    }

    /// The versions that a window sees, the last to end first.
    pub fn seen(&self, alloc: Global, window: Window) -> Result<Vec<VersionRow>, Memory>
        ensures { (versions : List Version) → Hold self.now versions
            → IfOk result (λ seen. seen.items ≡ reverse (seen_through window versions)) }
    {
        self.versions.seen(alloc, window)
    }

    /// The versions that a window sees and that may have this key at these positions, the last to
    /// end first: all of the key, and of others some with an equal hash, and those that have no
    /// value at one of the positions. If all are chained by these positions, only those of a chain
    /// are looked at, and of them none that ends before one that ends too early to be seen: no more
    /// than end late enough for the window.
    pub fn seen_of_key(
        &self,
        alloc: Global,
        window: Window,
        positions: &[usize],
        key: &[Value],
    ) -> Result<Vec<VersionRow>, Memory>
        ensures { (versions : List Version) → Hold self.now versions
            → IfOk result (λ seen. seen.items
            ≡ reverse (filter (may_have positions.now key.now) (seen_through window versions))) }
    {
        match self.chained_by(positions) {
            Some(chained) => chained.seen(alloc, &self.versions, window, key),
            None => {
                let seen = self.versions.seen(alloc, window)?;
                that_may_have(alloc, seen, positions, key)
            }
        }
    }

    /// All versions, chained by their values at these positions, if they are.
    fn chained_by(&self, positions: &[usize]) -> Option<&ChainedValues>
        ensures positions { IfSome result (λ chained. chained.now.positions ≡ positions.now) }
        ensures chained { IfSome result (λ chained. AreChainedIn self.now chained.now) }
        ensures all { IfSome result (λ chained. length chained.now.hashes ≡ length self.now) }
    {
        let place = place_of(self.chained.as_slice(), positions);
        let chained = self.chained.get(place)?;
        if chained.hashes.len() < self.versions.len() {
            return None;
        }
        Some(chained)
    }
}

/// The place of the chains by these positions. If there are none, the number of all.
fn place_of(chained: &[ChainedValues], positions: &[usize]) -> usize
    ensures within { result ≤ length chained.now }
    ensures there { (d : Chained) → result < length chained.now
        → (slice_index_or chained.now result d).positions ≡ positions.now }
{
    for (place, chained) in chained.iter().enumerate() {
        if chained.positions.as_slice() == positions {
            return place;
        }
    }
    chained.len()
}

/// The place of the chains by these positions. If there are none, they are made, of no versions.
fn made_place(
    alloc: Global,
    chained: &mut Vec<ChainedValues>,
    positions: &[usize],
) -> Result<usize, Memory>
    ensures within { IfOk result (λ place. place < length chained.new.items) }
    ensures all { (list : List PackedVersion) → All (AreChainedIn list) chained.old.items
        → All (AreChainedIn list) chained.new.items }
{
    let place = place_of(chained.as_slice(), positions);
    if place == chained.len() {
        chained.push(ChainedValues::new(alloc, positions)?)?;
    }
    Ok(place)
}

/// Takes back all but the first `count` of each of these chains. It takes no memory.
fn truncate_each(chained: &mut [ChainedValues], count: usize)
    ensures { chained.new ≡ map (first_chained count) chained.old }
{
    for chained in chained.iter_mut() {
        chained.truncate(count);
    }
}

/// The versions that may have this key at these positions.
fn that_may_have(
    alloc: Global,
    versions: Vec<VersionRow>,
    positions: &[usize],
    key: &[Value],
) -> Result<Vec<VersionRow>, Memory>
    ensures { IfOk result (λ found. found.items
        ≡ filter (may_have positions.now key.now) versions.items) }
{
    let hash = hash_of(alloc, key)?;
    let mut found = Vec::new(alloc);
    for version in versions {
        if may_have(alloc, positions, &version, hash)? {
            found.push(version)?;
        }
    }
    Ok(found)
}

/// Whether the version's values at these positions have the hash, or one of them is missing.
fn may_have(
    alloc: Global,
    positions: &[usize],
    version: &VersionRow,
    hash: u32,
) -> Result<bool, Memory>
    ensures { IfOk result (λ may. may ≡ (not (has_each positions.now version.now.values)
        || (hash_at positions.now version.now == hash))) }
{
    let values = version.values.as_slice();
    if !has_each(positions, values) {
        return Ok(true);
    }
    Ok(hash_at(alloc, positions, values)? == hash)
}
