//! Ended versions, with their values as bytes.

ghost use Rattle.std.specs.Prelude.{◌≡◌, ◌++◌, ◌∷◌, ◌+◌, ◌<◌, [], IfOk, List, OnErr, OnOk};
ghost use Rattle.std.specs.Prelude.{length, reverse, slice_index_or, take, true};
ghost use Rattle.std.specs.List.{All};
ghost use Rattle.period_core.specs.Encoding.{IsColumnValue};
ghost use Rattle.period_core.specs.declared.version.VersionRow.{VersionRow as Version};
ghost use Rattle.ended_versions.specs.Entries.{IsKept, packed_in};
ghost use Rattle.ended_versions.specs.Found.{IsVersionIfSeen};
ghost use Rattle.ended_versions.specs.Packed.{AreEndedBy, Hold, PackedVersion, ended_at, packed};
ghost use Rattle.ended_versions.specs.Packed.{seen_through};

use crate::blocks::{VersionEntry, least_with};
use crate::walk::{ends_late, last_seen};
use period_core::{
    DecodeFault, Memory, Moment, Values, VersionRow, Window, decode_values, encode_values,
};
use std::alloc::Global;
use std::marker::Model;

/// Ended versions, in the order in which they ended. Their values are bytes, so a version
/// of three numbers takes some 80 bytes. Contracts see the list, with the values so.
#[derive(Drop)]
pub struct PackedVersions {
    bytes: Vec<u8>,
    entries: Vec<VersionEntry>,
}

impl Model for PackedVersions {
    ghost use Rattle.std.specs.Prelude.{List, map};
    ghost use Rattle.ended_versions.specs.Entries.{AreEntries, packed_in};
    ghost use Rattle.ended_versions.specs.Packed.{PackedVersion};

    ghost Value = { List PackedVersion };

    ghost view = { λ e. map (packed_in e.bytes.items) e.entries.items };

    ghost invariant = { λ e. AreEntries e.bytes.items e.entries.items };
}

impl PackedVersions {
    /// No versions.
    pub fn new(alloc: Global) -> PackedVersions
        ensures { result ≡ [] }
    {
        PackedVersions {
            bytes: Vec::new(alloc),
            entries: Vec::new(alloc),
        }
    }

    /// The number of versions.
    pub fn len(&self) -> usize
        ensures { result ≡ length self.now }
    {
        self.entries.len()
    }

    /// Adds a version, ended at a moment: no other of the list ended later. An error changes
    /// nothing.
    pub fn add(&mut self, alloc: Global, version: &VersionRow, end: Moment) -> Result<(), Memory>
        requires { AreEndedBy end self.old }
        ensures ok { OnOk result (self.new ≡ self.old ++ packed (ended_at end version.now) ∷ []) }
        ensures held { OnOk result (All IsColumnValue version.now.values) }
        ensures err { OnErr result (self.new ≡ self.old) }
        ensures ended { AreEndedBy end self.new }
    {
        let values = encode_values(alloc, version.values.as_slice())?;
        let start = self.bytes.len();
        self.bytes.extend_from_slice(values.as_slice())?;
        let entry = VersionEntry {
            start,
            end: self.bytes.len(),
            period: version.period,
            from: version.from,
            to: end,
            earliest_from: least_with(self.entries.as_slice(), version.from),
        };
        if let Err(refused) = self.entries.push(entry) {
            self.bytes.truncate(start);
            return Err(refused.into());
        }
        Ok(())
    }

    /// Takes back all but the first `count`. It takes no memory.
    pub fn truncate(&mut self, count: usize)
        ensures { self.new ≡ take count self.old }
    {
        if count < self.entries.len() {
            let start = self.entries[count].start;
            self.bytes.truncate(start);
            self.entries.truncate(count);
        }
    }

    /// The versions that a window sees, the last to end first.
    pub fn seen(&self, alloc: Global, window: Window) -> Result<Vec<VersionRow>, Memory>
        ensures { (versions : List Version) → Hold self.now versions
            → IfOk result (λ seen. seen.items ≡ reverse (seen_through window versions)) }
    {
        let entries = self.entries.as_slice();
        let mut seen = Vec::new(alloc);
        let mut before = entries.len();
        while let Some(place) = last_seen(entries, &window, before) {
            seen.push(unpacked(alloc, self.bytes.as_slice(), &entries[place])?)?;
            before = place;
        }
        Ok(seen)
    }

    /// The version at a place.
    pub fn version_at(&self, alloc: Global, place: usize) -> Result<VersionRow, Memory>
        requires { place < length self.now }
        ensures same { (d : PackedVersion)
            → IfOk result (λ version. packed version ≡ slice_index_or self.now place d) }
        ensures held { IfOk result (λ version. All IsColumnValue version.values) }
    {
        unpacked(alloc, self.bytes.as_slice(), &self.entries[place])
    }

    /// Whether the version at a place ends too early for a window to see it: then the window sees
    /// none of those before it either.
    pub fn ends_early(&self, window: &Window, place: usize) -> bool
        requires { place < length self.now }
        ensures { (versions : List Version) → Hold self.now versions → result ≡ true
            → seen_through window.now (take (place + 1) versions) ≡ [] }
    {
        !ends_late(window, self.entries[place].to)
    }

    /// The version at a place, if the window sees it.
    pub fn seen_at(
        &self,
        alloc: Global,
        window: Window,
        place: usize,
    ) -> Result<Option<VersionRow>, Memory>
        requires { place < length self.now }
        ensures { (versions : List Version) (d : Version) → Hold self.now versions
            → IfOk result (IsVersionIfSeen window (slice_index_or versions place d)) }
    {
        let entry = &self.entries[place];
        if !window.sees(entry.from, entry.to) {
            return Ok(None);
        }
        Ok(Some(unpacked(alloc, self.bytes.as_slice(), entry)?))
    }
}

/// The version of an entry.
fn unpacked(alloc: Global, bytes: &[u8], entry: &VersionEntry) -> Result<VersionRow, Memory>
    requires { IsKept bytes.now entry.now }
    ensures same { IfOk result (λ version. packed version ≡ packed_in bytes.now entry.now) }
    ensures held { IfOk result (λ version. All IsColumnValue version.values) }
{
    match decode_values(alloc, &bytes[entry.start..entry.end]) {
        Ok(values) => Ok(VersionRow {
            values: Values::from_vec(values),
            period: entry.period,
            from: entry.from,
            to: entry.to,
        }),
        Err(DecodeFault::Memory) => Err(Memory),
        Err(DecodeFault::Malformed) => unreachable!(),
    }
}
