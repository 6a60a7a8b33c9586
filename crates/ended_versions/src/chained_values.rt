//! The first versions of a list, chained by the values that they have at some positions: those of
//! equal values are in one chain, the last to end first.

ghost use Rattle.std.specs.Prelude.{◌≡◌, [], IfOk, List, filter, length, reverse};
ghost use Rattle.period_core.specs.declared.version.VersionRow.{VersionRow as Version};
ghost use Rattle.ended_versions.specs.Found.{AreChainedIn, first_chained};
ghost use Rattle.ended_versions.specs.Hashes.{may_have};
ghost use Rattle.ended_versions.specs.Packed.{Hold, seen_through};

use crate::chains::Chains;
use crate::hashes::{has_each, hash_at, hash_of};
use crate::kept::PackedVersions;
use period_core::{Items, Memory, Value, VersionRow, Window};
use std::alloc::Global;

/// The hashes of the values that the first versions of a list have at some positions.
#[derive(Drop)]
pub struct ChainedValues {
    /// The positions.
    pub positions: Items<usize>,
    /// The hashes, in the order of the list.
    pub hashes: Chains,
}

impl ChainedValues {
    /// No versions yet, to be chained by their values at these positions.
    pub fn new(alloc: Global, positions: &[usize]) -> Result<ChainedValues, Memory>
        ensures { IfOk result (λ chained. chained.hashes ≡ []) }
    {
        let positions = Vec::from_slice(alloc, positions)?;
        Ok(ChainedValues {
            positions: Items::from_vec(positions),
            hashes: Chains::new(alloc),
        })
    }

    /// Chains the versions of a list that are not chained yet, up to one that has no value at one
    /// of the positions. On an error some of them may be chained.
    pub fn extend(&mut self, alloc: Global, versions: &PackedVersions) -> Result<(), Memory>
        requires { AreChainedIn versions.now self.old }
        ensures { AreChainedIn versions.now self.new }
    {
        'places: for place in self.hashes.len()..versions.len() {
            let version = versions.version_at(alloc, place)?;
            let positions = self.positions.as_slice();
            let values = version.values.as_slice();
            if !has_each(positions, values) {
                return Ok(());
            }
            let hash = hash_at(alloc, positions, values)?;
            self.hashes.push(hash)?;
        }
        Ok(())
    }

    /// Takes back all but the first `count`. It takes no memory.
    pub fn truncate(&mut self, count: usize)
        ensures { self.new ≡ first_chained count self.old }
    {
        self.hashes.truncate(count);
    }

    /// The versions of a list, all of them chained, that a window sees and that may have this key
    /// at the positions, the last to end first. Only versions of the key's chain are looked at, and
    /// none before the first that ends too early to be seen: the list is in the order of its ends.
    pub fn seen(
        &self,
        alloc: Global,
        versions: &PackedVersions,
        window: Window,
        key: &[Value],
    ) -> Result<Vec<VersionRow>, Memory>
        requires chained { AreChainedIn versions.now self.now }
        requires all { length self.now.hashes ≡ length versions.now }
        ensures { (list : List Version) → Hold versions.now list
            → IfOk result (λ seen. seen.items
            ≡ reverse (filter (may_have self.now.positions key.now) (seen_through window list))) }
    {
        let hash = hash_of(alloc, key)?;
        let mut seen = Vec::new(alloc);
        let mut next = self.hashes.last(hash);
        while let Some(place) = next {
            if versions.ends_early(&window, place) {
                return Ok(seen);
            }
            if let Some(version) = versions.seen_at(alloc, window, place)? {
                seen.push(version)?;
            }
            next = self.hashes.before(place);
        }
        Ok(seen)
    }
}
