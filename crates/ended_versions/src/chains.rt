//! Places in chains, one for each hash: from the last place of a hash to the one before it.

ghost use Rattle.std.specs.Prelude.{◌≡◌, ◌++◌, ◌∷◌, ◌<◌, ◌-◌, [], ℕ, OnErr, OnOk, length};
ghost use Rattle.std.specs.Prelude.{slice_index_or, take};
ghost use Rattle.ended_versions.specs.Chains.{IsLastPlace};

use period_core::Memory;
use std::alloc::Global;
use std::collections::BTreeMap;
use std::marker::Model;

/// A place.
#[derive(Clone, Copy)]
pub struct Link {
    /// The hash of its key.
    pub hash: u32,
    /// The last place before it of the same hash.
    pub before: Option<usize>,
}

/// The hashes of places, in their order, which contracts see as their list. A place takes some 24
/// bytes, and each distinct hash some 30.
#[derive(Drop)]
pub struct Chains {
    links: Vec<Link>,
    last: BTreeMap<u32, usize>,
}

impl Model for Chains {
    ghost use Rattle.std.specs.Prelude.{ℕ, List};
    ghost use Rattle.ended_versions.specs.Chains.{AreChained, hashes};

    ghost Value = { List ℕ };

    ghost view = { λ c. hashes c.links.items };

    ghost invariant = { λ c. AreChained c.links.items c.last };
}

impl Chains {
    /// No places.
    pub fn new(alloc: Global) -> Chains
        ensures { result ≡ [] }
    {
        Chains {
            links: Vec::new(alloc),
            last: BTreeMap::new(alloc),
        }
    }

    /// The number of places.
    pub fn len(&self) -> usize
        ensures { result ≡ length self.now }
    {
        self.links.len()
    }

    /// Adds a place of a hash. An error changes nothing.
    pub fn push(&mut self, hash: u32) -> Result<(), Memory>
        ensures ok { OnOk result (self.new ≡ self.old ++ hash ∷ []) }
        ensures err { OnErr result (self.new ≡ self.old) }
    {
        let place = self.links.len();
        self.links.reserve(1)?;
        let before = self.last.insert(hash, place)?;
        self.links.push(Link { hash, before })?;
        Ok(())
    }

    /// Takes the last place back. It takes no memory.
    fn pop(&mut self)
        ensures { self.new ≡ take (length self.old - 1) self.old }
    {
        let Some(link) = self.links.pop() else {
            return;
        };
        let Some(before) = link.before else {
            let _only = self.last.remove(&link.hash);
            return;
        };
        if let Some(last) = self.last.get_mut(&link.hash) {
            *last = before;
        }
    }

    /// Takes back all but the first `count`. It takes no memory.
    pub fn truncate(&mut self, count: usize)
        ensures { self.new ≡ take count self.old }
    {
        while self.links.len() > count {
            self.pop();
        }
    }

    /// The last place of a hash.
    pub fn last(&self, hash: u32) -> Option<usize>
        ensures { IsLastPlace self.now (length self.now) hash result }
    {
        self.last.get(&hash).copied()
    }

    /// The last place before a place that has the same hash.
    pub fn before(&self, place: usize) -> Option<usize>
        requires { place < length self.now }
        ensures { (d : ℕ) → IsLastPlace self.now place (slice_index_or self.now place d) result }
    {
        self.links[place].before
    }
}
