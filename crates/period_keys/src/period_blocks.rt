//! The places of the rows of a key, by their periods: in blocks, so that the rows of a few days are
//! found among many without a look at each.

ghost use Rattle.std.specs.Prelude.{◌≡◌, ◌≤◌, ◌<◌, ◌+◌, ◌⊎◌, IfOk, OnOk, length};
ghost use Rattle.std.specs.Bool.{OnTrue};
ghost use Rattle.period_keys.specs.declared.placed_period.PlacedPeriod.{PlacedPeriod as Placed};
ghost use Rattle.period_keys.specs.Placed.{ArePlaced, HasPlaced};

use crate::block::Block;
use crate::placed_period::PlacedPeriod;
use period_core::{Day, Memory, Period, VersionRow};
use std::alloc::Global;

/// Placed periods in blocks, which are in the order of their starts.
#[derive(Drop)]
pub struct PeriodBlocks {
    blocks: Vec<Block>,
}

impl PeriodBlocks {
    /// The periods of rows, with their places.
    pub fn of(alloc: Global, rows: &[VersionRow]) -> Result<PeriodBlocks, Memory>
        ensures { IfOk result (ArePlaced rows.now) }
    {
        let mut placed = PeriodBlocks {
            blocks: Vec::new(alloc),
        };
        for place in 0..rows.len() {
            let period = rows[place].period;
            placed.add(alloc, &PlacedPeriod { period, place })?;
        }
        Ok(placed)
    }

    /// The blocks.
    pub fn as_slice(&self) -> &[Block]
        ensures { result.now ≡ self.now.blocks.items }
    {
        self.blocks.as_slice()
    }

    /// The placed periods of one block: one of them holds the day, if any does and all are apart.
    pub fn near(&self, day: Day) -> &[PlacedPeriod] {
        match self.blocks.get(self.insertion_point(day)) {
            Some(block) => block.as_slice(),
            None => &[],
        }
    }

    /// Adds one. After an error some of the earlier ones may be gone.
    pub fn add(&mut self, alloc: Global, item: &PlacedPeriod) -> Result<(), Memory>
        ensures kept { OnOk result
            ((other : Placed) → HasPlaced self.old other → HasPlaced self.new other) }
        ensures there { OnOk result (HasPlaced self.new item.now) }
    {
        let start = item.period.start;
        let at = self.insertion_point(start);
        if at >= self.blocks.len() {
            return self.add_block(alloc, at, item);
        }
        if !self.blocks[at].is_full() {
            return self.add_to(at, item);
        }
        if self.blocks[at].ends_by(start) {
            return self.add_block(alloc, at + 1, item);
        }
        self.split(alloc, at)?;
        let at = self.insertion_point(start);
        self.add_to(at, item)
    }

    // The last block of which some may start by the day, or the first.
    fn insertion_point(&self, day: Day) -> usize
        ensures { result ≤ length self.now.blocks.items }
    {
        let place = self.blocks.partition_point(|block| block.starts_by(day));
        if place == 0 { 0 } else { place - 1 }
    }

    // Adds one to the block at the place.
    fn add_to(&mut self, at: usize, item: &PlacedPeriod) -> Result<(), Memory>
        ensures kept { OnOk result
            ((other : Placed) → HasPlaced self.old other → HasPlaced self.new other) }
        ensures there { OnOk result (HasPlaced self.new item.now) }
    {
        if at >= self.blocks.len() {
            return Err(Memory);
        }
        self.blocks[at].add(item)
    }

    // Adds a block of one at the place.
    fn add_block(&mut self, alloc: Global, at: usize, item: &PlacedPeriod) -> Result<(), Memory>
        requires { at ≤ length self.old.blocks.items }
        ensures kept { OnOk result
            ((other : Placed) → HasPlaced self.old other → HasPlaced self.new other) }
        ensures there { OnOk result (HasPlaced self.new item.now) }
    {
        let block = Block::one(alloc, item)?;
        self.blocks.insert(at, block)?;
        Ok(())
    }

    // Makes two blocks of the one at the place. An error may lose some of the items.
    fn split(&mut self, alloc: Global, at: usize) -> Result<(), Memory>
        requires { at < length self.old.blocks.items }
        ensures { OnOk result
            ((other : Placed) → HasPlaced self.old other → HasPlaced self.new other) }
    {
        let later = self.blocks[at].cut(alloc)?;
        self.blocks.insert(at + 1, later)?;
        Ok(())
    }

    /// Takes one out.
    pub fn take_out(&mut self, item: &PlacedPeriod)
        ensures { (other : Placed) → HasPlaced self.old other
            → (other ≡ item.now) ⊎ HasPlaced self.new other }
    {
        for at in 0..self.blocks.len() {
            if self.take_from(at, item) {
                return;
            }
        }
    }

    // Takes one out of the block at a place, and says whether it was there.
    fn take_from(&mut self, at: usize, item: &PlacedPeriod) -> bool
        ensures { (other : Placed) → HasPlaced self.old other
            → (other ≡ item.now) ⊎ HasPlaced self.new other }
    {
        if at >= self.blocks.len() || !self.blocks[at].may_meet(&item.period) {
            return false;
        }
        self.blocks[at].take_out(item)
    }

    /// Puts one for another of the same period, and says whether that was there.
    pub fn replace(&mut self, item: &PlacedPeriod, place: usize) -> bool
        ensures others { (other : Placed) → HasPlaced self.old other
            → (other ≡ item.now) ⊎ HasPlaced self.new other }
        ensures put { OnTrue result (HasPlaced self.new
            (record { period = item.now.period; place = place })) }
    {
        for at in 0..self.blocks.len() {
            if self.replace_in(at, item, place) {
                return true;
            }
        }
        false
    }

    // Puts one for another in the block at a place.
    fn replace_in(&mut self, at: usize, item: &PlacedPeriod, place: usize) -> bool
        ensures others { (other : Placed) → HasPlaced self.old other
            → (other ≡ item.now) ⊎ HasPlaced self.new other }
        ensures put { OnTrue result (HasPlaced self.new
            (record { period = item.now.period; place = place })) }
    {
        if at >= self.blocks.len() || !self.blocks[at].may_meet(&item.period) {
            return false;
        }
        self.blocks[at].replace(item, place)
    }
}
