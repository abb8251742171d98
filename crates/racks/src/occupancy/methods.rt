// What can be done with an occupancy rack.
ghost use Rattle.std.specs.Prelude.{◌≡◌, ◌<◌, ◌≤◌, min, true, length, replicate, pos, Some, slice_set};
ghost use Rattle.std.specs.List.{slice_get};
ghost use Rattle.racks.specs.Loans.{nothing_lent};
ghost use Rattle.racks.specs.Makes.{occupancy_bays, holds_bit};

use crate::occupancy::OccupancyRack;
use crate::rack::{BayFault, Rack, check_write};

impl OccupancyRack {
    // `n` bays without a mark; a larger `n` counts as 4,096.
    pub fn new(n: usize) -> OccupancyRack
        ensures { occupancy_bays result ≡ replicate (min n 4096) (pos 0) }
    {
        OccupancyRack::zeros(n.min(4096))
    }

    fn zeros(count: usize) -> OccupancyRack
        requires { count ≤ 4096 }
        ensures { occupancy_bays result ≡ replicate count (pos 0) }
    {
        OccupancyRack {
            words: [0; 64],
            count,
        }
    }

    fn bay_count(&self) -> usize
        ensures value { result ≡ length (occupancy_bays self.now) }
        ensures bound { result ≤ 4096 }
    {
        self.count
    }

    #[tactic(auto, using(crate::proofs::Packed::word_below))]
    fn word_at(&self, slot: usize) -> i32
        requires { slot < length (occupancy_bays self.now) }
        ensures { Some result ≡ slice_get (occupancy_bays self.now) slot }
    {
        i32::from((self.words[slot / 64] >> (slot % 64)) & 1 == 1)
    }

    #[tactic(auto, using(crate::proofs::Packed::word_below))]
    fn put(&mut self, slot: usize, word: i32)
        requires below { slot < length (occupancy_bays self.old) }
        requires bit { holds_bit word ≡ true }
        ensures { occupancy_bays self.new ≡ slice_set (occupancy_bays self.old) slot word }
    {
        let mask = 1u64 << (slot % 64);
        let old = self.words[slot / 64];
        if word == 0 {
            self.words[slot / 64] = old & !mask;
        } else {
            self.words[slot / 64] = old | mask;
        }
    }
}

fn is_bit(word: i32) -> bool
    ensures { result ≡ holds_bit word }
{
    matches!(word, 0 | 1)
}

impl Rack for OccupancyRack {
    type Word = i32;

    ghost bays = { occupancy_bays };

    ghost holds = { λ _. holds_bit };

    ghost loan = { λ _. nothing_lent };

    fn length(&self) -> usize {
        self.bay_count()
    }

    fn read(&self, slot: usize) -> Option<i32> {
        (slot < self.length()).then(|| self.word_at(slot))
    }

    fn write(&mut self, slot: usize, word: i32) -> Result<(), BayFault> {
        check_write(slot, self.length(), is_bit(word))?;
        self.put(slot, word);
        Ok(())
    }
}
