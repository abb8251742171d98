// What can be done with a bay table.
ghost use Rattle.std.specs.Prelude.{◌≡◌, ◌<◌, ◌≤◌, min, true, length, replicate, pos, Some, slice_set};
ghost use Rattle.std.specs.List.{slice_get};
ghost use Rattle.racks.specs.Loans.{nothing_lent};
ghost use Rattle.racks.specs.Makes.{table_bays};

use crate::rack::{BayFault, Rack, check_write};
use crate::table::BayTable;

impl BayTable {
    // A table of `n` zeros; a larger `n` counts as 256.
    pub fn new(n: usize) -> BayTable
        ensures { table_bays result ≡ replicate (min n 256) (pos 0) }
    {
        BayTable::zeros(n.min(256))
    }

    fn zeros(count: usize) -> BayTable
        requires { count ≤ 256 }
        ensures { table_bays result ≡ replicate count (pos 0) }
    {
        BayTable {
            words: [0; 256],
            count,
        }
    }

    fn bays(&self) -> &[i32]
        ensures { result.now ≡ table_bays self.now }
    {
        &self.words[..self.count]
    }

    fn put(&mut self, slot: usize, word: i32)
        requires { slot < length (table_bays self.old) }
        ensures { table_bays self.new
            ≡ slice_set (table_bays self.old) slot word }
    {
        self.words[slot] = word;
    }
}

impl Rack for BayTable {
    type Word = i32;

    ghost bays = { table_bays };

    ghost holds = { λ _ _. true };

    ghost loan = { λ _. nothing_lent };

    fn length(&self) -> usize {
        self.bays().len()
    }

    fn read(&self, slot: usize) -> Option<i32> {
        self.bays().get(slot).copied()
    }

    fn write(&mut self, slot: usize, word: i32) -> Result<(), BayFault> {
        check_write(slot, self.length(), true)?;
        self.put(slot, word);
        Ok(())
    }
}
