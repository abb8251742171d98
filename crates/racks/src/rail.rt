// The rail rack: the first 4,096 of a list of floats that its owner lends.
ghost use Rattle.std.specs.Prelude.{◌≡◌, ◌<◌, ◌≤◌, length, take, Some, slice_set};
ghost use Rattle.std.specs.List.{slice_get};
ghost use Rattle.racks.specs.Loans.{lent};
ghost use Rattle.racks.specs.Makes.{holds_length};

use crate::rack::{BayFault, Rack, check_write};

#[derive(Drop)]
pub struct RailRack<'a> {
    floats: &'a mut [f64],
}

impl<'a> RailRack<'a> {
    pub fn new(floats: &'a mut [f64]) -> RailRack<'a>
        ensures list { result.floats.now ≡ floats.old }
        ensures lender { result.floats.ghost_name ≡ floats.entry.ghost_name }
    {
        RailRack { floats }
    }

    // The bays: what lies behind them is the lender's alone.
    fn bays(&self) -> &[f64]
        ensures { result.now ≡ take 4096 self.now.floats.now }
    {
        let floats: &[f64] = self.floats;
        &floats[..floats.len().min(4096)]
    }

    fn put(&mut self, slot: usize, word: f64)
        requires { slot < length (take 4096 self.old.floats.now) }
        ensures bays { take 4096 self.new.floats.now
            ≡ slice_set (take 4096 self.old.floats.now) slot word }
        ensures loan { lent self.new.floats.ghost_name self.new.floats.now
            ≡ lent self.old.floats.ghost_name self.old.floats.now }
    {
        self.floats[slot] = word;
    }
}

// Not-a-number is in no range.
fn in_range(word: f64) -> bool
    ensures { result ≡ holds_length word }
{
    -1_000_000.0 <= word && word <= 1_000_000.0
}

impl<'a> Rack for RailRack<'a> {
    type Word = f64;

    ghost bays = { λ r. take 4096 r.floats.now };

    ghost holds = { λ _. holds_length };

    ghost loan = { λ r. lent r.floats.ghost_name r.floats.now };

    fn length(&self) -> usize {
        self.bays().len()
    }

    fn read(&self, slot: usize) -> Option<f64> {
        self.bays().get(slot).copied()
    }

    fn write(&mut self, slot: usize, word: f64) -> Result<(), BayFault> {
        check_write(slot, self.length(), in_range(word))?;
        self.put(slot, word);
        Ok(())
    }
}
