// Code over any rack, and over a rack that its caller makes from a list of its own.
ghost use Rattle.std.specs.Prelude.{◌≡◌, ◌++◌, take, drop};
ghost use Rattle.std.specs.List.{slice_get};
ghost use Rattle.racks.specs.Makes.{holds_length};
ghost use Rattle.racks.specs.Writes.{copy_answer, copied};

use crate::rack::{BayFault, Rack};
use crate::rail::RailRack;

// Copies the word of one bay to another.
pub fn copy_bay<R: Rack>(rack: &mut R, from: usize, to: usize) -> Result<(), BayFault>
    ensures answer { result ≡ copy_answer (R.Rack.holds rack.old) (R.Rack.bays rack.old) to
        (slice_get (R.Rack.bays rack.old) from) }
    ensures bays { R.Rack.bays rack.new
        ≡ copied (R.Rack.holds rack.old) (R.Rack.bays rack.old) to
        (slice_get (R.Rack.bays rack.old) from) }
    ensures holds { R.Rack.holds rack.new ≡ R.Rack.holds rack.old }
    ensures loan { R.Rack.loan rack.new ≡ R.Rack.loan rack.old }
{
    let word = rack.read(from).ok_or(BayFault::NoSuchBay)?;
    rack.write(to, word)
}

// Copies one length to another in a list of any size, through a rail rack over it: what lies behind
// the 4,096 bays stays as it is.
pub fn copy_length(floats: &mut [f64], from: usize, to: usize) -> Result<(), BayFault>
    ensures answer { result ≡ copy_answer holds_length (take 4096 floats.old) to
        (slice_get (take 4096 floats.old) from) }
    ensures list { floats.new
        ≡ copied holds_length (take 4096 floats.old) to (slice_get (take 4096 floats.old) from)
        ++ drop 4096 floats.old }
{
    let mut rack = RailRack::new(floats);
    copy_bay(&mut rack, from, to)
}
