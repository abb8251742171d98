// What a rack is to the code above it.
ghost use Rattle.std.specs.Prelude.{◌≡◌, ◌≤◌, Bool, List, length, nat_lt};
ghost use Rattle.std.specs.List.{slice_get};
ghost use Rattle.racks.specs.Faults.{ending_of};
ghost use Rattle.racks.specs.Loans.{Loan};
ghost use Rattle.racks.specs.Writes.{answer_of, write_answer, written};

use kinds::NumberKind;
use script::Ending;

// Why a write was refused. There is no third reason.
#[derive(Clone, Copy, PartialEq, Eq, Debug)]
pub enum BayFault {
    NoSuchBay,
    CannotHold,
}

// How a run ends whose bay was refused.
impl From<BayFault> for Ending {
    ghost from_gives = { λ fault ending. ending ≡ ending_of fault };

    fn from(fault: BayFault) -> Ending {
        match fault {
            BayFault::NoSuchBay => Ending::NoSuchBay,
            BayFault::CannotHold => Ending::CannotHold,
        }
    }
}

// Why a write is refused, if it is: that there is such a bay is tested first.
pub(crate) fn check_write(slot: usize, length: usize, holds: bool) -> Result<(), BayFault>
    ensures { result ≡ answer_of (nat_lt slot length) holds }
{
    if slot >= length {
        return Err(BayFault::NoSuchBay);
    }
    if !holds {
        return Err(BayFault::CannotHold);
    }
    Ok(())
}

// A rack is a list of words of one number kind, `bays`, and a yes or no for each word: can a bay
// hold it, `holds`. A list that was lent to the rack goes back as `loan` says. That both stay over a call relates two
// moments, so it is a clause of each call and no invariant.
pub trait Rack {
    type Word: NumberKind + Copy;

    ghost bays: { Self → List Self.Word };

    ghost holds: { Self → Self.Word → Bool };

    ghost loan: { Self → Loan Self.Word };

    // How many bays there are.
    fn length(&self) -> usize
        ensures value { result ≡ length (bays self.now) }
        ensures bound { result ≤ 4096 };

    // The word in a bay, or none where there is no such bay.
    fn read(&self, slot: usize) -> Option<Self::Word>
        ensures { result ≡ slice_get (bays self.now) slot };

    // Puts a word into a bay, and changes nothing else; a refusal changes nothing at all. Each rack tests, then puts: a
    // body here would need that put as a method of the trait, public and with a requires.
    fn write(&mut self, slot: usize, word: Self::Word) -> Result<(), BayFault>
        ensures answer { result ≡ write_answer (holds self.old) (bays self.old) slot word }
        ensures bays { bays self.new
            ≡ written (holds self.old) (bays self.old) slot word }
        ensures holds { holds self.new ≡ holds self.old }
        ensures loan { loan self.new ≡ loan self.old };
}
