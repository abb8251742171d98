// Why a call is refused.
ghost use Rattle.std.specs.Prelude.{◌≡◌};
ghost use Rattle.script.specs.Refusals.{number, tells, unless};

#[derive(Clone, Copy, PartialEq, Eq, Debug)]
pub enum Refusal {
    // The table has no record, or more than 1,024.
    TableSize,
    // The kind of this record is unknown, or not wanted where the record stands.
    UnexpectedKind(usize),
    // A field of this record is outside its bounds.
    FieldOutOfBounds(usize),
    // Parts are missing where the table ends: its record count.
    EndsEarly(usize),
    // The program is complete before the table ends: the first record after it.
    LeftOver(usize),
    // A name is declared twice: the second of the two records.
    DeclaredTwice(usize),
    // This record uses a variable or a function that is not declared.
    Undeclared(usize),
    // This call has more or fewer arguments than its function has parameters.
    ArgumentCount(usize),
    // A frame would need more than 100 words.
    FrameNeed,
    // The fuel is over 1,000,000 or the depth over 63.
    FuelOrDepth,
    // A lent slice is too short: how many elements are wanted.
    TooFewWords(usize),
    // The call is not one for the state that the cell is in.
    WrongState,
}

impl Refusal {
    // The number by which controllers know the refusal.
    pub fn number(&self) -> u8
        ensures { result ≡ number self.now }
    {
        match *self {
            Refusal::TableSize => 1,
            Refusal::UnexpectedKind(_) => 2,
            Refusal::FieldOutOfBounds(_) => 3,
            Refusal::EndsEarly(_) | Refusal::LeftOver(_) => 4,
            Refusal::DeclaredTwice(_) => 5,
            Refusal::Undeclared(_) => 6,
            Refusal::ArgumentCount(_) => 7,
            Refusal::FrameNeed => 8,
            Refusal::FuelOrDepth => 9,
            Refusal::TooFewWords(_) => 10,
            Refusal::WrongState => 11,
        }
    }

    // Where the fault is: a record or a count, and 0 where there is nothing to tell.
    pub fn tells(&self) -> usize
        ensures { result ≡ tells self.now }
    {
        match *self {
            Refusal::UnexpectedKind(record)
            | Refusal::FieldOutOfBounds(record)
            | Refusal::LeftOver(record)
            | Refusal::DeclaredTwice(record)
            | Refusal::Undeclared(record)
            | Refusal::ArgumentCount(record) => record,
            Refusal::EndsEarly(count) => count,
            Refusal::TooFewWords(wanted) => wanted,
            Refusal::TableSize | Refusal::FrameNeed | Refusal::FuelOrDepth | Refusal::WrongState =>
                0,
        }
    }
}

// A test, and the refusal where it does not hold.
pub fn unless(holds: bool, refusal: Refusal) -> Result<(), Refusal>
    ensures { result ≡ unless holds refusal }
{
    if holds { Ok(()) } else { Err(refusal) }
}
