// Number kinds: what a word of a script, its word store and its bays is.
#![tactic(auto)]

pub mod counter;
pub mod facts;
pub mod rail;
#[cfg(test)]
mod tests;

ghost use Rattle.std.specs.Prelude.{◌≡◌};
ghost use Rattle.kinds.specs.Kinds.{Kind};
ghost use Rattle.kinds.specs.Words.{truth_word};

// A number kind is six functions of their operands alone: `kind` says which they are.
pub trait NumberKind: Sized {
    ghost kind: { Kind Self };

    // The word that stands for the number `n` of a script.
    fn literal(n: i32) -> Self
        ensures { result ≡ kind.literal n };

    fn sum(self, other: Self) -> Self
        ensures { result ≡ kind.sum self other };

    // This word less the other.
    fn difference(self, other: Self) -> Self
        ensures { result ≡ kind.difference self other };

    // Whether this word is greater than the other.
    fn greater(self, other: Self) -> bool
        ensures { result ≡ kind.greater self other };

    fn is_zero(self) -> bool
        ensures { result ≡ kind.zero self };

    // The slot that the word names: 0 to 4,095, or none.
    fn slot(self) -> Option<usize>
        ensures { result ≡ kind.slot self };
}

// A test as a word: literal 1 where it holds, literal 0 where it does not.
pub fn truth<W: NumberKind>(test: bool) -> W
    ensures { result ≡ truth_word W.NumberKind.kind test }
{
    W::literal(i32::from(test))
}
