// The counter kind: the signed 32-bit number.
ghost use Rattle.std.specs.Prelude.{◌≡◌, ◌+ℤ◌, ◌-ℤ◌};
ghost use Rattle.std.specs.Int.{int_wrap, w32};
ghost use Rattle.kinds.specs.Counter.{counter};

use crate::NumberKind;

impl NumberKind for i32 {
    ghost kind = { counter };

    fn literal(n: i32) -> i32 {
        n
    }

    fn sum(self, other: i32) -> i32 {
        wrapping_sum(self, other)
    }

    fn difference(self, other: i32) -> i32 {
        wrapping_difference(self, other)
    }

    fn greater(self, other: i32) -> bool {
        self > other
    }

    fn is_zero(self) -> bool {
        self == 0
    }

    fn slot(self) -> Option<usize> {
        usize::try_from(self).ok().filter(|slot| *slot <= 4095)
    }
}

// The wrapping operations, whose own contracts speak of bits, as whole numbers wrapped round.
fn wrapping_sum(a: i32, b: i32) -> i32
    ensures { result ≡ int_wrap w32 (a +ℤ b) }
{
    a.wrapping_add(b)
}

fn wrapping_difference(a: i32, b: i32) -> i32
    ensures { result ≡ int_wrap w32 (a -ℤ b) }
{
    a.wrapping_sub(b)
}
