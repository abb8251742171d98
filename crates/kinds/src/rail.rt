// The rail kind: the 64-bit binary float, in millimetres.
ghost use Rattle.std.specs.Prelude.{◌≡◌, ◌<◌};
ghost use Rattle.kinds.specs.Rail.{rail, whole_up_to};

use crate::NumberKind;
use std::num::saturating_f64_to_u16;

impl NumberKind for f64 {
    ghost kind = { rail };

    // Exact: a float holds every whole number of up to 53 bits.
    fn literal(n: i32) -> f64 {
        f64::from(n)
    }

    fn sum(self, other: f64) -> f64 {
        self + other
    }

    fn difference(self, other: f64) -> f64 {
        self - other
    }

    fn greater(self, other: f64) -> bool {
        self > other
    }

    // Minus zero equals zero.
    fn is_zero(self) -> bool {
        self == Self::literal(0)
    }

    fn slot(self) -> Option<usize> {
        whole_up_to(self, 4095)
    }
}

// The float as a whole number from 0 to `last`, or none: what differs from its whole part has none.
fn whole_up_to(x: f64, last: u16) -> Option<usize>
    requires { last < 65535 }
    ensures { result ≡ whole_up_to last x }
{
    let whole = saturating_f64_to_u16(x);
    (f64::from(whole) == x && whole <= last).then_some(usize::from(whole))
}
