// What is promised of every list of calls: a function that only carries the theorem.
ghost use Rattle.std.specs.Prelude.{Bool};
ghost use Rattle.cell.specs.Promises.{Promises};

use kinds::NumberKind;

// That the promises are kept at every number kind, whatever words a bay can hold.
pub fn promises_stand<W: NumberKind>()
    ensures { (holds : W → Bool) → Promises W.NumberKind.kind holds }
{}
