// A walker: the table that it walks, what was lent to it, and how far it has come.
ghost use Rattle.std.specs.Prelude.{◌≤◌, length};

use racks::BayTable;
use script::Record;

// The first `bound` of the names and words are the bindings that stand, oldest first; `fuel` is left.
// At most `depth` calls may be open at once. Names and words lie in two slices, since two are lent and go back so.
#[derive(Drop)]
pub struct Walker<'a> {
    pub table: &'a [Record],
    pub depth: usize,
    pub names: &'a mut [u16],
    pub words: &'a mut [i32],
    pub bays: &'a mut BayTable,
    pub bound: usize,
    pub fuel: u32,
    ghost names_fit: { bound ≤ length names.now },
    ghost words_fit: { bound ≤ length words.now },
}
