// What a walk has to come to.
ghost use Rattle.std.specs.Prelude.{◌≡◌};

use script::{Ending, RunEnd};
use walk::Report;

/// How the walk ends, and the first names, words and bays that it leaves; a bay past the last is `None`.
#[derive(Clone, Copy)]
pub struct Wanted {
    pub ending: Ending,
    /// the record at which it ends, counted from 0; 0 where it is done
    pub place: usize,
    pub answer: Option<i32>,
    pub ticks: u32,
    pub names: [u16; 3],
    pub words: [i32; 3],
    pub bays: [Option<i32>; 3],
}

impl Wanted {
    /// The report of such a walk.
    pub fn report(&self) -> Report
        ensures end { result.end ≡ record { ending = self.now.ending; place = self.now.place } }
        ensures answer { result.answer ≡ self.now.answer }
        ensures ticks { result.ticks ≡ self.now.ticks }
    {
        Report {
            end: RunEnd {
                ending: self.ending,
                place: self.place,
            },
            answer: self.answer,
            ticks: self.ticks,
        }
    }
}
