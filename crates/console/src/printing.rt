// How a list of words is printed, wherever they come from.
ghost use Rattle.std.specs.Iterator.{IsFinite};

use racks::Rack;
use std::{fmt, io};

// An empty list prints its name alone.
pub fn print_list<T: fmt::Display + Drop, I: Iterator<Item = T> + Drop>(
    rt: &impl Print,
    name: &str,
    words: I,
) -> io::Result<()>
    requires can { I.can_next words }
    requires ends { IsFinite (I.remaining words) }
{
    print!(rt; "{name}")?;
    for word in words {
        print!(rt; " {word}")?;
    }
    println!(rt)
}

pub fn print_bays<W: fmt::Display + Drop, R: Rack<Word = W>>(
    rt: &impl Print,
    rack: &R,
) -> io::Result<()> {
    let bays = (0..rack.length()).filter_map(|slot| rack.read(slot));
    print_list(rt, "bays", bays)
}
