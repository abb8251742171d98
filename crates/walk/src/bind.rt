// Bindings on top of those that stand, over what dropped ones have left there. Room is asked of each slice by itself: a
// record of both clauses would be put together again by each caller, for no fewer words.
ghost use Rattle.std.specs.Prelude.{◌≡◌, ◌+◌, ◌<◌, ◌≤◌, map, reverse, length};
ghost use Rattle.kinds.specs.Counter.{counter};
ghost use Rattle.script.specs.declared.record.Record.{Record};
ghost use Rattle.syntax.specs.Syntax.{name_of};
ghost use Rattle.syntax.specs.Trees.{pieces, Leaves};
ghost use Rattle.syntax.specs.Typed.{variables_at};
ghost use Rattle.treerun.specs.TreeRun.{bind_variables, bind_parameters};
ghost use Rattle.walk.specs.Lent.{lent_in, state, pushed, Same, Bound};

use crate::walker::Walker;
use script::Record;

// The names and words that records declare, one a place. By an index, as in an argument list; out of line, so that a
// nested block takes little room for this loop.
#[inline(never)]
fn write_variables(nodes: &[Record], names: &mut [u16], words: &mut [i32])
    requires names { length names.old ≡ length nodes.now }
    requires words { length words.old ≡ length nodes.now }
    ensures names { names.new ≡ map (λ (node : Record). node.a) nodes.now }
    ensures words { words.new ≡ map (λ (node : Record). node.v) nodes.now }
{
    for (i, node) in nodes.iter().enumerate() {
        names[i] = node.a;
        words[i] = node.v;
    }
}

impl<'a> Walker<'a> {
    // One binding.
    pub fn push(&mut self, name: u16, word: i32)
        requires names { self.old.bound < length self.old.names.now }
        requires words { self.old.bound < length self.old.words.now }
        ensures bound { state (lent_in self.new) ≡ pushed name word (state (lent_in self.old)) }
        ensures progress { Bound self.old self.new 1 }
        ensures same { Same self.old self.new }
    {
        let top = self.bound;
        self.names[top] = name;
        self.words[top] = word;
        self.bound = top + 1;
    }

    // The variable that a record declares.
    pub fn declare_one(&mut self, node: Record)
        requires names { self.old.bound < length self.old.names.now }
        requires words { self.old.bound < length self.old.words.now }
        ensures bound { state (lent_in self.new) ≡ pushed node.a node.v (state (lent_in self.old)) }
        ensures progress { Bound self.old self.new 1 }
        ensures same { Same self.old self.new }
    {
        self.push(node.a, node.v);
    }

    // The variables declared by `count` records from `at`.
    pub fn declare(&mut self, at: usize, count: usize)
        requires inside { at ≤ length self.old.table.now }
        requires plain { Leaves count (pieces self.old.table.now at count) }
        requires names { self.old.bound + count ≤ length self.old.names.now }
        requires words { self.old.bound + count ≤ length self.old.words.now }
        ensures bound { state (lent_in self.new)
            ≡ bind_variables counter (variables_at self.old.table.now at count)
            (state (lent_in self.old)) }
        ensures progress { Bound self.old self.new count }
        ensures same { Same self.old self.new }
    {
        let table = self.table;
        let top = self.bound;
        let end = top + count;
        let names = &mut self.names[top..end];
        let words = &mut self.words[top..end];
        write_variables(&table[at..at + count], names, words);
        self.bound = end;
    }

    // The parameters declared by the records from `at`, with the words given.
    pub fn bind(&mut self, at: usize, given: &[i32])
        requires inside { at ≤ length self.old.table.now }
        requires plain { Leaves (length given.now) (pieces self.old.table.now at (length given.now)) }
        requires names { self.old.bound + length given.now ≤ length self.old.names.now }
        requires words { self.old.bound + length given.now ≤ length self.old.words.now }
        ensures bound { state (lent_in self.new)
            ≡ bind_parameters (map name_of (variables_at self.old.table.now at (length given.now)))
            (reverse given.now) (state (lent_in self.old)) }
        ensures progress { Bound self.old self.new (length given.now) }
        ensures same { Same self.old self.new }
    {
        let table = self.table;
        for (node, word) in table[at..].iter().zip(given) {
            self.push(node.a, *word);
        }
    }
}
