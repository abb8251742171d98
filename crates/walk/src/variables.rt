// A name means its newest binding.
ghost use Rattle.std.specs.Prelude.{◌≡◌, ◌<◌, pos, IfSome};
ghost use Rattle.syntax.specs.Syntax.{locate};
ghost use Rattle.treerun.specs.TreeRun.{look_up, store, with_words};
ghost use Rattle.walk.specs.Lent.{lent_in, state, Same, Bound};

use crate::walker::Walker;
use names::find::find;

impl<'a> Walker<'a> {
    // The place of a name's newest binding.
    fn place(&self, name: u16) -> Option<usize>
        ensures place { result ≡ locate name (state (lent_in self.now)).names }
        ensures below { IfSome result (λ i. i < self.now.bound) }
    {
        find(&self.names[..self.bound], name)
    }

    // The word of a name; 0 where it has no binding, which an accepted program never asks.
    pub fn word_of(&self, name: u16) -> i32
        ensures { result ≡ look_up (pos 0) name (state (lent_in self.now)).names
            (state (lent_in self.now)).words }
    {
        self.place(name).map_or(0, |i| self.words[i])
    }

    // A name's binding gets a word.
    pub fn assign(&mut self, name: u16, word: i32)
        ensures bindings { state (lent_in self.new)
            ≡ with_words (store name word (state (lent_in self.old)).names (state (lent_in self.old)).words)
            (state (lent_in self.old)) }
        ensures progress { Bound self.old self.new 0 }
        ensures same { Same self.old self.new }
    {
        if let Some(i) = self.place(name) {
            self.words[i] = word;
        }
    }
}
