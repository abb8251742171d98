// A stack of any words that can be copied, over a slice that its owner lends.
// Every method is total: what lies outside the store is not read or written. A popped word stays until overwritten.
// A read gives the caller's own `none` there and no Option, so that a caller within the store has no case that cannot be.
#![tactic(auto)]

ghost use Rattle.std.specs.Prelude.{◌≡◌, ◌+◌, ◌-◌, length, slice_index_or, slice_set};
ghost use Rattle.stack.specs.Store.{raised, contents};

/// A stack over words that are lent to it. That the lender stays relates two moments, so it is a clause of each method.
#[derive(Drop)]
pub struct Stack<'a, T> {
    words: &'a mut [T],
    height: usize,
}

impl<'a, T: Copy> Stack<'a, T> {
    /// The stack of the first `height` of `words`.
    pub fn new(words: &'a mut [T], height: usize) -> Stack<'a, T>
        ensures lender { result.words.ghost_name ≡ words.entry.ghost_name }
        ensures words { result.words.now ≡ words.old }
        ensures height { result.height ≡ height }
    {
        Stack { words, height }
    }

    /// How many words are live.
    pub fn height(&self) -> usize
        ensures { result ≡ self.now.height }
    {
        self.height
    }

    /// The word at `i`, or `none` where the store has none there.
    pub fn get(&self, i: usize, none: T) -> T
        ensures { result ≡ slice_index_or self.now.words.now i none }
    {
        self.words.get(i).copied().unwrap_or(none)
    }

    /// Replaces the word at `i`, where the store has one there.
    pub fn put(&mut self, i: usize, x: T)
        ensures lender { self.new.words.ghost_name ≡ self.old.words.ghost_name }
        ensures words { self.new.words.now ≡ slice_set self.old.words.now i x }
        ensures height { self.new.height ≡ self.old.height }
    {
        // a slice's get_mut says nothing of what is written through it
        if i < self.words.len() {
            self.words[i] = x;
        }
    }

    /// The word at `k` above `base`, or `none` where the store has none there. `get` cannot say that of a sum past the
    /// largest index.
    pub fn get_above(&self, base: usize, k: usize, none: T) -> T
        ensures { result ≡ slice_index_or self.now.words.now (base + k) none }
    {
        // no slice is so long that a sum past the largest index is in it
        self.get(base.saturating_add(k), none)
    }

    /// Replaces the word at `k` above `base`, where the store has one there: at any two numbers, as `get_above`.
    pub fn put_above(&mut self, base: usize, k: usize, x: T)
        ensures lender { self.new.words.ghost_name ≡ self.old.words.ghost_name }
        ensures words { self.new.words.now ≡ slice_set self.old.words.now (base + k) x }
        ensures height { self.new.height ≡ self.old.height }
    {
        self.put(base.saturating_add(k), x)
    }

    /// Puts `x` on top, where there is room.
    pub fn push(&mut self, x: T)
        ensures lender { self.new.words.ghost_name ≡ self.old.words.ghost_name }
        ensures words { self.new.words.now
            ≡ slice_set self.old.words.now self.old.height x }
        ensures height { self.new.height
            ≡ raised self.old.height (length self.old.words.now) }
    {
        if self.height < self.words.len() {
            self.words[self.height] = x;
            self.height += 1;
        }
    }

    /// Takes the top word off, or gives `none`; the store keeps it.
    pub fn pop(&mut self, none: T) -> T
        ensures value { result ≡ slice_index_or self.old.words.now (self.old.height - 1) none }
        ensures lender { self.new.words.ghost_name ≡ self.old.words.ghost_name }
        ensures words { self.new.words.now ≡ self.old.words.now }
        ensures height { self.new.height ≡ self.old.height - 1 }
    {
        let top = self.height.saturating_sub(1);
        self.height = top;
        self.get(top, none)
    }

    /// The live words, oldest first.
    pub fn live(&self) -> &[T]
        ensures { result.now ≡ contents self.now }
    {
        let words: &[T] = self.words;
        &words[..self.height.min(words.len())]
    }

    /// Drops what lies above `to`.
    pub fn cut(&mut self, to: usize)
        ensures lender { self.new.words.ghost_name ≡ self.old.words.ghost_name }
        ensures words { self.new.words.now ≡ self.old.words.now }
        ensures height { self.new.height ≡ to }
    {
        self.height = to;
    }
}
