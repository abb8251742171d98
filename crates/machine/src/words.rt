// Instructions on the words of the stack.
ghost use Rattle.std.specs.Prelude.{◌≡◌, suc, ◌+◌, ◌-◌, ◌<◌, ◌≤◌, MatchResult, slice_index_or, slice_set};
ghost use Rattle.kinds.specs.Words.{zero_word};
ghost use Rattle.code.specs.declared.instruction.Operation.TheVariants.{GetL, SetL, Pop, Jz};
ghost use Rattle.machine.specs.Machine.{execute, push, fetch_word, store_word, combine};
ghost use Rattle.machine.specs.Steps.{MakesOnWords, MakesAlone, word_image};

use crate::outcome::{Step, Stop};
use crate::state::Machine;
use kinds::NumberKind;
use stack::Stack;

impl Machine {
    // The index of the top.
    pub(crate) fn top(&self) -> Result<usize, Stop>
        ensures { MatchResult result (λ i. self.now.height ≡ i + 1)
            (λ stop. (stop ≡ Stop.Undefined) × (self.now.height ≡ 0)) }
    {
        self.height.checked_sub(1).ok_or(Stop::Undefined)
    }

    // The index of a slot of the frame, which lies on the stack.
    fn local(&self, slot: usize) -> Result<usize, Stop>
        ensures { MatchResult result (λ i. i ≡ self.now.base + slot)
            (λ stop. (stop ≡ Stop.Undefined) × (self.now.height ≤ self.now.base + slot)) }
    {
        if slot >= self.height.saturating_sub(self.base) {
            return Err(Stop::Undefined);
        }
        Ok(self.base + slot)
    }

    // Pushes a word; a full store takes none.
    pub(crate) fn push<W: NumberKind + Copy>(&mut self, words: &mut [W], word: W) -> Step
        ensures { MakesOnWords (push word) self.old words.old result
            self.new words.new }
    {
        if self.height >= words.len() {
            return Err(Stop::Undefined);
        }
        let mut stack = Stack::new(words, self.height);
        stack.push(word);
        self.height = stack.height();
        Ok(())
    }

    // Pushes word `i` of the stack.
    pub(crate) fn fetch_word<W: NumberKind + Copy>(&mut self, words: &mut [W], i: usize) -> Step
        ensures { MakesOnWords (fetch_word (word_image W.NumberKind.kind self.old) i)
            self.old words.old result self.new words.new }
    {
        if i >= self.height {
            return Err(Stop::Undefined);
        }
        let stack = Stack::new(words, self.height);
        let word = stack.get(i, W::literal(0));
        self.push(words, word)
    }

    // Copies the top into word `i`.
    pub(crate) fn copy_top<W: NumberKind + Copy>(&self, words: &mut [W], i: usize)
        ensures { words.new ≡ slice_set words.old i
            (slice_index_or words.old (self.now.height - 1) (zero_word W.NumberKind.kind)) }
    {
        let mut stack = Stack::new(words, self.height);
        let top = stack.pop(W::literal(0));
        stack.put(i, top);
    }

    // Stores the top, which stays, in word `i` under it.
    pub(crate) fn store_word<W: NumberKind + Copy>(&mut self, words: &mut [W], i: usize) -> Step
        ensures { MakesOnWords (store_word (word_image W.NumberKind.kind self.old) i)
            self.old words.old result self.new words.new }
    {
        if i >= self.top()? {
            return Err(Stop::Undefined);
        }
        self.copy_top(words, i);
        Ok(())
    }

    // Pushes a slot of the frame.
    pub(crate) fn get_local<W: NumberKind + Copy>(&mut self, words: &mut [W], slot: usize) -> Step
        ensures { MakesOnWords (execute (word_image W.NumberKind.kind self.old) (GetL slot) 0)
            self.old words.old result self.new words.new }
    {
        let i = self.local(slot)?;
        self.fetch_word(words, i)
    }

    // Stores the top, which stays, in a slot of the frame.
    pub(crate) fn set_local<W: NumberKind + Copy>(&mut self, words: &mut [W], slot: usize) -> Step
        ensures { MakesOnWords (execute (word_image W.NumberKind.kind self.old) (SetL slot) 0)
            self.old words.old result self.new words.new }
    {
        let i = self.local(slot)?;
        self.store_word(words, i)
    }

    // Are there two words?
    pub(crate) fn has_two(&self) -> Step
        ensures { MatchResult result (λ _. 2 ≤ self.now.height)
            (λ stop. (stop ≡ Stop.Undefined) × (self.now.height < 2)) }
    {
        if self.height < 2 {
            return Err(Stop::Undefined);
        }
        Ok(())
    }

    // The two topmost words, the upper one second.
    pub(crate) fn operands<W: NumberKind + Copy>(&self, words: &mut [W]) -> (W, W)
        requires { 2 ≤ self.now.height }
        ensures lower { result.0
            ≡ slice_index_or words.old (self.now.height - 2) (zero_word W.NumberKind.kind) }
        ensures upper { result.1
            ≡ slice_index_or words.old (suc (self.now.height - 2)) (zero_word W.NumberKind.kind) }
        ensures words { words.new ≡ words.old }
    {
        let zero = W::literal(0);
        let mut stack = Stack::new(words, self.height);
        let second = stack.pop(zero);
        let first = stack.pop(zero);
        (first, second)
    }

    // Puts a word in the place of the two topmost ones.
    pub(crate) fn replace_two<W: NumberKind + Copy>(&mut self, words: &mut [W], word: W)
        requires { 2 ≤ self.old.height }
        ensures words { words.new ≡ slice_set words.old (self.old.height - 2) word }
        ensures machine { self.new ≡ record self.old { height = self.old.height - 1 } }
    {
        let mut stack = Stack::new(words, self.height);
        stack.put(self.height - 2, word);
        self.height -= 1;
    }

    // Puts what `f` makes of the two topmost words in their place.
    pub(crate) fn combine<W: NumberKind + Copy, F: FnOnce(W, W) -> W>(
        &mut self,
        words: &mut [W],
        f: F,
    ) -> Step
        requires { F.IsAlwaysCallable f }
        ensures { (made : W → W → W)
            → ((x y z : W) → F.post f x y z → z ≡ made x y)
            → MakesOnWords (combine (word_image W.NumberKind.kind self.old) made)
            self.old words.old result self.new words.new }
    {
        self.has_two()?;
        let (first, second) = self.operands(words);
        self.replace_two(words, f(first, second));
        Ok(())
    }

    // Takes the top off.
    pub(crate) fn drop_word<W: NumberKind>(&mut self) -> Step
        ensures { MakesAlone (execute (word_image W.NumberKind.kind self.old) Pop 0)
            self.old result self.new }
    {
        self.height = self.top()?;
        Ok(())
    }

    // Takes the top off, and jumps if it is zero.
    pub(crate) fn jump_on_zero<W: NumberKind + Copy>(
        &mut self,
        words: &mut [W],
        target: usize,
    ) -> Step
        ensures { MakesOnWords (execute (word_image W.NumberKind.kind self.old) (Jz target) 0)
            self.old words.old result self.new words.new }
    {
        let top = self.top()?;
        let stack = Stack::new(words, self.height);
        let test = stack.get(top, W::literal(0));
        self.height = top;
        if test.is_zero() {
            self.pc = target;
        }
        Ok(())
    }
}
