// What emits the code of bodies: instructions at the end of the code so far, and names on top of those in scope.
ghost use Rattle.std.specs.Prelude.{◌≡◌, ◌+◌, ◌<◌, ◌≤◌, [], ◌∷◌, ◌++◌, map, replicate, vec_len, vec_capacity, slice_set};
ghost use Rattle.stack.specs.Store.{contents, capacity};
ghost use Rattle.syntax.specs.Syntax.{name_of};
ghost use Rattle.syntax.specs.Trees.{LeafParts};
ghost use Rattle.syntax.specs.Typed.{variables_at};
ghost use Rattle.code.specs.declared.instruction.Operation.TheVariants.{Pop};
ghost use Rattle.code.specs.Scheme.{op};

use code::instruction::{Instruction, Operation};
use names::Context;
use stack::Stack;

// The names in scope lie on a stack, newest on top.
#[derive(Drop)]
pub struct Emitter<'a, 'b> {
    pub context: Context<'a>,
    pub scope: &'a mut Stack<'b, u16>,
    pub code: &'a mut Vec<Instruction>,
    // what a return ends with
    pub leave: Operation,
}

impl Emitter<'_, '_> {
    ghost use Rattle.translator.specs.Emitting.{SameLoans, Keeps, Emits};

    // One instruction of the node at `place`.
    pub fn append(&mut self, operation: Operation, place: usize)
        requires { vec_len self.old.code.now < vec_capacity self.old.code.now }
        ensures items { Emits self.old self.new (op place operation ∷ []) }
        ensures len { vec_len self.new.code.now ≡ vec_len self.old.code.now + 1 }
        ensures keeps { Keeps self.old self.new }
    {
        self.code.push_reserved(Instruction { operation, place });
    }

    // Another instruction at `hole`.
    pub fn patch(&mut self, hole: usize, operation: Operation, place: usize)
        requires { hole < vec_len self.old.code.now }
        ensures items { self.new.code.now.items
            ≡ slice_set self.old.code.now.items hole (op place operation) }
        ensures len { vec_len self.new.code.now ≡ vec_len self.old.code.now }
        ensures keeps { Keeps self.old self.new }
    {
        self.code[hole] = Instruction { operation, place };
    }

    // A POP for each of `count` locals.
    pub fn append_pops(&mut self, count: usize, place: usize)
        requires { vec_len self.old.code.now + count ≤ vec_capacity self.old.code.now }
        ensures items { Emits self.old self.new (replicate count (op place Pop)) }
        ensures len { vec_len self.new.code.now ≡ vec_len self.old.code.now + count }
        ensures keeps { Keeps self.old self.new }
    {
        for _ in 0..count {
            self.append(Operation::Pop, place);
        }
    }

    // Binds the names of `count` declarations, a record each from `at` on.
    pub fn bind(&mut self, count: usize, at: usize)
        requires parts { LeafParts self.old.context.table.records.now at count }
        requires names { self.old.scope.now.height + count ≤ capacity self.old.scope.now }
        ensures bound { contents self.new.scope.now
            ≡ contents self.old.scope.now
            ++ map name_of (variables_at self.old.context.table.records.now at count) }
        ensures height { self.new.scope.now.height ≡ self.old.scope.now.height + count }
        ensures code { self.new.code.now ≡ self.old.code.now }
        ensures leave { self.new.leave ≡ self.old.leave }
        ensures loans { SameLoans self.old self.new }
    {
        for node in &self.context.table.records[at..at + count] {
            self.scope.push(node.a);
        }
    }
}
