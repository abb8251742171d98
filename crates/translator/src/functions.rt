// Code of functions, and what else is kept beside it.
ghost use Rattle.std.specs.Prelude.{◌≡◌, ◌+◌, ◌*◌, ◌≤◌, ◌++◌, length, vec_len, vec_capacity};
ghost use Rattle.stack.specs.Store.{capacity};
ghost use Rattle.script.specs.declared.rows.Sort.TheVariants.{Declaration};
ghost use Rattle.script.specs.declared.rows.NodeKind.TheVariants as is;
ghost use Rattle.syntax.specs.Trees.{Part, Parts};
ghost use Rattle.syntax.specs.Typed.{node_at};

use crate::emitter::Emitter;
use code::instruction::{FunctionEntry, Operation};
use script::rows::NodeKind;
use syntax::parts::{node_kind, part_count};

impl Emitter<'_, '_> {
    ghost use Rattle.translator.specs.Emitting.{HasRoomForFunctions, SameLoans, Emits, size_here, sizes_here};
    ghost use Rattle.translator.specs.Emitting.{function_here, functions_here, entries_here, numbers_here};

    // The function at `at`: the index after it.
    fn function(&mut self, at: usize) -> usize
        requires part { Part self.old.context.table.records.now at Declaration }
        requires kind { node_at self.old.context.table.records.now at ≡ is.Function }
        requires room { HasRoomForFunctions self.old (size_here self.old at) }
        ensures items { Emits self.old self.new (function_here self.old at) }
        ensures bound { vec_len self.new.code.now
            ≤ vec_len self.old.code.now + 4 * size_here self.old at }
        ensures loans { SameLoans self.old self.new }
        ensures next { result ≡ at + size_here self.old at }
    {
        let count = part_count(self.context.table.records[at]);
        self.leave = Operation::Ret;
        self.scope.cut(0);
        self.bind(count, at + 1);
        let next = self.statement(at + 1 + count);
        self.append(Operation::Pop, at);
        self.append(Operation::Lit(0), at);
        self.append(Operation::Ret, at);
        next
    }

    // `count` global declarations from `first` on: the code and the entry of each function, the first number of each
    // variable. The index after a function comes from its code, so that no part is read twice: no iterator gives it.
    pub fn declarations(
        &mut self,
        count: usize,
        first: usize,
        entries: &mut Vec<FunctionEntry>,
        numbers: &mut Vec<i32>,
    )
        requires parts { Parts self.old.context.table.records.now first count Declaration }
        requires room { HasRoomForFunctions self.old (sizes_here self.old first count) }
        requires free { (vec_len entries.old + count ≤ vec_capacity entries.old) × (vec_len numbers.old + count ≤ vec_capacity numbers.old) }
        ensures items { Emits self.old self.new (functions_here self.old first count) }
        ensures bound { vec_len self.new.code.now
            ≤ vec_len self.old.code.now + 4 * sizes_here self.old first count }
        ensures entry { entries.new.items ≡ entries.old.items ++ entries_here self.old first count }
        ensures number { numbers.new.items ≡ numbers.old.items ++ numbers_here self.old first count }
        ensures loans { SameLoans self.old self.new }
        ensures capacity { (vec_capacity entries.new ≡ vec_capacity entries.old) × (vec_capacity numbers.new ≡ vec_capacity numbers.old) }
    {
        let mut at = first;
        for _ in 0..count {
            let node = self.context.table.records[at];
            at = match node_kind(node) {
                NodeKind::Function => {
                    entries.push_reserved(FunctionEntry {
                        start: self.code.len(),
                        parameters: part_count(node),
                    });
                    self.function(at)
                }
                _ => {
                    numbers.push_reserved(node.v);
                    at + 1
                }
            };
        }
    }
}
