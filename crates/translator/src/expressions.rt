// Code of expressions: an expression and an argument list, in a ring of recursive functions, as checker and walk are.
// How many parts there are, and from where on, differs from call to call in both rings: they make no value.
ghost use Rattle.std.specs.Prelude.{◌≡◌, ◌+◌, ◌≤◌, reverse, vec_len, vec_capacity};
ghost use Rattle.stack.specs.Store.{contents};
ghost use Rattle.script.specs.declared.rows.Sort.TheVariants.{Expression};
ghost use Rattle.syntax.specs.Syntax.{locate};
ghost use Rattle.syntax.specs.Trees.{Part, Parts};
ghost use Rattle.code.specs.Scheme.{function_index};

use crate::emitter::Emitter;
use code::instruction::Operation;
use names::Signature;
use names::find::find;
use script::Record;
use script::rows::NodeKind;
use syntax::parts::{node_kind, part_count};

// How many functions stand before the first of a name. All stand before a name that is not declared, which no accepted
// program calls.
fn function_index(functions: &[Signature], name: u16) -> usize
    ensures { result ≡ function_index name functions.now }
{
    functions
        .iter()
        .position(|f| f.name == name)
        .unwrap_or(functions.len())
}

impl Emitter<'_, '_> {
    ghost use Rattle.translator.specs.Emitting.{Keeps, Emits, IsVariableOperation, size_here, sizes_here};
    ghost use Rattle.translator.specs.Emitting.{operation_here, expression_here, arguments_here};

    // The operation on a variable: a name of the frame, or else a global. Of a name that is neither, which no accepted
    // program uses, it is POP.
    fn variable<L: Fn(usize) -> Operation, G: Fn(usize) -> Operation>(
        &self,
        name: u16,
        local: L,
        global: G,
    ) -> Operation
        requires local { L.IsAlwaysCallable local }
        requires global { G.IsAlwaysCallable global }
        ensures { IsVariableOperation (L.post local) (G.post global)
            (locate name (reverse (contents self.now.scope.now)))
            (locate name (reverse self.now.context.globals.now)) result }
    {
        match find(self.scope.live(), name) {
            Some(slot) => local(slot),
            None => find(self.context.globals, name).map_or(Operation::Pop, global),
        }
    }

    // The operation of an expression's own record, which comes after its parts. No other record is an expression's.
    fn operation(&self, node: Record) -> Operation
        ensures { result ≡ operation_here self.now node }
    {
        match node_kind(node) {
            NodeKind::Number => Operation::Lit(node.v),
            NodeKind::Variable => self.variable(node.a, Operation::GetL, Operation::GetG),
            NodeKind::TwoPart(two) => Operation::from(two),
            NodeKind::Assignment => self.variable(node.a, Operation::SetL, Operation::SetG),
            NodeKind::Call => Operation::Call(function_index(self.context.functions, node.a)),
            NodeKind::BayRead => Operation::BayR,
            NodeKind::BayWrite => Operation::BayW,
            _ => Operation::Pop,
        }
    }

    // The expression at `at`: the index after it.
    #[cycle(arguments_expression)]
    pub fn expression(&mut self, at: usize) -> usize
        requires part { Part self.old.context.table.records.now at Expression }
        requires room { vec_len self.old.code.now + size_here self.old at
            ≤ vec_capacity self.old.code.now }
        ensures items { Emits self.old self.new (expression_here self.old at) }
        ensures len { vec_len self.new.code.now
            ≡ vec_len self.old.code.now + size_here self.old at }
        ensures keeps { Keeps self.old self.new }
        ensures next { result ≡ at + size_here self.old at }
    {
        let node = self.context.table.records[at];
        let next = self.arguments(part_count(node), at + 1);
        let own = self.operation(node);
        self.append(own, at);
        next
    }

    // `count` expressions from `at` on: the index after them.
    #[cycle(arguments_expression)]
    fn arguments(&mut self, count: usize, at: usize) -> usize
        requires parts { Parts self.old.context.table.records.now at count Expression }
        requires room { vec_len self.old.code.now + sizes_here self.old at count
            ≤ vec_capacity self.old.code.now }
        ensures items { Emits self.old self.new (arguments_here self.old at count) }
        ensures len { vec_len self.new.code.now
            ≡ vec_len self.old.code.now + sizes_here self.old at count }
        ensures keeps { Keeps self.old self.new }
        ensures next { result ≡ at + sizes_here self.old at count }
    {
        let mut next = at;
        for _ in 0..count {
            next = self.expression(next);
        }
        next
    }
}
