// Code of statements, in a ring of recursive functions, as checker and walk are.
ghost use Rattle.std.specs.Prelude.{◌≡◌, ◌+◌, ◌*◌, ◌≤◌, ◌++◌, map, vec_len, vec_capacity};
ghost use Rattle.stack.specs.Store.{contents, capacity};
ghost use Rattle.script.specs.declared.rows.Sort.TheVariants.{Statement};
ghost use Rattle.script.specs.declared.rows.NodeKind.TheVariants as is;
ghost use Rattle.syntax.specs.Syntax.{name_of};
ghost use Rattle.syntax.specs.Trees.{Part, Parts, LeafParts};
ghost use Rattle.syntax.specs.Typed.{variables_at, node_at};
ghost use Rattle.code.specs.Scheme.{push_locals};

use crate::emitter::Emitter;
use code::instruction::Operation;
use script::rows::NodeKind;
use syntax::parts::{node_kind, statement_count};

impl Emitter<'_, '_> {
    ghost use Rattle.translator.specs.Emitting.{HasRoom, SameLoans, Keeps, Emits, EmitsFewer, size_here, sizes_here};
    ghost use Rattle.translator.specs.Emitting.{statement_here, statements_here};

    // Binds `count` locals of the block at `place`, a record each from `at` on, and pushes the first word of each.
    fn enter(&mut self, count: usize, at: usize, place: usize)
        requires parts { LeafParts self.old.context.table.records.now at count }
        requires names { self.old.scope.now.height + count ≤ capacity self.old.scope.now }
        requires room { vec_len self.old.code.now + count ≤ vec_capacity self.old.code.now }
        ensures bound { contents self.new.scope.now
            ≡ contents self.old.scope.now
            ++ map name_of (variables_at self.old.context.table.records.now at count) }
        ensures height { self.new.scope.now.height ≡ self.old.scope.now.height + count }
        ensures items { Emits self.old self.new
            (push_locals place (variables_at self.old.context.table.records.now at count)) }
        ensures len { vec_len self.new.code.now ≡ vec_len self.old.code.now + count }
        ensures leave { self.new.leave ≡ self.old.leave }
        ensures loans { SameLoans self.old self.new }
    {
        for node in &self.context.table.records[at..at + count] {
            self.scope.push(node.a);
            self.append(Operation::Lit(node.v), place);
        }
    }

    // The statement at `at`: the index after it.
    #[cycle(block_if_statement_statement_statements_while_statement)]
    pub fn statement(&mut self, at: usize) -> usize
        requires part { Part self.old.context.table.records.now at Statement }
        requires room { HasRoom self.old at (size_here self.old at) }
        ensures items { Emits self.old self.new (statement_here self.old at) }
        ensures bound { EmitsFewer self.old self.new (4 * size_here self.old at) }
        ensures keeps { Keeps self.old self.new }
        ensures next { result ≡ at + size_here self.old at }
    {
        match node_kind(self.context.table.records[at]) {
            NodeKind::Return => {
                let next = self.expression(at + 1);
                self.append(self.leave, at);
                next
            }
            NodeKind::If => self.if_statement(at),
            NodeKind::While => self.while_statement(at),
            NodeKind::Block => self.block(at),
            _ => self.expression(at + 1),
        }
    }

    // Both jumps are put down without their target, and get it when the code they jump over is there.
    #[cycle(block_if_statement_statement_statements_while_statement)]
    fn if_statement(&mut self, at: usize) -> usize
        requires part { Part self.old.context.table.records.now at Statement }
        requires kind { node_at self.old.context.table.records.now at ≡ is.If }
        requires room { HasRoom self.old at (size_here self.old at) }
        ensures items { Emits self.old self.new (statement_here self.old at) }
        ensures bound { EmitsFewer self.old self.new (4 * size_here self.old at) }
        ensures keeps { Keeps self.old self.new }
        ensures next { result ≡ at + size_here self.old at }
    {
        let first = self.expression(at + 1);
        let test = self.code.len();
        self.append(Operation::Jz(0), at);
        let second = self.statement(first);
        let skip = self.code.len();
        self.append(Operation::Jmp(0), at);
        let other = self.code.len();
        self.patch(test, Operation::Jz(other), at);
        let next = self.statement(second);
        let end = self.code.len();
        self.patch(skip, Operation::Jmp(end), at);
        next
    }

    #[cycle(block_if_statement_statement_statements_while_statement)]
    fn while_statement(&mut self, at: usize) -> usize
        requires part { Part self.old.context.table.records.now at Statement }
        requires kind { node_at self.old.context.table.records.now at ≡ is.While }
        requires room { HasRoom self.old at (size_here self.old at) }
        ensures items { Emits self.old self.new (statement_here self.old at) }
        ensures bound { EmitsFewer self.old self.new (4 * size_here self.old at) }
        ensures keeps { Keeps self.old self.new }
        ensures next { result ≡ at + size_here self.old at }
    {
        let again = self.code.len();
        self.append(Operation::Tick, at);
        let body = self.expression(at + 1);
        let test = self.code.len();
        self.append(Operation::Jz(0), at);
        let next = self.statement(body);
        self.append(Operation::Pop, at);
        self.append(Operation::Jmp(again), at);
        let end = self.code.len();
        self.patch(test, Operation::Jz(end), at);
        self.append(Operation::Lit(0), at);
        next
    }

    #[cycle(block_if_statement_statement_statements_while_statement)]
    fn block(&mut self, at: usize) -> usize
        requires part { Part self.old.context.table.records.now at Statement }
        requires kind { node_at self.old.context.table.records.now at ≡ is.Block }
        requires room { HasRoom self.old at (size_here self.old at) }
        ensures items { Emits self.old self.new (statement_here self.old at) }
        ensures bound { EmitsFewer self.old self.new (4 * size_here self.old at) }
        ensures keeps { Keeps self.old self.new }
        ensures next { result ≡ at + size_here self.old at }
    {
        let node = self.context.table.records[at];
        let count = node.a as usize;
        let mark = self.scope.height();
        self.enter(count, at + 1, at);
        let next = self.statements(statement_count(node), at, at + 1 + count);
        self.append_pops(count, at);
        self.append(Operation::Lit(0), at);
        self.scope.cut(mark);
        next
    }

    // `count` statements of the block at `place`, from `at` on: the index after them.
    #[cycle(block_if_statement_statement_statements_while_statement)]
    fn statements(&mut self, count: usize, place: usize, at: usize) -> usize
        requires parts { Parts self.old.context.table.records.now at count Statement }
        requires room { HasRoom self.old at (sizes_here self.old at count) }
        ensures items { Emits self.old self.new (statements_here self.old at count place) }
        ensures bound { EmitsFewer self.old self.new (4 * sizes_here self.old at count + 1) }
        ensures keeps { Keeps self.old self.new }
        ensures next { result ≡ at + sizes_here self.old at count }
    {
        let mut next = at;
        for _ in 0..count {
            next = self.statement(next);
            self.append(Operation::Pop, place);
        }
        next
    }
}
