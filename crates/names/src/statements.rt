// The name rules of a statement and of several statements, in a ring, since records nest.
// The names in scope lie on a stack, newest on top.
ghost use Rattle.std.specs.Prelude.{◌≡◌, ◌+◌, ◌≤◌, ◌++◌, map, length, IfOk, OnOk};
ghost use Rattle.stack.specs.Store.{contents, capacity};
ghost use Rattle.script.specs.declared.rows.Sort.TheVariants.{Statement};
ghost use Rattle.syntax.specs.Syntax.{name_of};
ghost use Rattle.syntax.specs.Trees.{LeafParts, Part, Parts};
ghost use Rattle.syntax.specs.Typed.{variables_at};
ghost use Rattle.names.specs.Passes.{checked_locals, checked_statement, checked_statements, Kept};

use crate::context::Context;
use script::refusal::{Refusal, unless};
use script::rows::NodeKind;
use stack::Stack;
use syntax::parts::{node_kind, statement_count};

// The locals of a block are no longer in scope.
fn leave_block(scope: &mut Stack<'_, u16>, mark: usize)
    ensures words { scope.new.words.now ≡ scope.old.words.now }
    ensures height { scope.new.height ≡ mark }
{
    scope.cut(mark);
}

impl Context<'_> {
    // Declares `count` locals or parameters, a record each from `at` on: the index after them.
    pub(crate) fn locals(
        &self,
        count: usize,
        at: usize,
        scope: &mut Stack<'_, u16>,
    ) -> Result<usize, Refusal>
        requires parts { LeafParts self.now.table.records.now at count }
        requires room { scope.old.height + count ≤ capacity scope.old }
        ensures answer { result ≡ checked_locals self.now count at (contents scope.old) }
        ensures bound { IfOk result
            (λ _. contents scope.new
            ≡ contents scope.old ++ map name_of (variables_at self.now.table.records.now at count)) }
        ensures height { OnOk result (scope.new.height ≡ scope.old.height + count) }
        ensures store { capacity scope.new ≡ capacity scope.old }
    {
        let end = at + count;
        for (index, node) in self.table.records[at..end].iter().enumerate() {
            let known = self.is_declared(node.a, scope.live());
            unless(!known, Refusal::DeclaredTwice(at + index))?;
            scope.push(node.a);
        }
        Ok(end)
    }

    // The statement at `at`: the index after it. A block's locals are in scope up to its end.
    #[cycle(statement_statements)]
    pub(crate) fn statement(&self, at: usize, scope: &mut Stack<'_, u16>) -> Result<usize, Refusal>
        requires part { Part self.now.table.records.now at Statement }
        requires room { scope.old.height + length self.now.table.records.now ≤ capacity scope.old + at }
        ensures answer { result ≡ checked_statement self.now at (contents scope.old) }
        ensures scope { Kept result scope.old scope.new }
    {
        let node = self.table.records[at];
        let count = statement_count(node);
        match node_kind(node) {
            NodeKind::Block => {
                let mark = scope.height();
                let first = self.locals(node.a as usize, at + 1, scope)?;
                let next = self.statements(count, first, scope)?;
                leave_block(scope, mark);
                Ok(next)
            }
            _ => {
                let next = self.expression(at + 1, scope.live())?;
                self.statements(count, next, scope)
            }
        }
    }

    // `count` statements from `at` on: the index after them.
    #[cycle(statement_statements)]
    fn statements(
        &self,
        count: usize,
        at: usize,
        scope: &mut Stack<'_, u16>,
    ) -> Result<usize, Refusal>
        requires parts { Parts self.now.table.records.now at count Statement }
        requires room { scope.old.height + length self.now.table.records.now ≤ capacity scope.old + at }
        ensures answer { result ≡ checked_statements self.now count at (contents scope.old) }
        ensures scope { Kept result scope.old scope.new }
    {
        let mut next = at;
        for _ in 0..count {
            next = self.statement(next, scope)?;
        }
        Ok(next)
    }
}
