// The walk of expressions, argument lists, calls, statements, whiles and blocks, each of which calls others.
ghost use Rattle.std.specs.Prelude.{◌≡◌, ◌≤◌, [], reverse, length, get_or, take};
ghost use Rattle.script.specs.declared.rows.NodeKind.TheVariants as is;
ghost use Rattle.syntax.specs.Trees.{no_record};
ghost use Rattle.walk.specs.Lent.{Same};
ghost use Rattle.walk.specs.Ready.{Is};
ghost use Rattle.walk.specs.Parts.{ExpressionAhead, ArgumentsAhead, StatementAhead, StatementsAhead, ExpressionWalked, ArgumentsWalked, StatementWalked, StatementsWalked};

use crate::bays::{read_bay, write_bay};
use crate::functions::function;
use crate::numbers::apply;
use crate::skip::skip;
use crate::state::{Stop, Valued, end_at};
use crate::walker::Walker;
use kinds::NumberKind;
use script::Ending;
use script::rows::{NodeKind, Operator};
use syntax::parts::{node_kind, part_count, statement_count};

// `opened` calls are open: a parameter, since a return restores it, where a field would be put back on each way out.
// Expressions nest as deeply as a table is long: those with parts are out of line, so that a nested record takes the
// room of one of them, not of all.
// Where parts stand and how many, `at` and `count`, differs from call to call, so they make no value.
impl<'a> Walker<'a> {
    #[cycle(walk)]
    pub fn expression(&mut self, at: usize, opened: usize) -> Result<Valued, Stop>
        requires { ExpressionAhead self.old opened at }
        ensures ran { ExpressionWalked self.old self.new opened at result }
        ensures same { Same self.old self.new }
    {
        let node = self.table[at];
        match node_kind(node) {
            NodeKind::Number => Ok(Valued {
                word: node.v,
                next: at + 1,
            }),
            NodeKind::Variable => {
                let word = self.word_of(node.a);
                Ok(Valued { word, next: at + 1 })
            }
            NodeKind::TwoPart(operator) => self.binary(operator, at, opened),
            NodeKind::Assignment => self.assignment(node.a, at, opened),
            NodeKind::Call => self.call(at, opened),
            NodeKind::BayRead => self.read(at, opened),
            NodeKind::BayWrite => self.write(at, opened),
            // never: an accepted table has an expression here
            _ => Ok(Valued {
                word: 0,
                next: at + 1,
            }),
        }
    }

    // Two parts run left to right.
    #[cycle(walk)]
    #[inline(never)]
    fn binary(&mut self, operator: Operator, at: usize, opened: usize) -> Result<Valued, Stop>
        requires ready { ExpressionAhead self.old opened at }
        requires kind { Is (is.TwoPart operator) self.old.table.now at }
        ensures ran { ExpressionWalked self.old self.new opened at result }
        ensures same { Same self.old self.new }
    {
        let x = self.expression(at + 1, opened)?;
        let y = self.expression(x.next, opened)?;
        let word = apply(operator, x.word, y.word);
        Ok(Valued { word, next: y.next })
    }

    // The name's newest binding gets the word.
    #[cycle(walk)]
    #[inline(never)]
    fn assignment(&mut self, name: u16, at: usize, opened: usize) -> Result<Valued, Stop>
        requires ready { ExpressionAhead self.old opened at }
        requires kind { Is is.Assignment self.old.table.now at }
        requires named { name ≡ (get_or self.old.table.now at no_record).a }
        ensures ran { ExpressionWalked self.old self.new opened at result }
        ensures same { Same self.old self.new }
    {
        let value = self.expression(at + 1, opened)?;
        self.assign(name, value.word);
        Ok(value)
    }

    // The word in the bay that the part names.
    #[cycle(walk)]
    #[inline(never)]
    fn read(&mut self, at: usize, opened: usize) -> Result<Valued, Stop>
        requires ready { ExpressionAhead self.old opened at }
        requires kind { Is is.BayRead self.old.table.now at }
        ensures ran { ExpressionWalked self.old self.new opened at result }
        ensures same { Same self.old self.new }
    {
        let slot = self.expression(at + 1, opened)?;
        let word = read_bay(self.bays, slot.word, at)?;
        Ok(Valued {
            word,
            next: slot.next,
        })
    }

    // The second part's word, into the bay that the first names.
    #[cycle(walk)]
    #[inline(never)]
    fn write(&mut self, at: usize, opened: usize) -> Result<Valued, Stop>
        requires ready { ExpressionAhead self.old opened at }
        requires kind { Is is.BayWrite self.old.table.now at }
        ensures ran { ExpressionWalked self.old self.new opened at result }
        ensures same { Same self.old self.new }
    {
        let slot = self.expression(at + 1, opened)?;
        let value = self.expression(slot.next, opened)?;
        let word = write_bay(self.bays, slot.word, value.word, at)?;
        Ok(Valued {
            word,
            next: value.next,
        })
    }

    // The words of `count` arguments, into `given`; the index after them. By an index, since a proof knows nothing of
    // what was written through `iter_mut`.
    #[cycle(walk)]
    fn arguments(
        &mut self,
        count: usize,
        at: usize,
        opened: usize,
        given: &mut [i32],
    ) -> Result<usize, Stop>
        requires ready { ArgumentsAhead self.old opened at count }
        requires given { count ≤ length given.old }
        ensures ran { ArgumentsWalked self.old self.new opened at count [] (reverse (take count given.new)) result }
        ensures same { Same self.old self.new }
    {
        let mut next = at;
        for k in 0..count {
            let x = self.expression(next, opened)?;
            given[k] = x.word;
            next = x.next;
        }
        Ok(next)
    }

    // The arguments run, and then the function's body, if depth and fuel allow.
    #[cycle(walk)]
    #[inline(never)]
    fn call(&mut self, at: usize, opened: usize) -> Result<Valued, Stop>
        requires ready { ExpressionAhead self.old opened at }
        requires kind { Is is.Call self.old.table.now at }
        ensures ran { ExpressionWalked self.old self.new opened at result }
        ensures same { Same self.old self.new }
    {
        let node = self.table[at];
        let count = part_count(node);
        // a call has at most 15 arguments, and no walk allocates; zeros stand where there is none
        let mut given = [0; 15];
        let next = self.arguments(count, at + 1, opened, &mut given)?;
        let Some(f) = function(self.table, node.a) else {
            // never: an accepted table declares what it calls
            return Ok(Valued { word: 0, next });
        };
        if opened == self.depth {
            return Err(end_at(Ending::TooDeep, at));
        }
        if self.fuel == 0 {
            return Err(end_at(Ending::NoFuel, at));
        }
        self.fuel -= 1;
        let before = self.bound;
        self.bind(f + 1, &given[..count]);
        let word = match self.statement(f + 1 + count, opened + 1) {
            Ok(_) => 0,
            Err(Stop::Returned(word)) => word,
            Err(Stop::Ended(end)) => return Err(Stop::Ended(end)),
        };
        self.bound = before;
        Ok(Valued { word, next })
    }

    #[cycle(walk)]
    pub fn statement(&mut self, at: usize, opened: usize) -> Result<Valued, Stop>
        requires { StatementAhead self.old opened at }
        ensures ran { StatementWalked self.old self.new opened at result }
        ensures same { Same self.old self.new }
    {
        let node = self.table[at];
        match node_kind(node) {
            NodeKind::ExpressionStatement => self.expression(at + 1, opened),
            NodeKind::Return => {
                let value = self.expression(at + 1, opened)?;
                Err(Stop::Returned(value.word))
            }
            NodeKind::If => {
                let test = self.expression(at + 1, opened)?;
                if test.word.is_zero() {
                    let second = skip(self.table, test.next);
                    self.statement(second, opened)
                } else {
                    let first = self.statement(test.next, opened)?;
                    let next = skip(self.table, first.next);
                    Ok(Valued {
                        word: first.word,
                        next,
                    })
                }
            }
            NodeKind::While => self.repeat(at, opened),
            NodeKind::Block => self.block(at, opened),
            // never: an accepted table has a statement here
            _ => Ok(Valued {
                word: 0,
                next: at + 1,
            }),
        }
    }

    // A while: each turn spends one fuel before its test. What runs in a turn spends fuel too, so no `for` counts the
    // turns.
    #[cycle(walk)]
    fn repeat(&mut self, at: usize, opened: usize) -> Result<Valued, Stop>
        requires ready { StatementAhead self.old opened at }
        requires kind { Is is.While self.old.table.now at }
        ensures ran { StatementWalked self.old self.new opened at result }
        ensures same { Same self.old self.new }
    {
        while self.fuel > 0 {
            self.fuel -= 1;
            let test = self.expression(at + 1, opened)?;
            if test.word.is_zero() {
                let next = skip(self.table, test.next);
                return Ok(Valued { word: 0, next });
            }
            self.statement(test.next, opened)?;
        }
        Err(end_at(Ending::NoFuel, at))
    }

    // A block: its locals are bound, its statements run, the locals are dropped.
    #[cycle(walk)]
    fn block(&mut self, at: usize, opened: usize) -> Result<Valued, Stop>
        requires ready { StatementAhead self.old opened at }
        requires kind { Is is.Block self.old.table.now at }
        ensures ran { StatementWalked self.old self.new opened at result }
        ensures same { Same self.old self.new }
    {
        let node = self.table[at];
        let locals = node.a as usize;
        let count = statement_count(node);
        let before = self.bound;
        self.declare(at + 1, locals);
        let next = self.statements(count, at + 1 + locals, opened)?;
        self.bound = before;
        Ok(Valued { word: 0, next })
    }

    // `count` statements, one after another; the index after them.
    #[cycle(walk)]
    fn statements(&mut self, count: usize, at: usize, opened: usize) -> Result<usize, Stop>
        requires { StatementsAhead self.old opened at count }
        ensures ran { StatementsWalked self.old self.new opened at count result }
        ensures same { Same self.old self.new }
    {
        let mut next = at;
        for _ in 0..count {
            next = self.statement(next, opened)?.next;
        }
        Ok(next)
    }
}
