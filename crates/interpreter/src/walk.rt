// A run over a program's nodes: expressions, statements and calls, over lent memory. The procedure at work has its locals,
// and words that are free for the frames of its calls.
ghost use Rattle.std.specs.Prelude.{◌≡◌, length};
ghost use Rattle.interpreter.specs.Running.{SameLoans, work, combined, SomeExpr, SomeStmt, Calls, Values, Does, Repeats};

use crate::code::Code;
use crate::lent::{put_at, word_at};
use crate::state::{Stop, Store};
use language::nodes::Node;

// The fixed words of a frame, of which one is the argument.
const FRAME_WORDS: usize = 4;

// What one of the four operations on two gives.
fn combine(node: Node, x: u16, y: u16) -> u16
    ensures { result ≡ combined node x y }
{
    match node {
        Node::Add(_, _) => words::add(x, y),
        Node::Sub(_, _) => words::sub(x, y),
        Node::Nand(_, _) => words::nand(x, y),
        Node::Less(_, _) => words::less(x, y),
        _ => 0,
    }
}

// What a run needs goes in by four: the fuel, the locals of the procedure at work, the words that are free for frames, and the
// store. They are no struct, since every call changes another of them. Each promises that the store is of the same lent
// words, which relates it before and after and so is no fact of a store by itself.
impl Code<'_> {
    // The value of the expression at node i, worked out from left to right.
    #[cycle(call_eval_exec_repeat)]
    fn eval(
        &self,
        i: u16,
        fuel: u32,
        locals: &mut [u16],
        free: &mut [u16],
        store: &mut Store,
    ) -> Result<u16, Stop>
        requires { SomeExpr self.now i }
        ensures same_loans { SameLoans store.old store.new }
        ensures value { Values self.now i fuel (length free.old) (work locals.old store.old) (work locals.new store.new) result }
    {
        let node = self.nodes[i as usize];
        // A copy: in an arm of several kinds a proof knows the matched node only by its parts.
        let operation = node;
        match node {
            Node::Num(n) => Ok(n),
            Node::Loc(k) => Ok(word_at(locals, k)),
            Node::Glob(k) => Ok(store.global(k)),
            Node::Cell(a) => {
                let place = self.eval(a, fuel, locals, free, store)?;
                store.cell(place)
            }
            Node::Add(a, b) | Node::Sub(a, b) | Node::Nand(a, b) | Node::Less(a, b) => {
                let x = self.eval(a, fuel, locals, free, store)?;
                let y = self.eval(b, fuel, locals, free, store)?;
                Ok(combine(operation, x, y))
            }
            Node::Half(a) => {
                let whole = self.eval(a, fuel, locals, free, store)?;
                Ok(words::half(whole))
            }
            Node::Call(f, a) => {
                let argument = self.eval(a, fuel, locals, free, store)?;
                self.call(f, argument, fuel, free, store)
            }
            // No expression: that one stands at the node is required.
            _ => Err(Stop::NoOut),
        }
    }

    // The call of procedure f with the value v: the test for room, then the body with locals of its own: the argument, and
    // further locals, all 0. It takes two of the fuel: one for the call, one for the body.
    #[cycle(call_eval_exec_repeat)]
    pub(crate) fn call(
        &self,
        f: u16,
        v: u16,
        fuel: u32,
        free: &mut [u16],
        store: &mut Store,
    ) -> Result<u16, Stop>
        ensures same_loans { SameLoans store.old store.new }
        ensures value { Calls self.now f v fuel (length free.old) store.old store.new result }
    {
        if fuel == 0 {
            return Err(Stop::Spent);
        }
        if f as usize >= self.procs.len() {
            return Err(Stop::Full);
        }
        let routine = self.procs[f as usize];
        let further = routine.locals as usize;
        let beside = FRAME_WORDS - 1 + routine.height;
        if free.len() < 1 + further + beside {
            return Err(Stop::Full);
        }
        if fuel == 1 {
            return Err(Stop::Spent);
        }
        let (own, rest) = free.split_at_mut(1 + further);
        own.fill(0);
        own[0] = v;
        self.exec(routine.body, fuel - 2, own, &mut rest[beside..], store)?;
        Ok(own[0])
    }

    // What the statement at node i does.
    #[cycle(call_eval_exec_repeat)]
    fn exec(
        &self,
        i: u16,
        fuel: u32,
        locals: &mut [u16],
        free: &mut [u16],
        store: &mut Store,
    ) -> Result<(), Stop>
        requires { SomeStmt self.now i }
        ensures same_loans { SameLoans store.old store.new }
        ensures value { Does self.now i fuel (length free.old) (work locals.old store.old) (work locals.new store.new) result }
    {
        let node = self.nodes[i as usize];
        match node {
            Node::Skip => Ok(()),
            Node::Then(a, b) => {
                self.exec(a, fuel, locals, free, store)?;
                self.exec(b, fuel, locals, free, store)
            }
            Node::SetLoc(k, a) => {
                let x = self.eval(a, fuel, locals, free, store)?;
                put_at(locals, k, x);
                Ok(())
            }
            Node::SetGlob(k, a) => {
                let x = self.eval(a, fuel, locals, free, store)?;
                put_at(store.globals, k, x);
                Ok(())
            }
            Node::SetCell(a, b) => {
                let place = self.eval(a, fuel, locals, free, store)?;
                let x = self.eval(b, fuel, locals, free, store)?;
                store.set_cell(place, x)
            }
            Node::If(a, b, d) => {
                let x = self.eval(a, fuel, locals, free, store)?;
                if x == 0 {
                    self.exec(d, fuel, locals, free, store)
                } else {
                    self.exec(b, fuel, locals, free, store)
                }
            }
            Node::While(a, b) => self.repeat(a, b, fuel, locals, free, store),
            Node::Out(a) => {
                let x = self.eval(a, fuel, locals, free, store)?;
                store.put_out(x)
            }
            Node::Take(k) => {
                let x = store.take_word(self.tape);
                put_at(locals, k, x);
                Ok(())
            }
            // No statement: that one stands at the node is required.
            _ => Err(Stop::NoOut),
        }
    }

    // The loop of the expression at node i and the statement at node j. Each further turn takes one of the fuel.
    #[cycle(call_eval_exec_repeat)]
    fn repeat(
        &self,
        i: u16,
        j: u16,
        fuel: u32,
        locals: &mut [u16],
        free: &mut [u16],
        store: &mut Store,
    ) -> Result<(), Stop>
        requires test { SomeExpr self.now i }
        requires body { SomeStmt self.now j }
        ensures same_loans { SameLoans store.old store.new }
        ensures value { Repeats self.now i j fuel (length free.old) (work locals.old store.old) (work locals.new store.new) result }
    {
        for left in (0..=fuel).rev() {
            let x = self.eval(i, left, locals, free, store)?;
            if x == 0 {
                return Ok(());
            }
            self.exec(j, left, locals, free, store)?;
        }
        Err(Stop::Spent)
    }
}
