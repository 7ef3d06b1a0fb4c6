// The reader goes through a text word by word and keeps count of what is still owed. In prefix order that is always some
// expressions, then some statements, then some procedures: an expression holds only expressions, and a statement has its
// expressions before its statements. So three counters do, whatever the text's length, and no stack is needed.
ghost use Rattle.std.specs.Prelude.{◌≡◌, ◌<◌};
ghost use Rattle.text.specs.Reading.{step, enter, taken, judged, done, fresh, Roomy};
ghost use Rattle.text.specs.Shapes.{shape, begins};

use crate::kinds::{Kind, kind_of};
use crate::limits::{MOST_CELLS, MOST_GLOBALS, MOST_LOCALS, MOST_PROCS, WORDS};
use crate::numbers::number;

// What a word begins.
#[derive(Clone, Copy)]
pub(crate) enum Role {
    Expression,
    Statement,
    Procedure,
    Program,
}

// What a number is for.
#[derive(Clone, Copy)]
pub(crate) enum Use {
    Globals,
    Cells,
    Procs,
    Locals,
    Value,
    Local,
    Global,
    Callee,
}

// What the next word has to be: the first word, a number, or the beginning of what is owed.
#[derive(Clone, Copy)]
pub(crate) enum Need {
    Start,
    Number(Use),
    Owed,
}

// What a word of a kind begins, what follows it, and how many expressions and statements it holds.
#[derive(Clone, Copy)]
pub(crate) struct Shape {
    role: Role,
    next: Need,
    exprs: usize,
    stmts: usize,
}

#[derive(Clone, Copy)]
pub(crate) struct Reader {
    // What the next word has to be.
    pub need: Need,
    // Still owed: expressions, then statements, then procedures.
    pub exprs: usize,
    pub stmts: usize,
    pub procs: usize,
    // Of the program: its globals, cells and procedures.
    pub globals: usize,
    pub cells: usize,
    pub count: usize,
    // Of the procedure that is read: its locals, the argument among them.
    pub locals: usize,
    // Read so far, and whether all numbers so far are within the limits: that is told at the end, since a text that is no
    // program is refused as such first.
    pub signs: usize,
    pub fits: bool,
}

impl Shape {
    fn new(role: Role, next: Need, exprs: usize, stmts: usize) -> Shape
        ensures { result ≡ begins role next exprs stmts }
    {
        Shape {
            role,
            next,
            exprs,
            stmts,
        }
    }
}

impl Kind {
    // What a word of the kind begins and asks for.
    fn shape(self) -> Shape
        ensures { result ≡ shape self }
    {
        match self {
            Kind::Num => Shape::new(Role::Expression, Need::Number(Use::Value), 0, 0),
            Kind::Loc => Shape::new(Role::Expression, Need::Number(Use::Local), 0, 0),
            Kind::Glob => Shape::new(Role::Expression, Need::Number(Use::Global), 0, 0),
            Kind::Cell | Kind::Half => Shape::new(Role::Expression, Need::Owed, 1, 0),
            Kind::Add | Kind::Sub | Kind::Nand | Kind::Less => Shape::new(
                Role::Expression,
                Need::Owed,
                2,
                0,
            ),
            Kind::Call => Shape::new(Role::Expression, Need::Number(Use::Callee), 1, 0),
            Kind::Skip => Shape::new(Role::Statement, Need::Owed, 0, 0),
            Kind::Then => Shape::new(Role::Statement, Need::Owed, 0, 2),
            Kind::SetLoc => Shape::new(Role::Statement, Need::Number(Use::Local), 1, 0),
            Kind::SetGlob => Shape::new(Role::Statement, Need::Number(Use::Global), 1, 0),
            Kind::SetCell => Shape::new(Role::Statement, Need::Owed, 2, 0),
            Kind::If => Shape::new(Role::Statement, Need::Owed, 1, 2),
            Kind::While => Shape::new(Role::Statement, Need::Owed, 1, 1),
            Kind::Out => Shape::new(Role::Statement, Need::Owed, 1, 0),
            Kind::Take => Shape::new(Role::Statement, Need::Number(Use::Local), 0, 0),
            Kind::Program => Shape::new(Role::Program, Need::Number(Use::Globals), 0, 0),
            Kind::Proc => Shape::new(Role::Procedure, Need::Number(Use::Locals), 0, 1),
        }
    }
}

impl Reader {
    // A reader before the first word.
    pub(crate) fn new() -> Reader
        ensures { result ≡ fresh }
    {
        Reader {
            need: Need::Start,
            exprs: 0,
            stmts: 0,
            procs: 0,
            globals: 0,
            cells: 0,
            count: 0,
            locals: 0,
            signs: 0,
            fits: true,
        }
    }

    // A word that begins the first thing that is owed.
    fn enter(self, k: Kind) -> Option<Reader>
        requires { Roomy self }
        ensures { result ≡ enter (shape k) self }
    {
        let s = k.shape();
        let next = Reader {
            need: s.next,
            signs: self.signs + 1,
            ..self
        };
        match s.role {
            Role::Expression if self.exprs > 0 => Some(Reader {
                exprs: self.exprs - 1 + s.exprs,
                ..next
            }),
            Role::Statement if self.exprs == 0 && self.stmts > 0 => {
                Some(Reader {
                    exprs: s.exprs,
                    stmts: self.stmts - 1 + s.stmts,
                    ..next
                })
            }
            Role::Procedure if self.exprs == 0 && self.stmts == 0 && self.procs > 0 => {
                Some(Reader {
                    exprs: 0,
                    stmts: 1,
                    procs: self.procs - 1,
                    ..next
                })
            }
            _ => None,
        }
    }

    // A number, by what it is for.
    fn take(self, u: Use, n: usize) -> Reader
        requires { n < 100000 }
        ensures { result ≡ taken u n self }
    {
        match u {
            Use::Globals => Reader {
                need: Need::Number(Use::Cells),
                globals: n,
                ..self.judged(n <= MOST_GLOBALS)
            },
            Use::Cells => Reader {
                need: Need::Number(Use::Procs),
                cells: n,
                ..self.judged(n <= MOST_CELLS)
            },
            Use::Procs => Reader {
                exprs: 0,
                stmts: 0,
                procs: n,
                count: n,
                ..self.judged(1 <= n && n <= MOST_PROCS)
            },
            Use::Locals => Reader {
                locals: 1 + n,
                ..self.judged(n <= MOST_LOCALS)
            },
            Use::Value => self.judged(n < WORDS),
            Use::Local => self.judged(n < self.locals),
            Use::Global => self.judged(n < self.globals),
            Use::Callee => self.judged(n < self.count),
        }
    }

    // A number that is within the limits or not; what is owed comes next.
    fn judged(self, ok: bool) -> Reader
        ensures { result ≡ judged self ok }
    {
        Reader {
            need: Need::Owed,
            fits: self.fits && ok,
            ..self
        }
    }

    // One word more, or none where it can't stand there.
    pub(crate) fn step(self, w: &[u8]) -> Option<Reader>
        requires { Roomy self }
        ensures { result ≡ step w.now self }
    {
        match self.need {
            Need::Start => match kind_of(w)? {
                Kind::Program => Some(Reader {
                    need: Need::Number(Use::Globals),
                    ..self
                }),
                _ => None,
            },
            Need::Number(u) => {
                let n = number(w)?;
                Some(self.take(u, n))
            }
            Need::Owed => self.enter(kind_of(w)?),
        }
    }

    // Nothing is owed any more.
    pub(crate) fn is_done(&self) -> bool
        ensures { result ≡ done self.now.need self.now.exprs self.now.stmts self.now.procs }
    {
        matches!(self.need, Need::Owed) && self.exprs == 0 && self.stmts == 0 && self.procs == 0
    }
}
