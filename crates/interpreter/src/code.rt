// What a run reads.
ghost use Rattle.std.specs.Prelude.{length};
ghost use Rattle.interpreter.specs.Routines.{Measured};

use crate::state::Routine;
use language::nodes::Node;

// The program's nodes, its routines and the tape. At each routine's body stands a statement, and the routine has its
// height.
#[derive(Clone, Copy)]
pub(crate) struct Code<'a> {
    pub nodes: &'a [Node],
    pub procs: &'a [Routine],
    pub tape: &'a [u16],
    ghost measured: { ∥ Measured nodes.now procs.now (length procs.now) ∥₁ },
}
