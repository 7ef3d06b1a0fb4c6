// The routines of a program, made from its table of procedures before it runs: the height of each body is worked out once.
ghost use Rattle.std.specs.Prelude.{◌≤◌, length};
ghost use Rattle.interpreter.specs.Routines.{Prepares};

use crate::state::Routine;
use language::heights::stmt_height;
use language::nodes::{MOST_PROCEDURES, Node, Procedure};

// The routines of the table's procedures, one for each. None: at some procedure's body stands no statement.
pub(crate) fn prepare(nodes: &[Node], table: &[Procedure]) -> Option<[Routine; MOST_PROCEDURES]>
    requires { length table.now ≤ 256 }
    ensures { Prepares nodes.now table.now result }
{
    let none = Routine {
        locals: 0,
        body: 0,
        height: 0,
    };
    let mut procs = [none; MOST_PROCEDURES];
    for (f, entry) in table.iter().enumerate() {
        procs[f] = Routine {
            locals: entry.locals,
            body: entry.body,
            height: stmt_height(nodes, entry.body)?,
        };
    }
    Some(procs)
}
