// The table of procedures, by number, made from the nodes: each procedure's node stands after the body of the one before.
ghost use Rattle.std.specs.Prelude.{◌≡◌, ◌≤◌, List, length};
ghost use Rattle.language.specs.Language.{Proc};
ghost use Rattle.language.specs.Nodes.{Holds};
ghost use Rattle.text.specs.Text.{most_procs};
ghost use Rattle.text.specs.Loads.{blank_table};
ghost use Rattle.text.specs.Table.{ProcsAt, SameEntries};

use language::nodes::{MOST_NODES, MOST_PROCEDURES, Node, Procedure};

// The table of so many procedures, which stand from node 0 on, and blank past them; an array as large as the limit, since
// the layers allocate nothing.
pub(crate) fn tabulate(nodes: &[Node; MOST_NODES], count: usize) -> [Procedure; MOST_PROCEDURES]
    requires few { count ≤ most_procs }
    requires stand { (ps : List Proc) × (length ps ≡ count) × ProcsAt nodes.now 0 ps }
    ensures holds { (ps : List Proc) → length ps ≡ count → ProcsAt nodes.now 0 ps → Holds nodes.now result ps }
    ensures others { SameEntries count blank_table result }
{
    let mut table = [Procedure { locals: 0, body: 0 }; MOST_PROCEDURES];
    let mut at: usize = 0;
    for entry in &mut table[..count] {
        let node = nodes[at];
        if let Node::Proc(locals, body, after) = node {
            *entry = Procedure { locals, body };
            at = usize::from(after);
        }
    }
    table
}
