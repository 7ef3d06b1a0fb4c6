// A whole program as the reader hands it to those who walk it.
ghost use Rattle.std.specs.Prelude.{◌≡◌, ◌≤◌, length, take};
ghost use Rattle.language.specs.Limits.{most_procs};

use crate::nodes::{MOST_NODES, MOST_PROCEDURES, Node, Procedure, Sizes};

// The nodes, the table of procedures by number, and the sizes. Nodes and entries past the program's hold anything.
#[derive(Drop)]
pub struct Parsed {
    pub nodes: [Node; MOST_NODES],
    pub table: [Procedure; MOST_PROCEDURES],
    pub sizes: Sizes,
    ghost few: { sizes.procs ≤ most_procs },
}

impl Parsed {
    // The procedures, by number.
    pub fn procedures(&self) -> &[Procedure]
        ensures entries { result.now ≡ take self.now.sizes.procs self.now.table }
        ensures all { length result.now ≡ self.now.sizes.procs }
    {
        &self.table[..self.sizes.procs]
    }
}
