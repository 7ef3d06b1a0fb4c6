// The size of a procedure's frame, worked out from its nodes. An entry that holds no procedure has some size too.
ghost use Rattle.std.specs.Prelude.{◌≡◌};
ghost use Rattle.language.specs.Language.{Proc, frame_size};
ghost use Rattle.language.specs.Nodes.{IsProc};

use crate::heights::stmt_height;
use crate::nodes::{MOST_NODES, Node, Procedure};

// What a frame has beside the further locals and the height of the body.
const FRAME_WORDS: usize = 4;

// The size of a frame of the procedure that an entry of the table is of.
pub fn frame_of(nodes: &[Node; MOST_NODES], entry: Procedure) -> usize
    ensures { (p : Proc) → IsProc nodes.now entry p → result ≡ frame_size p }
{
    let height = stmt_height(nodes, entry.body).unwrap_or(0);
    FRAME_WORDS + (entry.locals as usize + height)
}
