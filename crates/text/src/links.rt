// The second pass: from the last node to the first, each gets the numbers of its parts. The first part stands right after
// its node, and every other where the part before it ends, which is known by then.
ghost use Rattle.std.specs.Prelude.{◌≡◌, ℕ, ◌<◌, ◌≤◌, List};
ghost use Rattle.language.specs.Nodes.{most_nodes};
ghost use Rattle.text.specs.Links.{Ends, linked_node, node_end, Linked};

use language::nodes::{MOST_NODES, Node};

// Where each node ends; one more than there are nodes, so that a part past the last is found too, at LAST. An array as
// large as the limit, since the layers allocate nothing.
const ENDS: usize = MOST_NODES + 1;

const LAST: u16 = MOST_NODES as u16;

// A node at i with the numbers of its parts, and the number after its last part, where `ends` has those of later nodes.
fn linked(node: Node, i: usize, ends: &[u16; ENDS]) -> (Node, u16)
    requires { (i < most_nodes) × (Ends ends.now) }
    ensures { (result.0 ≡ linked_node node i ends.now) × (result.1 ≡ node_end node i ends.now) }
{
    let first = (i + 1) as u16;
    let second = ends[first as usize];
    let third = ends[second as usize];
    match node {
        Node::Num(_) | Node::Loc(_) | Node::Glob(_) | Node::Skip | Node::Take(_) => (node, first),
        Node::Cell(_) => (Node::Cell(first), second),
        Node::Half(_) => (Node::Half(first), second),
        Node::Add(_, _) => (Node::Add(first, second), third),
        Node::Sub(_, _) => (Node::Sub(first, second), third),
        Node::Nand(_, _) => (Node::Nand(first, second), third),
        Node::Less(_, _) => (Node::Less(first, second), third),
        Node::Call(f, _) => (Node::Call(f, first), second),
        Node::Then(_, _) => (Node::Then(first, second), third),
        Node::SetLoc(n, _) => (Node::SetLoc(n, first), second),
        Node::SetGlob(n, _) => (Node::SetGlob(n, first), second),
        Node::SetCell(_, _) => (Node::SetCell(first, second), third),
        Node::If(_, _, _) => (Node::If(first, second, third), ends[third as usize]),
        Node::While(_, _) => (Node::While(first, second), third),
        Node::Out(_) => (Node::Out(first), second),
        Node::Proc(n, _, _) => (Node::Proc(n, first, second), second),
    }
}

// The first n nodes get the numbers of their parts; the others stay.
pub(crate) fn link(nodes: &mut [Node; MOST_NODES], n: usize)
    requires { n ≤ most_nodes }
    ensures { (ends : List ℕ) × Linked nodes.old nodes.new ends n }
{
    let mut ends = [LAST; ENDS];
    // An index, and no iterator over both arrays: later nodes' ends are read while this node's is written.
    for i in (0..n).rev() {
        let (node, end) = linked(nodes[i], i, &ends);
        nodes[i] = node;
        ends[i] = end;
    }
}
