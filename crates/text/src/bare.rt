// The first of two passes from words to nodes: as a text is read, each word that counts as a sign puts a node of its kind
// behind those before it, and the number after it goes into that node. The nodes are bare: their parts have no numbers yet.
ghost use Rattle.text.specs.Bare.{bare, numbered, has_node, noted, Placed};
ghost use Rattle.text.specs.Filling.{Filled};
ghost use Rattle.text.specs.Reading.{run, fresh};
ghost use Rattle.text.specs.Text.{words};
ghost use Rattle.std.specs.Prelude.{◌≡◌};

use crate::cut::Words;
use crate::kinds::{Kind, kind_of};
use crate::limits::{MOST_SIGNS, WORDS};
use crate::numbers::number;
use crate::reader::{Need, Reader, Use};
use language::nodes::{MOST_NODES, Node};

impl Kind {
    // A node of the kind before it has its number and those of its parts.
    fn bare_node(self) -> Node
        ensures { result ≡ bare self }
    {
        match self {
            Kind::Num => Node::Num(0),
            Kind::Loc => Node::Loc(0),
            Kind::Glob => Node::Glob(0),
            Kind::Cell => Node::Cell(0),
            Kind::Add => Node::Add(0, 0),
            Kind::Sub => Node::Sub(0, 0),
            Kind::Nand => Node::Nand(0, 0),
            Kind::Less => Node::Less(0, 0),
            Kind::Half => Node::Half(0),
            Kind::Call => Node::Call(0, 0),
            Kind::Skip => Node::Skip,
            Kind::Then => Node::Then(0, 0),
            Kind::SetLoc => Node::SetLoc(0, 0),
            Kind::SetGlob => Node::SetGlob(0, 0),
            Kind::SetCell => Node::SetCell(0, 0),
            Kind::If => Node::If(0, 0, 0),
            Kind::While => Node::While(0, 0),
            Kind::Out => Node::Out(0),
            Kind::Take => Node::Take(0),
            Kind::Program => Node::Skip,
            Kind::Proc => Node::Proc(0, 0, 0),
        }
    }
}

// A node with the number that its words give it.
fn with_number(node: Node, n: u16) -> Node
    ensures { result ≡ numbered node n }
{
    match node {
        Node::Num(_) => Node::Num(n),
        Node::Loc(_) => Node::Loc(n),
        Node::Glob(_) => Node::Glob(n),
        Node::Call(_, j) => Node::Call(n, j),
        Node::SetLoc(_, j) => Node::SetLoc(n, j),
        Node::SetGlob(_, j) => Node::SetGlob(n, j),
        Node::Take(_) => Node::Take(n),
        Node::Proc(_, j, k) => Node::Proc(n, j, k),
        _ => node,
    }
}

impl Use {
    // Whether such a number belongs to a node, and not to the program as a whole.
    fn is_of_node(self) -> bool
        ensures { result ≡ has_node self }
    {
        !matches!(self, Use::Globals | Use::Cells | Use::Procs)
    }
}

impl Reader {
    // Writes what the next word says.
    fn note(self, w: &[u8], nodes: &mut [Node; MOST_NODES])
        requires { Placed self }
        ensures { nodes.new ≡ noted self w.now nodes.old }
    {
        match self.need {
            Need::Start => {}
            Need::Number(u) => {
                if u.is_of_node() {
                    if let Some(n) = number(w) {
                        let at = self.signs - 1;
                        let node = nodes[at];
                        nodes[at] = with_number(node, (n % WORDS) as u16);
                    }
                }
            }
            Need::Owed => {
                if let Some(k) = kind_of(w) {
                    nodes[self.signs] = k.bare_node();
                }
            }
        }
    }
}

// Reads a text, and writes its nodes as long as they are within the limits.
pub(crate) fn read(text: &[u8], nodes: &mut [Node; MOST_NODES]) -> Option<Reader>
    ensures reads { result ≡ run (words text.now) fresh }
    ensures fills { Filled (words text.now) nodes.old nodes.new result }
{
    let mut reader = Reader::new();
    for word in Words::of(text) {
        let next = reader.step(word)?;
        if next.fits && next.signs <= MOST_SIGNS {
            reader.note(word, nodes);
        }
        reader = next;
    }
    Some(reader)
}
