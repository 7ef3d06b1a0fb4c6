// The height of an expression and of a statement: how many words its working takes at most beside the locals. The nodes
// may hold anything: where no expression or statement stands, there is no height.
ghost use Rattle.std.specs.Prelude.{◌≡◌};
ghost use Rattle.language.specs.Heights.{ExprHeight, StmtHeight, ExprPart, StmtPart, Small, higher_of, both_of};

use crate::nodes::Node;

// The larger of two heights, if there are both.
fn higher(first: Option<usize>, second: Option<usize>) -> Option<usize>
    ensures { result ≡ higher_of first second }
{
    Some(first?.max(second?))
}

// The height of an operation on two: the second is worked out above the first one's value.
fn both(first: Option<usize>, second: Option<usize>) -> Option<usize>
    requires { Small second }
    ensures { result ≡ both_of first second }
{
    Some(first?.max(1 + second?))
}

// The height of the expression at node j, if that stands after node i.
#[cycle(expr_height_expr_part)]
fn expr_part(nodes: &[Node], i: u16, j: u16) -> Option<usize>
    ensures { ExprPart nodes.now i j result }
{
    if j <= i { None } else { expr_height(nodes, j) }
}

// The height of the expression at node i.
#[cycle(expr_height_expr_part)]
pub fn expr_height(nodes: &[Node], i: u16) -> Option<usize>
    ensures { ExprHeight nodes.now i result }
{
    if i as usize >= nodes.len() {
        return None;
    }
    let node = nodes[i as usize];
    match node {
        Node::Num(_) | Node::Loc(_) | Node::Glob(_) => Some(1),
        Node::Cell(a) | Node::Half(a) | Node::Call(_, a) => expr_part(nodes, i, a),
        Node::Add(a, b) | Node::Sub(a, b) | Node::Nand(a, b) | Node::Less(a, b) => {
            let x = expr_part(nodes, i, a);
            let y = expr_part(nodes, i, b);
            both(x, y)
        }
        _ => None,
    }
}

// The height of the statement at node j, if that stands after node i.
#[cycle(stmt_height_stmt_part)]
fn stmt_part(nodes: &[Node], i: u16, j: u16) -> Option<usize>
    ensures { StmtPart nodes.now i j result }
{
    if j <= i { None } else { stmt_height(nodes, j) }
}

// The height of the statement at node i.
#[cycle(stmt_height_stmt_part)]
pub fn stmt_height(nodes: &[Node], i: u16) -> Option<usize>
    ensures { StmtHeight nodes.now i result }
{
    if i as usize >= nodes.len() {
        return None;
    }
    let node = nodes[i as usize];
    match node {
        Node::Skip | Node::Take(_) => Some(0),
        Node::SetLoc(_, a) | Node::SetGlob(_, a) | Node::Out(a) => expr_part(nodes, i, a),
        Node::SetCell(a, b) => {
            let x = expr_part(nodes, i, a);
            let y = expr_part(nodes, i, b);
            both(x, y)
        }
        Node::Then(a, b) => {
            let x = stmt_part(nodes, i, a);
            let y = stmt_part(nodes, i, b);
            higher(x, y)
        }
        Node::If(a, b, d) => {
            let x = expr_part(nodes, i, a);
            let y = stmt_part(nodes, i, b);
            let z = stmt_part(nodes, i, d);
            higher(x, higher(y, z))
        }
        Node::While(a, b) => {
            let x = expr_part(nodes, i, a);
            let y = stmt_part(nodes, i, b);
            higher(x, y)
        }
        _ => None,
    }
}
