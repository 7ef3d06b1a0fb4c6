// Where the code of a node ends.
ghost use Rattle.compiler.specs.Statements.{EndsStmt};
ghost use Rattle.compiler.specs.Work.{Works, StmtWorks, EndsWork};

use crate::parts::{Parts, last_words, split};
use crate::sizes::{GO_UNLESS_WORDS, GO_WORDS, LOOP_WORDS, PUSH_WORDS};
use language::nodes::Node;

// Of an expression, or of a statement whose parts are expressions.
pub(crate) fn measure_work(nodes: &[Node], i: u16, at: usize) -> usize
    requires { Works nodes.now i at }
    ensures { EndsWork nodes.now i at result }
{
    let node = nodes[i as usize];
    let words = last_words(node);
    match split(node) {
        Parts::Nothing => at + words,
        Parts::One(part) => {
            let x = measure_work(nodes, part, at);
            x + words
        }
        Parts::Two(first, second) => {
            let x = measure_work(nodes, first, at);
            let y = measure_work(nodes, second, x + PUSH_WORDS);
            y + words
        }
    }
}

// Of a statement.
pub(crate) fn measure_stmt(nodes: &[Node], i: u16, at: usize) -> usize
    requires { StmtWorks nodes.now i at }
    ensures { EndsStmt nodes.now i at result }
{
    match nodes[i as usize] {
        Node::Then(a, b) => {
            let x = measure_stmt(nodes, a, at);
            measure_stmt(nodes, b, x)
        }
        Node::If(test, first, second) => {
            let x = measure_work(nodes, test, at);
            let y = measure_stmt(nodes, second, x + GO_UNLESS_WORDS);
            measure_stmt(nodes, first, y + GO_WORDS)
        }
        Node::While(test, body) => {
            let x = measure_work(nodes, test, at);
            let y = measure_stmt(nodes, body, x + LOOP_WORDS);
            y + GO_WORDS
        }
        _ => measure_work(nodes, i, at),
    }
}
