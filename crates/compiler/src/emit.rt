// The code of a node, written into an image.
ghost use Rattle.std.specs.Prelude.{◌≡◌};
ghost use Rattle.compiler.specs.Statements.{EndsStmt, WroteStmt};
ghost use Rattle.compiler.specs.Work.{Works, StmtWorks, EndsWork, WroteWork};

use crate::measure::measure_stmt;
use crate::parts::{Parts, split};
use crate::sizes::{GO_UNLESS_WORDS, GO_WORDS, LOOP_WORDS};
use crate::source::Source;
use crate::writer::Writer;
use language::nodes::Node;

impl Source<'_> {
    // Of an expression, or of a statement whose parts are expressions.
    pub(crate) fn emit_work(&self, i: u16, writer: &mut Writer<'_>)
        requires { Works self.now.nodes.now i writer.old.at }
        ensures { WroteWork self.now i writer.old writer.new }
    {
        let node = self.nodes[i as usize];
        match split(node) {
            Parts::Nothing => self.finish(node, writer),
            Parts::One(part) => {
                self.emit_work(part, writer);
                self.finish(node, writer);
            }
            Parts::Two(first, second) => {
                self.emit_work(first, writer);
                writer.push();
                self.emit_work(second, writer);
                self.finish(node, writer);
            }
        }
    }

    // Of a statement. A way's place is known from the measure of what it leads over.
    pub(crate) fn emit_stmt(&self, i: u16, writer: &mut Writer<'_>)
        requires { StmtWorks self.now.nodes.now i writer.old.at }
        ensures { WroteStmt self.now i writer.old writer.new }
    {
        match self.nodes[i as usize] {
            Node::Then(a, b) => {
                self.emit_stmt(a, writer);
                self.emit_stmt(b, writer);
            }
            Node::If(test, first, second) => {
                self.emit_work(test, writer);
                let over = measure_stmt(self.nodes, second, writer.at + GO_UNLESS_WORDS);
                let first_place = over + GO_WORDS;
                let whole = measure_stmt(self.nodes, first, first_place);
                writer.go_unless_zero(first_place as u16);
                self.emit_stmt(second, writer);
                writer.go_to(whole as u16);
                self.emit_stmt(first, writer);
            }
            Node::While(test, body) => {
                let test_place = writer.at;
                self.emit_work(test, writer);
                let body_place = writer.at + LOOP_WORDS;
                let over = measure_stmt(self.nodes, body, body_place);
                let end = over + GO_WORDS;
                writer.go_unless_zero(body_place as u16);
                writer.go_to(end as u16);
                self.emit_stmt(body, writer);
                writer.go_to(test_place as u16);
            }
            _ => self.emit_work(i, writer),
        }
    }
}
