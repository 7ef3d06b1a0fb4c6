// The parts of a node that are expressions, and what stands after their code.
ghost use Rattle.std.specs.Prelude.{◌≡◌, ℕ, ◌+◌, ◌≤◌};
ghost use Rattle.words.specs.Words.{memory_size};
ghost use Rattle.compiler.specs.Work.{parts_of, past_last, NodeFits, Finished};

use crate::instructions::Instruction;
use crate::registers::{VALUE, WORK};
use crate::sizes::{
    GO_WORDS, HALVE_WORDS, LOAD_CELL_WORDS, NUMBER_WORDS, OPERATION_WORDS, OUT_WORDS,
    STORE_CELL_WORDS, TAKE_WORDS, VARIABLE_WORDS,
};
use crate::source::Source;
use crate::writer::Writer;
use language::nodes::Node;

#[derive(Clone, Copy)]
pub(crate) enum Parts {
    Nothing,
    One(u16),
    Two(u16, u16),
}

// The expressions that a node has as parts.
pub(crate) fn split(node: Node) -> Parts
    ensures { result ≡ parts_of node }
{
    match node {
        Node::Cell(a) | Node::Half(a) | Node::Out(a) => Parts::One(a),
        Node::Call(_, a) | Node::SetLoc(_, a) | Node::SetGlob(_, a) => Parts::One(a),
        Node::Add(a, b) | Node::Sub(a, b) | Node::Nand(a, b) => Parts::Two(a, b),
        Node::Less(a, b) | Node::SetCell(a, b) => Parts::Two(a, b),
        _ => Parts::Nothing,
    }
}

// How many words a node's last block has.
pub(crate) fn last_words(node: Node) -> usize
    ensures { (p : ℕ) → past_last node p ≡ p + result }
{
    match node {
        Node::Num(_) => NUMBER_WORDS,
        Node::Loc(_) | Node::Glob(_) => VARIABLE_WORDS,
        Node::Cell(_) => LOAD_CELL_WORDS,
        Node::Add(_, _) | Node::Sub(_, _) | Node::Nand(_, _) | Node::Less(_, _) => OPERATION_WORDS,
        Node::Half(_) => HALVE_WORDS,
        Node::Call(_, _) => GO_WORDS,
        Node::SetLoc(_, _) | Node::SetGlob(_, _) => VARIABLE_WORDS,
        Node::SetCell(_, _) => STORE_CELL_WORDS,
        Node::Out(_) => OUT_WORDS,
        Node::Take(_) => TAKE_WORDS,
        _ => 0,
    }
}

impl Source<'_> {
    // Writes a node's last block.
    pub(crate) fn finish(&self, node: Node, writer: &mut Writer<'_>)
        requires fits { NodeFits node }
        requires room { past_last node writer.old.at ≤ memory_size }
        ensures { Finished self.now node writer.old writer.new }
    {
        match node {
            Node::Num(n) => writer.number(n),
            Node::Loc(i) => writer.local(i, Instruction::Load(VALUE, WORK, 0)),
            Node::Glob(i) => writer.global(i, Instruction::Load(VALUE, WORK, 0)),
            Node::Cell(_) => writer.load_cell(self.cells),
            Node::Add(_, _) => writer.operate(Instruction::Add(VALUE, WORK, VALUE)),
            Node::Sub(_, _) => writer.operate(Instruction::Sub(VALUE, WORK, VALUE)),
            Node::Nand(_, _) => writer.operate(Instruction::Nand(VALUE, WORK, VALUE)),
            Node::Less(_, _) => writer.operate(Instruction::Less(VALUE, WORK, VALUE)),
            Node::Half(_) => writer.halve(),
            Node::Call(f, _) => writer.go_to(self.places[f as usize]),
            Node::SetLoc(i, _) => writer.local(i, Instruction::Store(VALUE, WORK, 0)),
            Node::SetGlob(i, _) => writer.global(i, Instruction::Store(VALUE, WORK, 0)),
            Node::SetCell(_, _) => writer.store_cell(self.cells),
            Node::Out(_) => writer.put_out(),
            Node::Take(i) => writer.take_to_local(i),
            Node::Skip | Node::Then(_, _) | Node::If(_, _, _) => {}
            Node::While(_, _) | Node::Proc(_, _, _) => {}
        }
    }
}
