// The code of expressions and statements after that of their parts, block by block.
ghost use Rattle.std.specs.Prelude.{◌≡◌, ◌<◌, ◌≤◌, ◌++◌, ◌∷◌, []};
ghost use Rattle.words.specs.Words.{memory_size};
ghost use Rattle.codegen.specs.Codegen.{constant, global_place, go_to, go_unless_zero, halve, load_cell, local_place, pop, push, put_out, store_cell, take_to_local};
ghost use Rattle.codegen.specs.Instructions.{WithinWidths, past};
ghost use Rattle.codegen.specs.Layout.{value};
ghost use Rattle.language.specs.Limits.{most_globals};
ghost use Rattle.compiler.specs.Writing.{Wrote, meaning};

use crate::instructions::Instruction;
use crate::registers::{BACK, CELLS, FRAME, GLOBALS, ONE, SPARE, STACK, VALUE, WORK};
use crate::sizes::{
    GO_UNLESS_WORDS, GO_WORDS, HALVE_WORDS, LOAD_CELL_WORDS, NUMBER_WORDS, OPERATION_WORDS,
    OUT_WORDS, PUSH_WORDS, STORE_CELL_WORDS, TAKE_WORDS, VARIABLE_WORDS,
};
use crate::writer::Writer;

impl Writer<'_> {
    pub(crate) fn number(&mut self, n: u16)
        requires { past (constant value n) self.old.at ≤ memory_size }
        ensures { Wrote (constant value n) self.old self.new }
    {
        let code: [Instruction; NUMBER_WORDS] = [
            Instruction::Low(VALUE, n % 256),
            Instruction::High(VALUE, n / 256),
        ];
        self.write(&code)
    }

    // A local is loaded or stored by the last instruction, at the place that is worked out for it. That the instruction's
    // numbers have its widths is asked for here and twice below: it is so of some instructions only.
    pub(crate) fn local(&mut self, i: u16, last: Instruction)
        requires room { past (local_place i ++ (meaning last ∷ [])) self.old.at ≤ memory_size }
        requires small { i < 512 }
        requires widths { WithinWidths (meaning last) }
        ensures { Wrote (local_place i ++ (meaning last ∷ [])) self.old self.new }
    {
        let code: [Instruction; VARIABLE_WORDS] = [
            Instruction::Low(WORK, i),
            Instruction::Add(WORK, FRAME, WORK),
            last,
        ];
        self.write(&code)
    }

    // A global likewise.
    pub(crate) fn global(&mut self, i: u16, last: Instruction)
        requires room { past (global_place i ++ (meaning last ∷ [])) self.old.at ≤ memory_size }
        requires few { i < most_globals }
        requires widths { WithinWidths (meaning last) }
        ensures { Wrote (global_place i ++ (meaning last ∷ [])) self.old self.new }
    {
        let place = GLOBALS + i;
        let code: [Instruction; VARIABLE_WORDS] = [
            Instruction::Low(WORK, place % 256),
            Instruction::High(WORK, place / 256),
            last,
        ];
        self.write(&code)
    }

    // The cell's number is tested before it is added to the place of cell 0.
    pub(crate) fn load_cell(&mut self, cells: u16)
        requires { past (load_cell cells) self.old.at ≤ memory_size }
        ensures { Wrote (load_cell cells) self.old self.new }
    {
        let code: [Instruction; LOAD_CELL_WORDS] = [
            Instruction::Low(WORK, cells % 256),
            Instruction::High(WORK, cells / 256),
            Instruction::Less(BACK, VALUE, WORK),
            Instruction::Sub(BACK, ONE, BACK),
            Instruction::Zero(BACK, 1),
            Instruction::Index,
            Instruction::Low(WORK, CELLS % 256),
            Instruction::High(WORK, CELLS / 256),
            Instruction::Add(WORK, WORK, VALUE),
            Instruction::Load(VALUE, WORK, 0),
        ];
        self.write(&code)
    }

    pub(crate) fn push(&mut self)
        requires { past push self.old.at ≤ memory_size }
        ensures { Wrote push self.old self.new }
    {
        let code: [Instruction; PUSH_WORDS] = [
            Instruction::Sub(STACK, STACK, ONE),
            Instruction::Store(VALUE, STACK, 0),
        ];
        self.write(&code)
    }

    // The first operand comes off the stack; the last instruction is the operation.
    pub(crate) fn operate(&mut self, last: Instruction)
        requires room { past (pop ++ (meaning last ∷ [])) self.old.at ≤ memory_size }
        requires widths { WithinWidths (meaning last) }
        ensures { Wrote (pop ++ (meaning last ∷ [])) self.old self.new }
    {
        let code: [Instruction; OPERATION_WORDS] = [
            Instruction::Load(WORK, STACK, 0),
            Instruction::Add(STACK, STACK, ONE),
            last,
        ];
        self.write(&code)
    }

    pub(crate) fn halve(&mut self)
        requires { past halve self.old.at ≤ memory_size }
        ensures { Wrote halve self.old self.new }
    {
        let code: [Instruction; HALVE_WORDS] = [Instruction::Half(VALUE, VALUE)];
        self.write(&code)
    }

    pub(crate) fn go_to(&mut self, place: u16)
        requires { past (go_to place) self.old.at ≤ memory_size }
        ensures { Wrote (go_to place) self.old self.new }
    {
        let code: [Instruction; GO_WORDS] = [
            Instruction::Low(WORK, place % 256),
            Instruction::High(WORK, place / 256),
            Instruction::Jump(BACK, WORK),
        ];
        self.write(&code)
    }

    pub(crate) fn go_unless_zero(&mut self, place: u16)
        requires { past (go_unless_zero place) self.old.at ≤ memory_size }
        ensures { Wrote (go_unless_zero place) self.old self.new }
    {
        let code: [Instruction; GO_UNLESS_WORDS] = [
            Instruction::Low(WORK, place % 256),
            Instruction::High(WORK, place / 256),
            Instruction::Zero(VALUE, 1),
            Instruction::Jump(BACK, WORK),
        ];
        self.write(&code)
    }

    // The cell's number comes off the stack, and is tested after the value is worked out.
    pub(crate) fn store_cell(&mut self, cells: u16)
        requires { past (store_cell cells) self.old.at ≤ memory_size }
        ensures { Wrote (store_cell cells) self.old self.new }
    {
        let code: [Instruction; STORE_CELL_WORDS] = [
            Instruction::Load(WORK, STACK, 0),
            Instruction::Add(STACK, STACK, ONE),
            Instruction::Low(BACK, cells % 256),
            Instruction::High(BACK, cells / 256),
            Instruction::Less(SPARE, WORK, BACK),
            Instruction::Sub(SPARE, ONE, SPARE),
            Instruction::Zero(SPARE, 1),
            Instruction::Index,
            Instruction::Low(BACK, CELLS % 256),
            Instruction::High(BACK, CELLS / 256),
            Instruction::Add(BACK, BACK, WORK),
            Instruction::Store(VALUE, BACK, 0),
        ];
        self.write(&code)
    }

    pub(crate) fn put_out(&mut self)
        requires { past put_out self.old.at ≤ memory_size }
        ensures { Wrote put_out self.old self.new }
    {
        let code: [Instruction; OUT_WORDS] = [Instruction::Out(VALUE)];
        self.write(&code)
    }

    pub(crate) fn take_to_local(&mut self, i: u16)
        requires room { past (take_to_local i) self.old.at ≤ memory_size }
        requires small { i < 512 }
        ensures { Wrote (take_to_local i) self.old self.new }
    {
        let code: [Instruction; TAKE_WORDS] = [
            Instruction::In(VALUE),
            Instruction::Low(WORK, i),
            Instruction::Add(WORK, FRAME, WORK),
            Instruction::Store(VALUE, WORK, 0),
        ];
        self.write(&code)
    }
}
