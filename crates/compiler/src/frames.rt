// The code around a procedure's body, and the start of a program.
ghost use Rattle.std.specs.Prelude.{◌≡◌, ◌+◌, ◌<◌, ◌≤◌};
ghost use Rattle.words.specs.Words.{memory_size};
ghost use Rattle.codegen.specs.Codegen.{clear_words, start_code};
ghost use Rattle.codegen.specs.Instructions.{past};
ghost use Rattle.language.specs.Limits.{most_locals};
ghost use Rattle.compiler.specs.Writing.{Wrote};
ghost use Rattle.compiler.specs.Frames.{room_test, frame_made, frame_left};

use crate::instructions::Instruction;
use crate::registers::{BACK, FRAME, FRAME_ROOM, ONE, ROOM, SPARE, STACK, STACK_TOP, VALUE, WORK};
use crate::sizes::{MAKE_FRAME_WORDS, RETURN_WORDS, ROOM_TEST_WORDS, START_WORDS};
use crate::writer::Writer;

impl Writer<'_> {
    // Goes over the next word if there is room for a frame of this size, and ends the run there if there isn't.
    pub(crate) fn check_room(&mut self, size: u16)
        requires { past (room_test size) self.old.at ≤ memory_size }
        ensures { Wrote (room_test size) self.old self.new }
    {
        let code: [Instruction; ROOM_TEST_WORDS] = [
            Instruction::Low(WORK, size % 256),
            Instruction::High(WORK, size / 256),
            Instruction::Less(SPARE, ROOM, WORK),
            Instruction::Zero(SPARE, 1),
            Instruction::Full,
        ];
        self.write(&code)
    }

    pub(crate) fn make_frame(&mut self, locals: u16)
        requires room { past (frame_made locals) self.old.at ≤ memory_size }
        requires few { locals < 511 }
        ensures { Wrote (frame_made locals) self.old self.new }
    {
        let code: [Instruction; MAKE_FRAME_WORDS] = [
            Instruction::Sub(ROOM, ROOM, WORK),
            Instruction::Sub(STACK, STACK, ONE),
            Instruction::Store(BACK, STACK, 0),
            Instruction::Sub(STACK, STACK, ONE),
            Instruction::Store(FRAME, STACK, 0),
            Instruction::Low(WORK, 1 + locals),
            Instruction::Sub(STACK, STACK, WORK),
            Instruction::Add(FRAME, STACK, SPARE),
            Instruction::Store(VALUE, FRAME, 0),
            Instruction::Add(WORK, FRAME, ONE),
        ];
        self.write(&code)
    }

    pub(crate) fn leave_frame(&mut self, locals: u16, size: u16)
        requires room { past (frame_left locals size) self.old.at ≤ memory_size }
        requires few { locals < 511 }
        ensures { Wrote (frame_left locals size) self.old self.new }
    {
        let code: [Instruction; RETURN_WORDS] = [
            Instruction::Load(VALUE, FRAME, 0),
            Instruction::Low(WORK, 1 + locals),
            Instruction::Add(STACK, STACK, WORK),
            Instruction::Load(FRAME, STACK, 0),
            Instruction::Load(BACK, STACK, 1),
            Instruction::Add(STACK, STACK, ONE),
            Instruction::Add(STACK, STACK, ONE),
            Instruction::Low(WORK, size % 256),
            Instruction::High(WORK, size / 256),
            Instruction::Add(ROOM, ROOM, WORK),
            Instruction::Jump(SPARE, BACK),
        ];
        self.write(&code)
    }

    // An empty stack, all room, and a call of the procedure at the place; after it, done.
    pub(crate) fn start(&mut self, place: u16)
        requires { past (start_code place) self.old.at ≤ memory_size }
        ensures { Wrote (start_code place) self.old self.new }
    {
        let code: [Instruction; START_WORDS] = [
            Instruction::Low(STACK, STACK_TOP % 256),
            Instruction::High(STACK, STACK_TOP / 256),
            Instruction::Low(FRAME, STACK_TOP % 256),
            Instruction::High(FRAME, STACK_TOP / 256),
            Instruction::Low(ROOM, FRAME_ROOM % 256),
            Instruction::High(ROOM, FRAME_ROOM / 256),
            Instruction::Low(ONE, 1),
            Instruction::Low(WORK, place % 256),
            Instruction::High(WORK, place / 256),
            Instruction::Jump(BACK, WORK),
            Instruction::Done,
        ];
        self.write(&code)
    }

    // So many locals take 0.
    pub(crate) fn clear_locals(&mut self, locals: u16)
        requires room { self.old.at + locals ≤ memory_size }
        requires few { locals ≤ most_locals }
        ensures { Wrote (clear_words 0 locals) self.old self.new }
    {
        // By a number: it stands in the instruction.
        for i in 0..locals {
            self.write(&[Instruction::Store(SPARE, WORK, i)]);
        }
    }
}
