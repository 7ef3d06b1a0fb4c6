// The machine's instructions, the word of one, and the writing of some at a place of an image.
ghost use Rattle.std.specs.Prelude.{◌≡◌, ◌+◌, ◌≤◌, map, length};
ghost use Rattle.words.specs.Words.{memory_size};
ghost use Rattle.codegen.specs.Instructions.{WithinWidths, encode, past};
ghost use Rattle.compiler.specs.Writing.{meaning, AllWithin, Wrote};

use crate::writer::Writer;

// Registers go by number, in the order d, a, b; then a number of 9 or 6 bits.
#[derive(Clone, Copy)]
pub(crate) enum Instruction {
    Add(u16, u16, u16),
    Sub(u16, u16, u16),
    Nand(u16, u16, u16),
    Less(u16, u16, u16),
    Half(u16, u16),
    Low(u16, u16),
    High(u16, u16),
    Load(u16, u16, u16),
    Store(u16, u16, u16),
    Zero(u16, u16),
    Jump(u16, u16),
    In(u16),
    Out(u16),
    Done,
    Index,
    Full,
}

// The word of an instruction.
pub(crate) fn word_of(instruction: Instruction) -> u16
    requires { WithinWidths (meaning instruction) }
    ensures { result ≡ encode (meaning instruction) }
{
    match instruction {
        Instruction::Add(d, a, b) => d * 512 + a * 64 + b * 8,
        Instruction::Sub(d, a, b) => 4096 + d * 512 + a * 64 + b * 8,
        Instruction::Nand(d, a, b) => 2 * 4096 + d * 512 + a * 64 + b * 8,
        Instruction::Less(d, a, b) => 3 * 4096 + d * 512 + a * 64 + b * 8,
        Instruction::Half(d, a) => 4 * 4096 + d * 512 + a * 64,
        Instruction::Low(d, n) => 5 * 4096 + d * 512 + n,
        Instruction::High(d, n) => 6 * 4096 + d * 512 + n,
        Instruction::Load(d, a, m) => 7 * 4096 + d * 512 + a * 64 + m,
        Instruction::Store(d, a, m) => 8 * 4096 + d * 512 + a * 64 + m,
        Instruction::Zero(d, n) => 9 * 4096 + d * 512 + n,
        Instruction::Jump(d, a) => 10 * 4096 + d * 512 + a * 64,
        Instruction::In(d) => 11 * 4096 + d * 512,
        Instruction::Out(d) => 12 * 4096 + d * 512,
        Instruction::Done => 13 * 4096,
        Instruction::Index => 14 * 4096,
        Instruction::Full => 15 * 4096,
    }
}

impl Writer<'_> {
    // Writes instructions, and goes on behind them.
    pub(crate) fn write(&mut self, code: &[Instruction])
        requires room { self.old.at + length code.now ≤ memory_size }
        requires widths { AllWithin (map meaning code.now) }
        ensures { Wrote (map meaning code.now) self.old self.new }
    {
        for instruction in code {
            self.image[self.at] = word_of(*instruction);
            self.at += 1;
        }
    }
}
