// From a word to the instruction.
ghost use Rattle.std.specs.Prelude.{◌≡◌};
ghost use Rattle.machine.specs.Machine.{decode};
ghost use Rattle.machine.specs.Processor.{fields};

use crate::instruction::Instruction;

// The instruction that a word stands for.
impl From<u16> for Instruction {
    ghost from_gives = { λ w i. fields i ≡ decode w };

    fn from(w: u16) -> Self {
        Instruction {
            op: w / 4096,
            d: (w / 512 % 8) as usize,
            a: (w / 64 % 8) as usize,
            b: (w / 8 % 8) as usize,
            n: w % 512,
            m: w % 64,
        }
    }
}
