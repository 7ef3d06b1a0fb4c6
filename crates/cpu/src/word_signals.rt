// Words of the drawing that several stages use: each a list of sixteen signals, lowest bit first.
#![tactic(auto, unfolding(crate::proofs::Drawing::drawing))]

ghost use Rattle.std.specs.Prelude.{◌≡◌};
ghost use Rattle.cpu.specs.Signals.{PROGRAM_COUNTER, OPERAND, REGISTERS};
ghost use Rattle.cpu.specs.Stages.{PORT, SUM};

use crate::parts::{every, words};
use crate::signals::*;

pub(crate) fn program_counter() -> [u32; 16]
    ensures { result ≡ PROGRAM_COUNTER }
{
    every(COUNTER_0, 1)
}

pub(crate) fn operand() -> [u32; 16]
    ensures { result ≡ OPERAND }
{
    every(OPERAND_0, 1)
}

// What the read port shows.
pub(crate) fn port() -> [u32; 16]
    ensures { result ≡ PORT }
{
    every(PORT_0, PORT_STEP)
}

pub(crate) fn sum() -> [u32; 16]
    ensures { result ≡ SUM }
{
    every(SUM_0, SUM_STEP)
}

// The eight registers.
pub(crate) fn registers() -> [[u32; 16]; 8]
    ensures { result ≡ REGISTERS }
{
    words(REGISTER_0, 16, 1)
}
