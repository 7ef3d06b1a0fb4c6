// The instruction machine as a program: one step, and a run of so many instructions.
#![tactic(auto)]

mod decode;
mod execute;
pub mod instruction;
pub mod processor;

ghost use Rattle.std.specs.Prelude.{◌≡◌, ℕ, List, length};
ghost use Rattle.words.specs.Words.{memory_size};
ghost use Rattle.machine.specs.Machine.{begin, step};
ghost use Rattle.machine.specs.Processor.{machine_of, Executed, Runs};

use execute::execute;
use instruction::Instruction;
use processor::{MEMORY_SIZE, Processor};
use thiserror::Error;

// Why a run comes short of its instructions: at the processor, after so many of them, one puts out a word for which there
// is no room; or the memory has not 65,536 words.
#[derive(Clone, Copy, PartialEq, Eq, Debug, Error)]
pub enum RunError {
    #[error("more words put out than there is room for")]
    NoOut(Processor, u64),
    #[error("the memory has not 65536 words")]
    BadMemory,
}

// The processor at the start: everything 0, nothing taken, nothing put out.
pub fn start() -> Processor
    ensures machine { (mem tape out : List ℕ) → machine_of result mem tape out ≡ begin mem tape }
    ensures counts { (result.taken ≡ 0) × (result.sent ≡ 0) }
{
    Processor {
        pc: 0,
        registers: [0; 8],
        taken: 0,
        sent: 0,
        halted: None,
    }
}

// One step. None: there is no room for the word that it puts out.
fn step_once(
    p: Processor,
    mem: &mut [u16; MEMORY_SIZE],
    tape: &[u16],
    out: &mut [u16],
) -> Option<Processor>
    ensures { Executed (step (machine_of p mem.old tape.now out.old)) p mem.old mem.new tape.now out.old out.new result }
{
    if p.halted.is_some() {
        return Some(p);
    }
    let i = Instruction::from(mem[p.pc as usize]);
    execute(i, p, mem, tape, out)
}

// A run of so many instructions over a whole memory.
fn run_whole(
    from: Processor,
    mem: &mut [u16; MEMORY_SIZE],
    tape: &[u16],
    out: &mut [u16],
    instructions: u64,
) -> Result<Processor, RunError>
    ensures { Runs instructions from mem.old mem.new tape.now out.old out.new result }
{
    let mut p = from;
    for k in 0..instructions {
        if p.halted.is_some() {
            return Ok(p);
        }
        match step_once(p, mem, tape, out) {
            Some(after) => p = after,
            None => return Err(RunError::NoOut(p, k)),
        }
    }
    Ok(p)
}

// A run of so many instructions from where the processor stands.
pub fn run(
    from: Processor,
    mem: &mut [u16],
    tape: &[u16],
    out: &mut [u16],
    instructions: u64,
) -> Result<Processor, RunError>
    ensures { Runs instructions from mem.old mem.new tape.now out.old out.new result }
{
    match mem.as_mut_array::<MEMORY_SIZE>() {
        Some(mem) => run_whole(from, mem, tape, out, instructions),
        None => Err(RunError::BadMemory),
    }
}

// One step of the machine: a run of one instruction.
pub fn step(
    p: Processor,
    mem: &mut [u16],
    tape: &[u16],
    out: &mut [u16],
) -> Result<Processor, RunError>
    ensures { Runs 1 p mem.old mem.new tape.now out.old out.new result }
{
    run(p, mem, tape, out, 1)
}
