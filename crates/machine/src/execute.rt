// What one instruction does.
ghost use Rattle.std.specs.Prelude.{◌≡◌, ℕ, ◌-◌, ◌<◌, ◌≤◌, List, length};
ghost use Rattle.words.specs.Words.{add16};
ghost use Rattle.words.specs.Endings.{code_of};
ghost use Rattle.machine.specs.Machine.{Load, Store, Zero, Jump, In, Out, operation, act, set_register, target};
ghost use Rattle.machine.specs.Processor.{fields, machine_of, with_register, SameCounts, Executed};

use crate::instruction::Instruction;
use crate::processor::{MEMORY_SIZE, Processor};
use words::ending::Ending;

impl Processor {
    // The place of the next instruction.
    fn following(self) -> u16
        ensures { result ≡ add16 self.pc 1 }
    {
        words::add(self.pc, 1)
    }

    // Register d takes v, and the program counter goes on.
    fn with_register(self, d: usize, v: u16) -> Processor
        requires { d < 8 }
        ensures { result ≡ with_register self d v }
    {
        let mut p = self;
        p.registers[d] = v;
        p.pc = self.following();
        p
    }
}

// Where a branch from `pc` goes: n on from the next instruction, with n taken as -256 to 255.
fn branch_target(pc: u16, n: u16) -> u16
    ensures { result ≡ target pc n }
{
    let back = if n < 256 { 0 } else { 512 };
    ((pc as u32 + 1 + n as u32 + 65536 - back) % 65536) as u16
}

// What register d takes by one of the operations 0 to 6.
fn result(i: Instruction, p: Processor) -> u16
    requires { i.op < 7 }
    ensures { (mem tape out : List ℕ) → act (operation i.op) (fields i) (machine_of p mem tape out) ≡ set_register (machine_of p mem tape out) i.d result }
{
    let x = p.registers[i.a];
    let y = p.registers[i.b];
    match i.op {
        0 => words::add(x, y),
        1 => words::sub(x, y),
        2 => words::nand(x, y),
        3 => words::less(x, y),
        4 => words::half(x),
        5 => i.n,
        _ => p.registers[i.d] % 256 + 256 * (i.n % 256),
    }
}

// How one of the operations 13 to 15 halts.
fn ending(op: u16) -> Ending
    requires { (13 ≤ op) × (op < 16) }
    ensures { code_of result ≡ op - 12 }
{
    match op {
        13 => Ending::Done,
        14 => Ending::Index,
        _ => Ending::Full,
    }
}

// That a processor has not halted is a fact of some processors only, so each instruction that needs it asks for it. That the
// counts stay relates a processor before and after, and is a fact of four instructions.
//
// Memory, tape and out words are handed apart from the processor, each only to the instruction that needs it: lent together
// in a struct, every function would have to promise besides that it leaves the other two.

// Register d takes the word at a + m.
fn load(i: Instruction, p: Processor, mem: &[u16; MEMORY_SIZE]) -> Processor
    ensures machine { (tape out : List ℕ) → machine_of result mem.now tape out ≡ act Load (fields i) (machine_of p mem.now tape out) }
    ensures counts { SameCounts p result }
{
    let at = words::add(p.registers[i.a], i.m) as usize;
    p.with_register(i.d, mem[at])
}

// The word in register d goes to the place a + m.
fn store(i: Instruction, p: Processor, mem: &mut [u16; MEMORY_SIZE]) -> Processor
    requires { p.halted ≡ None }
    ensures machine { (tape out : List ℕ) → machine_of result mem.new tape out ≡ act Store (fields i) (machine_of p mem.old tape out) }
    ensures counts { SameCounts p result }
{
    let to = words::add(p.registers[i.a], i.m) as usize;
    mem[to] = p.registers[i.d];
    Processor {
        pc: p.following(),
        ..p
    }
}

// Goes n on from the next instruction if register d is 0.
fn branch(i: Instruction, p: Processor) -> Processor
    requires { p.halted ≡ None }
    ensures machine { (mem tape out : List ℕ) → machine_of result mem tape out ≡ act Zero (fields i) (machine_of p mem tape out) }
    ensures counts { SameCounts p result }
{
    let pc = if p.registers[i.d] == 0 {
        branch_target(p.pc, i.n)
    } else {
        p.following()
    };
    Processor { pc, ..p }
}

// Goes to the place in register a; then register d takes the place of the next instruction.
fn jump(i: Instruction, p: Processor) -> Processor
    requires { p.halted ≡ None }
    ensures machine { (mem tape out : List ℕ) → machine_of result mem tape out ≡ act Jump (fields i) (machine_of p mem tape out) }
    ensures counts { SameCounts p result }
{
    let pc = p.registers[i.a];
    let after = p.with_register(i.d, p.following());
    Processor { pc, ..after }
}

// Register d takes the tape's next word, or 0 at its end.
fn take_word(i: Instruction, p: Processor, tape: &[u16]) -> Processor
    requires { p.halted ≡ None }
    ensures machine { (mem out : List ℕ) → machine_of result mem tape.now out ≡ act In (fields i) (machine_of p mem tape.now out) }
    ensures within { p.taken ≤ length tape.now → result.taken ≤ length tape.now }
    ensures sent { result.sent ≡ p.sent }
{
    match tape.get(p.taken) {
        Some(word) => Processor {
            taken: p.taken + 1,
            ..p.with_register(i.d, *word)
        },
        None => p.with_register(i.d, 0),
    }
}

// The word in register d is put out, if there is room for it.
fn put_out(i: Instruction, p: Processor, out: &mut [u16]) -> Option<Processor>
    requires { p.halted ≡ None }
    ensures { (mem tape : List ℕ) → Executed (act Out (fields i) (machine_of p mem tape out.old)) p mem mem tape out.old out.new result }
{
    if p.sent >= out.len() {
        return None;
    }
    out[p.sent] = p.registers[i.d];
    Some(Processor {
        pc: p.following(),
        sent: p.sent + 1,
        ..p
    })
}

// One instruction of a machine that has not halted. None: there is no room for the word that it puts out.
pub(crate) fn execute(
    i: Instruction,
    p: Processor,
    mem: &mut [u16; MEMORY_SIZE],
    tape: &[u16],
    out: &mut [u16],
) -> Option<Processor>
    requires { p.halted ≡ None }
    ensures { Executed (act (operation i.op) (fields i) (machine_of p mem.old tape.now out.old)) p mem.old mem.new tape.now out.old out.new result }
{
    match i.op {
        0..=6 => Some(p.with_register(i.d, result(i, p))),
        7 => Some(load(i, p, mem)),
        8 => Some(store(i, p, mem)),
        9 => Some(branch(i, p)),
        10 => Some(jump(i, p)),
        11 => Some(take_word(i, p, tape)),
        12 => put_out(i, p, out),
        13..=15 => Some(Processor {
            halted: Some(ending(i.op)),
            ..p
        }),
        _ => unreachable(),
    }
}
