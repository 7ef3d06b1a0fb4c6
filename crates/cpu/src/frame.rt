// What stands on the sheet around the gates: the flip-flops' values at power on before them, the signals that the
// flip-flops hold next and the pins behind them.
ghost use Rattle.std.specs.Prelude.{ℕ, ◌≤◌, length};
ghost use Rattle.cpu.specs.Cpu.{cpu_flops, cpu_next, cpu_pins};
ghost use Rattle.cpu.specs.Ink.{Drew};

use crate::parts::{every, words};
use crate::signals::*;
use crate::word_signals::port;

// Numbers one after the other.
fn put_numbers(sheet: &mut [u32], xs: &[u32])
    requires { length xs.now ≤ length sheet.old }
    ensures { Drew sheet.old 0 xs.now sheet.new }
{
    sheet[..xs.len()].copy_from_slice(xs);
}

// At power on only phase 3 is high.
#[tactic(auto, unfolding(crate::proofs::Drawing::drawing))]
pub(crate) fn put_power_on(sheet: &mut [u32])
    requires room { 184 ≤ length sheet.old }
    ensures { Drew sheet.old 0 cpu_flops sheet.new }
{
    let mut values = [0; 184];
    values[(PHASE_3 - COUNTER_0) as usize] = 1;
    put_numbers(sheet, &values);
}

// What the last eight flip-flops hold next: the register to write, the phases, which follow one another in a ring, whether
// a register is written, and whether from memory.
const NEXT_LINES: [u32; 8] = [11, 12, 13, PHASE_3, PHASE_1, PHASE_2, WRITE, LOAD];

// What each flip-flop holds in the next cycle.
pub(crate) fn put_next(sheet: &mut [u32])
    requires room { 184 ≤ length sheet.old }
    ensures { Drew sheet.old 0 cpu_next sheet.new }
{
    let kept: [[u32; 16]; 8] = words(AT_WRITE + 30, 48, 3);
    put_numbers(sheet, &every(AT_COUNTER + 2, 3));
    put_numbers(&mut sheet[16..], kept.as_flattened());
    put_numbers(&mut sheet[144..], &port());
    put_numbers(&mut sheet[160..], &every(AT_RESULT + 2, 3));
    put_numbers(&mut sheet[176..], &NEXT_LINES);
}

// The pins: address, datum, store, emit, take, and how it halts.
pub(crate) fn put_pins(sheet: &mut [u32])
    requires room { 37 ≤ length sheet.old }
    ensures { Drew sheet.old 0 cpu_pins sheet.new }
{
    put_numbers(sheet, &every(AT_ADDRESS + 2, 3));
    put_numbers(&mut sheet[16..], &port());
    put_numbers(&mut sheet[32..], &[STORE, EMIT, TAKE, HALT_0, HALT_1]);
}
