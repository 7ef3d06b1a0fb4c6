// The levels of all signals as bytes, 0 low and 1 high: those that the gates start from, and the gates.
ghost use Rattle.std.specs.Prelude.{◌≡◌, ◌+◌, ◌-◌, ◌*◌, ◌<◌, ◌≤◌, ◌++◌, length, take};
ghost use Rattle.words.specs.Words.{bits};
ghost use Rattle.circuit.specs.Circuit.{inputs, settle, SoundGates, input_signals};
ghost use Rattle.circuit.specs.Sheet.{levels, pairs};
ghost use Rattle.board.specs.Slices.{bytes, Clean, on_signals};

use crate::lines::Lines;
use crate::sheet::INPUT_SIGNALS;

// Where the bits of the word handed over and of the tape's next word stand.
const READ_SIGNALS: usize = 2;

const TAPE_SIGNALS: usize = 18;

// Makes each byte 0 or 1.
pub fn make_levels(state: &mut [u8])
    ensures { state.new ≡ bytes (levels state.old) }
{
    for byte in state.iter_mut() {
        *byte = u8::from(*byte != 0);
    }
}

// Lays the bits of a word into 16 bytes, lowest first.
fn lay_word(lines: &mut [u8], word: u16)
    requires { length lines.old ≡ 16 }
    ensures { lines.new ≡ bytes (bits 16 word) }
{
    let mut left = word;
    for line in lines.iter_mut() {
        *line = (left % 2) as u8;
        left /= 2;
    }
}

// Lays the flip-flops' levels. By place: a slice's copy wants a function of the C library, and a caller in C may have none.
fn lay_state(lines: &mut [u8], state: &[u8])
    requires { length lines.old ≡ length state.now }
    ensures { lines.new ≡ state.now }
{
    for (i, level) in state.iter().enumerate() {
        lines[i] = *level;
    }
}

// Lays the signals before the gates: low, high, the word handed over, the tape's next word, the flip-flops.
pub fn lay_inputs(work: &mut [u8], read: u16, front: u16, state: &[u8])
    requires room { input_signals + length state.now ≤ length work.old }
    requires clean { Clean state.now }
    ensures { take (input_signals + length state.now) work.new ≡ bytes (inputs read front (levels state.now)) }
{
    work[0] = 0;
    work[1] = 1;
    lay_word(&mut work[READ_SIGNALS..TAPE_SIGNALS], read);
    lay_word(&mut work[TAPE_SIGNALS..INPUT_SIGNALS], front);
    lay_state(&mut work[INPUT_SIGNALS..INPUT_SIGNALS + state.len()], state);
}

// Settles all gates in order: each is the NAND of its two signals. These stand side by side in `wires`, and the levels
// before the gates in the first `base` bytes. Not inlined, for speed: inside `spin` the loop would keep its pointers on
// the stack.
#[inline(never)]
pub fn settle_gates(wires: &[u32], base: usize, work: &mut [u8])
    requires base { base ≤ length work.old }
    requires wires { length wires.now ≡ 2 * (length work.old - base) }
    requires sound { SoundGates (pairs wires.now) base }
    requires clean { Clean (take base work.old) }
    ensures { work.new ≡ bytes (settle (pairs wires.now) (levels (take base work.old))) }
{
    // By place, since each turn reads the slice that it writes.
    let (gates, _) = wires.as_chunks::<2>();
    for (i, [one, other]) in gates.iter().enumerate() {
        work[base + i] = (work[*one as usize] & work[*other as usize]) ^ 1;
    }
}

// Hands each flip-flop the level of its next signal. Not inlined either.
#[inline(never)]
pub fn latch(next: Lines, state: &mut [u8])
    requires { length next.signals.now ≡ length state.old }
    ensures { state.new ≡ bytes (on_signals next.entry.levels.now next.entry.signals.now) }
{
    // By place, since after a `zip` with `iter_mut` the proof knows nothing of what was written (tried).
    for (i, signal) in next.signals.iter().enumerate() {
        state[i] = next.levels[*signal as usize];
    }
}
