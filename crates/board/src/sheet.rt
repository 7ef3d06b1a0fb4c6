// The sheet that holds a circuit: the numbers of its layout, and whether it is sound.
ghost use Rattle.std.specs.Prelude.{◌≡◌, ◌+◌, ◌*◌, ◌/◌, ◌^◌, ◌<◌, length, MatchOption};
ghost use Rattle.circuit.specs.Circuit.{SoundGates, AllBelow, input_signals};
ghost use Rattle.circuit.specs.Sheet.{pairs};
ghost use Rattle.board.specs.Slices.{Tells, Counted, SoundSheet, CutFrom};

use crate::parts::Parts;

pub const INPUT_SIGNALS: usize = 34;

pub const PIN_COUNT: usize = 37;

pub const MEMORY_SIZE: usize = 65536;

// How many signals a circuit has, where that is a number of 64 bits.
pub fn signal_count(flops: usize, gates: usize) -> Option<usize>
    ensures { Counted (input_signals + (flops + gates)) result }
{
    let both = flops.checked_add(gates)?;
    both.checked_add(INPUT_SIGNALS)
}

// Whether each gate is fed by signals before it, of which there are `base` before the first.
fn gates_sound(wires: &[u32], base: usize) -> bool
    requires { base + length wires.now / 2 < 2 ^ 64 }
    ensures { Tells (SoundGates (pairs wires.now) base) result }
{
    let (gates, _) = wires.as_chunks::<2>();
    for (i, [one, other]) in gates.iter().enumerate() {
        if *one as usize >= base + i || *other as usize >= base + i {
            return false;
        }
    }
    true
}

// Whether each number names one of the first `signals` signals.
fn all_below(numbers: &[u32], signals: usize) -> bool
    ensures { Tells (AllBelow numbers.now signals) result }
{
    numbers.iter().all(|x| (*x as usize) < signals)
}

// The parts of the circuit of so many flip-flops and gates that the sheet holds, if it holds a sound one.
pub fn cut(sheet: &[u32], flops: usize, gates: usize) -> Option<Parts>
    requires { input_signals + (flops + gates) < 2 ^ 64 }
    ensures { MatchOption result (SoundSheet sheet.now flops gates → ⊥) (λ p. CutFrom sheet.now flops gates p.wires.now p.next.now p.pins.now p.signals) }
{
    let both = flops + gates;
    if sheet.len() < PIN_COUNT || (sheet.len() - PIN_COUNT) / 2 < both {
        return None;
    }
    let signals = INPUT_SIGNALS + both;
    let wires_end = flops + 2 * gates;
    let next_end = wires_end + flops;
    let wires = &sheet[flops..wires_end];
    let next = &sheet[wires_end..next_end];
    let pins = &sheet[next_end..next_end + PIN_COUNT];
    if !gates_sound(wires, INPUT_SIGNALS + flops)
        || !all_below(next, signals)
        || !all_below(pins, signals)
    {
        return None;
    }
    Some(Parts {
        wires,
        next,
        pins,
        signals,
    })
}
