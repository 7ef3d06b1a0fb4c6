// A cycle of the board on the lent slices, and some cycles.
ghost use Rattle.std.specs.Prelude.{◌≡◌, ◌<◌, ◌≤◌, map, length, drop, if◌then◌else◌};
ghost use Rattle.words.specs.Words.{bit_at, word, put, front, rest, memory_size};
ghost use Rattle.words.specs.Runs.{running};
ghost use Rattle.circuit.specs.Circuit.{tick, ticks};
ghost use Rattle.board.specs.Board.{laid};
ghost use Rattle.board.specs.Slices.{bytes, Clean, cycle_levels, Shown, circuit_of, standing, Went, Emitted};

use crate::lines::Lines;
use crate::parts::Parts;
use crate::pins::{Pins, read_pins};
use crate::sheet::INPUT_SIGNALS;
use crate::signals::{latch, lay_inputs, settle_gates};
use words::ending::Ending;

// Where a run stands besides its slices: the word that memory hands over next, how many words of the tape were taken,
// how many were put out, and how the board halted, if it has.
#[derive(Clone, Copy, PartialEq, Eq, Debug)]
pub struct Port {
    pub read: u16,
    pub taken: usize,
    pub sent: usize,
    pub halted: Option<Ending>,
}

// The tape's next word, 0 at its end.
fn front_word(tape: &[u16], taken: usize) -> u16
    ensures { result ≡ front (drop taken tape.now) }
{
    tape.get(taken).copied().unwrap_or(0)
}

// The tape's place after a cycle: one on where `take` is high, but not past the end.
fn move_tape(tape: &[u16], taken: usize, take: bool) -> usize
    requires { taken ≤ length tape.now }
    ensures within { result ≤ length tape.now }
    ensures left { drop result tape.now ≡ (if take then rest (drop taken tape.now) else drop taken tape.now) }
{
    if take && taken < tape.len() {
        taken + 1
    } else {
        taken
    }
}

// Memory's part of a cycle: the word that stood at the address is handed over, and then `store` puts the datum there.
// That there are 65,536 words is asked for here, in `one_cycle` and in `run`: with `&mut [u16; 65536]` for the slice these
// three prove without it, but `spin`, which makes the array of a slice, then wants a second function of as many parameters
// (tried).
fn access(mem: &mut [u16], address: u16, datum: u16, store: bool) -> u16
    requires { length mem.old ≡ memory_size }
    ensures read { result ≡ word mem.old address }
    ensures mem { mem.new ≡ (if store then put mem.old address datum else mem.old) }
{
    let at = address as usize;
    let read = mem[at];
    if store {
        mem[at] = datum;
    }
    read
}

// The out words' part of a cycle: how many there are then, or none where there is no room for the datum.
fn put_out(out: &mut [u16], sent: usize, datum: u16, emit: bool) -> Option<usize>
    requires { sent ≤ length out.old }
    ensures { Emitted emit datum sent out.old out.new result }
{
    if !emit {
        return Some(sent);
    }
    if sent >= out.len() {
        return None;
    }
    out[sent] = datum;
    Some(sent + 1)
}

// The circuit's part of a cycle, with the word handed over and the word ahead on the tape: what the pins show once the
// gates have settled. The flip-flops then hold their next levels.
fn evaluate(parts: Parts, state: &mut [u8], read: u16, ahead: u16, work: &mut [u8]) -> Pins
    requires flops { length state.old ≡ length parts.next.now }
    requires signals { length work.old ≡ parts.signals }
    requires clean { Clean state.old }
    ensures shown { Shown (map (bit_at (cycle_levels parts.entry.wires.now read ahead state.old)) parts.entry.pins.now) result }
    ensures next { state.new ≡ bytes (map (bit_at (cycle_levels parts.entry.wires.now read ahead state.old)) parts.entry.next.now) }
{
    let base = INPUT_SIGNALS + state.len();
    lay_inputs(work, read, ahead, state);
    settle_gates(parts.wires, base, work);
    let pins = Lines {
        levels: work,
        signals: parts.pins,
    };
    let next = Lines {
        levels: work,
        signals: parts.next,
    };
    let shown = read_pins(pins);
    latch(next, state);
    shown
}

// One cycle of a board that has not halted, or none where there is no room for the word that it puts out. The lent slices
// stay parameters, here and in `run`, and with them what is asked of each: of each slice in a struct the contracts would
// also have to say that it is still the same one, as long.
fn one_cycle(
    parts: Parts,
    state: &mut [u8],
    mem: &mut [u16],
    tape: &[u16],
    out: &mut [u16],
    work: &mut [u8],
    port: Port,
) -> Option<Port>
    requires flops { length state.old ≡ length parts.next.now }
    requires signals { length work.old ≡ parts.signals }
    requires clean { Clean state.old }
    requires memory { length mem.old ≡ memory_size }
    requires taken { port.taken ≤ length tape.now }
    requires sent { port.sent ≤ length out.old }
    requires going { port.halted ≡ None }
    ensures { Went (tick (circuit_of parts.entry.wires.now parts.entry.next.now parts.entry.pins.now) (standing state.old mem.old tape.now out.old port)) state.new mem.new tape.now out.old out.new result }
{
    let ahead = front_word(tape, port.taken);
    let shown = evaluate(parts, state, port.read, ahead, work);
    let read = access(mem, shown.address, shown.datum, shown.store);
    let taken = move_tape(tape, port.taken, shown.take);
    let sent = put_out(out, port.sent, shown.datum, shown.emit)?;
    Some(Port {
        read,
        taken,
        sent,
        halted: shown.halted,
    })
}

// So many cycles, fewer where the board halts.
pub fn run(
    parts: Parts,
    state: &mut [u8],
    mem: &mut [u16],
    read: u16,
    tape: &[u16],
    out: &mut [u16],
    cycles: u64,
    work: &mut [u8],
) -> Option<Port>
    requires flops { length state.old ≡ length parts.next.now }
    requires signals { length work.old ≡ parts.signals }
    requires memory { length mem.old ≡ memory_size }
    requires clean { Clean state.old }
    ensures { Went (ticks cycles (circuit_of parts.entry.wires.now parts.entry.next.now parts.entry.pins.now) (laid state.old mem.old read tape.now)) state.new mem.new tape.now out.old out.new result }
{
    let mut port = Port {
        read,
        taken: 0,
        sent: 0,
        halted: None,
    };
    for _done in 0..cycles {
        if port.halted.is_some() {
            return Some(port);
        }
        port = one_cycle(parts, state, mem, tape, out, work, port)?;
    }
    Some(port)
}
