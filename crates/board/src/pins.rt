// What leads out of the circuit: words and levels on its pins.
ghost use Rattle.std.specs.Prelude.{◌≡◌, ◌-◌, ◌<◌, ◌≤◌, length, take, drop};
ghost use Rattle.words.specs.Words.{value, bit_at};
ghost use Rattle.words.specs.Endings.{halt_code};
ghost use Rattle.circuit.specs.Circuit.{pin_count};
ghost use Rattle.board.specs.Slices.{Shown, on_signals};

use crate::lines::Lines;
use crate::sheet::PIN_COUNT;
use words::ending::Ending;

// Where the pins stand: those of the address first, then these.
const DATUM_PINS: usize = 16;

const STORE_PIN: usize = 32;

const EMIT_PIN: usize = 33;

const TAKE_PIN: usize = 34;

const HALT_PINS: usize = 35;

// What the pins show.
#[derive(Clone, Copy, PartialEq, Eq, Debug)]
pub struct Pins {
    pub address: u16,
    pub datum: u16,
    pub store: bool,
    pub emit: bool,
    pub take: bool,
    pub halted: Option<Ending>,
}

// Some of the lines, those from one place up to another.
fn part(lines: Lines, from: usize, to: usize) -> Lines
    requires { (from ≤ to) × (to ≤ length lines.signals.now) }
    ensures count { length result.signals.now ≡ to - from }
    ensures shown { on_signals result.levels.now result.signals.now ≡ take (to - from) (drop from (on_signals lines.entry.levels.now lines.entry.signals.now)) }
{
    Lines {
        levels: lines.levels,
        signals: &lines.signals[from..to],
    }
}

// The word on some lines, lowest bit first.
fn word_on(lines: Lines) -> u16
    requires { length lines.signals.now ≤ 16 }
    ensures { result ≡ value (on_signals lines.entry.levels.now lines.entry.signals.now) }
{
    let mut word = 0;
    for signal in lines.signals.iter().rev() {
        word = 2 * word + u16::from(lines.levels[*signal as usize]);
    }
    word
}

// The level on one line.
fn level_on(lines: Lines, i: usize) -> bool
    requires { i < length lines.signals.now }
    ensures { result ≡ bit_at (on_signals lines.entry.levels.now lines.entry.signals.now) i }
{
    lines.levels[lines.signals[i] as usize] != 0
}

// The ending whose code two lines show, if they show one.
fn ending_on(lines: Lines) -> Option<Ending>
    requires { length lines.signals.now ≡ 2 }
    ensures { halt_code result ≡ value (on_signals lines.entry.levels.now lines.entry.signals.now) }
{
    Ending::try_from(word_on(lines)).ok()
}

// All pins: an address, a datum, store, emit, take, and how it halted, if it has.
pub fn read_pins(pins: Lines) -> Pins
    requires { length pins.signals.now ≡ pin_count }
    ensures { Shown (on_signals pins.entry.levels.now pins.entry.signals.now) result }
{
    let address = word_on(part(pins, 0, DATUM_PINS));
    let datum = word_on(part(pins, DATUM_PINS, STORE_PIN));
    let store = level_on(pins, STORE_PIN);
    let emit = level_on(pins, EMIT_PIN);
    let take = level_on(pins, TAKE_PIN);
    let halted = ending_on(part(pins, HALT_PINS, PIN_COUNT));
    Pins {
        address,
        datum,
        store,
        emit,
        take,
        halted,
    }
}
