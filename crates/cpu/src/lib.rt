// The drawing of the instruction machine: what it is stands in specs/, that it is the machine in proofs/; `draw` puts it
// onto a sheet.
#![tactic(auto)]

mod bits;
mod control;
mod frame;
mod parts;
pub mod places;
mod ports;
mod signals;
mod stages;
mod word_signals;

ghost use Rattle.drawing.specs.Drawing.{IsMachine, course_cycles};
ghost use Rattle.cpu.specs.Cpu.{cpu};
ghost use Rattle.cpu.specs.Promise.{DrawPromise};
ghost use Rattle.cpu.specs.Shown.{OneWordInThree};
ghost use Rattle.cpu.specs.Stored.{StoresAlone, LoadAfterStore, FetchAfterStore};

use control::draw_control;
use frame::{put_next, put_pins, put_power_on};
use stages::{draw_arithmetic, draw_counter, draw_read, draw_result, draw_write};
use thiserror::Error;

// How large the drawing is: its flip-flops and gates.
#[derive(Clone, Copy, PartialEq, Eq, Debug)]
pub struct Size {
    pub flops: usize,
    pub gates: usize,
}

// The sheet has too few numbers.
#[derive(Clone, Copy, PartialEq, Eq, Debug, Error)]
#[error("the sheet is too short")]
pub struct NoRoom;

// The numbers that a sheet must have room for, and the flip-flops and gates of the drawing.
const ROOM: usize = 262144;

const FLOPS: usize = 184;

const GATES: usize = 1747;

// Draws the machine at the front of a sheet of at least 262,144 numbers; the numbers past the drawing stay.
pub fn draw(sheet: &mut [u32]) -> Result<Size, NoRoom>
    ensures { DrawPromise sheet.old sheet.new result }
{
    if sheet.len() < ROOM {
        return Err(NoRoom);
    }
    // the values at power on, two numbers for each gate, the next signals, the pins
    put_power_on(sheet);
    draw_control(&mut sheet[FLOPS..]);
    draw_read(&mut sheet[328..]);
    draw_arithmetic(&mut sheet[1042..]);
    draw_result(&mut sheet[1780..]);
    draw_write(&mut sheet[2452..]);
    draw_counter(&mut sheet[3380..]);
    put_next(&mut sheet[3678..]);
    put_pins(&mut sheet[3862..]);
    Ok(Size {
        flops: FLOPS,
        gates: GATES,
    })
}

// On every memory and tape, the board with the drawing does what the instruction machine does, within four cycles an
// instruction and eight at the start.
pub fn cpu_is_machine()
    ensures { IsMachine course_cycles cpu }
{}

// No cycle both stores a word and wants one of memory.
pub fn stores_alone()
    ensures { StoresAlone }
{}

// A load that comes right after a store to the same place gets the stored word.
pub fn load_after_store()
    ensures { LoadAfterStore }
{}

// A store to the place of the next instruction is seen by its fetch.
pub fn fetch_after_store()
    ensures { FetchAfterStore }
{}

// The lamps show at most one word in three cycles.
pub fn one_word_in_three()
    ensures { OneWordInThree }
{}
