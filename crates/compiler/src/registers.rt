// The places in memory, and the use of the registers. A register is its number, as in the word of an instruction and in the
// definition of the code: an enum would be made into the number wherever it is used.

// Of the globals, of the cells, and one past the stack's highest word.
pub(crate) const GLOBALS: u16 = 52952;

pub(crate) const CELLS: u16 = 53208;

pub(crate) const STACK_TOP: u16 = 65496;

// So many words are there for frames.
pub(crate) const FRAME_ROOM: u16 = 8192;

// The value that was worked out last.
pub(crate) const VALUE: u16 = 0;
// Places and first operands.
pub(crate) const WORK: u16 = 1;
// At a call the place to go back to.
pub(crate) const BACK: u16 = 2;

pub(crate) const SPARE: u16 = 3;

pub(crate) const STACK: u16 = 4;

pub(crate) const FRAME: u16 = 5;
// How many words are left for frames.
pub(crate) const ROOM: u16 = 6;
// Always 1.
pub(crate) const ONE: u16 = 7;
