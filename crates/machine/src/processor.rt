// What the machine holds beside the lent memory, tape and out words.
use words::ending::Ending;

// A memory has so many words, as many as a word can name.
pub const MEMORY_SIZE: usize = 65536;

// The program counter, the registers, how many words of the tape are taken and how many are put out, and how it halted,
// if it has.
#[derive(Clone, Copy, PartialEq, Eq, Debug)]
pub struct Processor {
    pub pc: u16,
    pub registers: [u16; 8],
    pub taken: usize,
    pub sent: usize,
    pub halted: Option<Ending>,
}
