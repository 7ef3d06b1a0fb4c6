// The limits of a program.

pub const MOST_GLOBALS: usize = 256;

pub const MOST_CELLS: usize = 4096;

pub const MOST_PROCS: usize = 256;
// Beside the argument.
pub const MOST_LOCALS: usize = 64;
// Each expression, statement and procedure counts one.
pub const MOST_SIGNS: usize = 2000;
// Every number is a word, below this.
pub const WORDS: usize = 65536;
