// How many words each block of code has: the emitter writes arrays of these lengths, and the measurer adds the lengths up.

// The value goes onto the stack, between two operands.
pub(crate) const PUSH_WORDS: usize = 2;
// A way that is always gone, and one that is gone unless the value is 0; both stand between a loop's test and its body.
pub(crate) const GO_WORDS: usize = 3;

pub(crate) const GO_UNLESS_WORDS: usize = 4;

pub(crate) const LOOP_WORDS: usize = GO_UNLESS_WORDS + GO_WORDS;

// The blocks of expressions and statements after the code of their parts.
pub(crate) const NUMBER_WORDS: usize = 2;
// A local or a global, loaded or stored.
pub(crate) const VARIABLE_WORDS: usize = 3;

pub(crate) const LOAD_CELL_WORDS: usize = 10;

pub(crate) const STORE_CELL_WORDS: usize = 12;
// The first operand comes off the stack, and the operation.
pub(crate) const OPERATION_WORDS: usize = 3;

pub(crate) const HALVE_WORDS: usize = 1;

pub(crate) const OUT_WORDS: usize = 1;

pub(crate) const TAKE_WORDS: usize = 4;

// The start of a program.
pub(crate) const START_WORDS: usize = 11;
// Of a procedure: the test for room, the making of its frame but for the clearing of locals, and the return.
pub const ROOM_TEST_WORDS: usize = 5;

pub(crate) const MAKE_FRAME_WORDS: usize = 10;

pub(crate) const HEAD_WORDS: usize = ROOM_TEST_WORDS + MAKE_FRAME_WORDS;

pub const RETURN_WORDS: usize = 11;
