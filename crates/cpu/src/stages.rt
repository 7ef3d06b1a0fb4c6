// The drawing's stages behind the control lines, one function for each of its five regions: the read port, the adder and
// its neighbours, the choice of the result, the write port, and where to go on. Each stage is drawn on the part of the
// sheet that begins where the stage before it ended; a gate takes two numbers.
ghost use Rattle.std.specs.Prelude.{ℕ, ◌≤◌, [], ◌∷◌, length};
ghost use Rattle.circuit.specs.Parts.{join};
ghost use Rattle.cpu.specs.Stages.{late_index_stage, index_stage, select_stage, read_stage, first_stage, second_stage, addend_stage, adder_stage, nand_stage, less_stage, zero_stage, nand_or_less_stage, half_or_low_stage, below_4_stage, from_4_stage, below_8_stage, from_8_stage, result_stage, written_stage, write_select_stage, write_stage, branch_stage, jump_stage, counter_stage, address_stage};
ghost use Rattle.cpu.specs.Ink.{ink, Drew};

use crate::parts::{
    draw_adder, draw_invert_if, draw_inverters, draw_mux, draw_nands, draw_zero_test, every,
    put_gates, words,
};
use crate::ports::{draw_keep, draw_level, draw_split};
use crate::signals::*;
use crate::word_signals::{operand, port, program_counter, registers, sum};

// A branch is taken in phase 2 where the operation is zero and the port is 0; the counter also takes the sum in phase 1.
const BRANCH_GATES: [(u32, u32); 5] = [
    (PHASE_2, OP_ZERO),
    (NOT_BRANCH, NOT_BRANCH),
    (BRANCH, IS_ZERO),
    (NOT_PHASE_1, NOT_TAKEN),
    (TO_SUM, TO_SUM),
];

// The register that is read: a in phase 1, then b, or d for operations from 4 on. The port is a tree of seven choices.
pub(crate) fn draw_read(sheet: &mut [u32])
    requires room { 714 ≤ length sheet.old }
    ensures { Drew sheet.old 0 (ink (join (late_index_stage ∷ index_stage ∷ select_stage ∷ read_stage ∷ []))) sheet.new }
{
    let r = AT_READ;
    let eight = registers();
    let four: [[u32; 16]; 4] = words(r + 2, 48, 3);
    let two: [[u32; 16]; 2] = words(r + 194, 48, 3);
    draw_mux(sheet, AT_LATE_INDEX, FROM_4_LINE, &FIELD_D, &FIELD_B);
    let part = &mut sheet[18..];
    draw_mux(part, AT_INDEX, PHASE_1_LINE, &FIELD_A, &LATE_INDEX);
    draw_inverters(&mut sheet[36..], AT_SELECT, &INDEX);
    draw_level(&mut sheet[42..], r, INDEX_LINES[0], &eight);
    draw_level(&mut sheet[426..], r + 192, INDEX_LINES[1], &four);
    draw_level(&mut sheet[618..], r + 288, INDEX_LINES[2], &two);
}

// The adder with its two words, NAND, less, and the zero test.
pub(crate) fn draw_arithmetic(sheet: &mut [u32])
    requires room { 738 ≤ length sheet.old }
    ensures { Drew sheet.old 0 (ink (join (first_stage ∷ second_stage ∷ addend_stage ∷ adder_stage ∷ nand_stage ∷ less_stage ∷ zero_stage ∷ []))) sheet.new }
{
    let counter = program_counter();
    let operand = operand();
    let port = port();
    let first = every(AT_FIRST + 2, 3);
    let second = every(AT_SECOND + 2, 3);
    let addend = every(AT_ADDEND + 3, 4);
    draw_mux(sheet, AT_FIRST, FIRST_LINE, &counter, &operand);
    let part = &mut sheet[96..];
    draw_mux(part, AT_SECOND, SECOND_LINE, &NUMBER_WORD, &port);
    draw_invert_if(&mut sheet[192..], AT_ADDEND, SUBTRACT, &second);
    draw_adder(&mut sheet[320..], AT_ADDER, &first, &addend, CARRY_IN);
    draw_nands(&mut sheet[608..], AT_NAND, &operand, &port);
    draw_inverters(&mut sheet[640..], AT_LESS, &[CARRY]);
    draw_zero_test(&mut sheet[642..], AT_ZERO, HIGH, &port);
}

// The result, chosen by the operation's bits: a tree of seven choices.
pub(crate) fn draw_result(sheet: &mut [u32])
    requires room { 672 ≤ length sheet.old }
    ensures { Drew sheet.old 0 (ink (join (nand_or_less_stage ∷ half_or_low_stage ∷ below_4_stage ∷ from_4_stage ∷ below_8_stage ∷ from_8_stage ∷ result_stage ∷ []))) sheet.new }
{
    let nanded = every(AT_NAND, 1);
    let sum = sum();
    let tape = every(TAPE_0, 1);
    let counter = program_counter();
    let nand_or_less = every(AT_NAND_OR_LESS + 2, 3);
    let half_or_low = every(AT_HALF_OR_LOW + 2, 3);
    let below_4 = every(AT_BELOW_4 + 2, 3);
    let from_4 = every(AT_FROM_4 + 2, 3);
    let below_8 = every(AT_BELOW_8 + 2, 3);
    let from_8 = every(AT_FROM_8 + 2, 3);
    draw_mux(sheet, AT_NAND_OR_LESS, OP_0_LINE, &LESS_WORD, &nanded);
    let part = &mut sheet[96..];
    draw_mux(part, AT_HALF_OR_LOW, OP_0_LINE, &LOW_WORD, &HALF_WORD);
    let part = &mut sheet[192..];
    draw_mux(part, AT_BELOW_4, OP_1_LINE, &nand_or_less, &sum);
    let part = &mut sheet[288..];
    draw_mux(part, AT_FROM_4, OP_1_LINE, &HIGH_WORD, &half_or_low);
    let part = &mut sheet[384..];
    draw_mux(part, AT_BELOW_8, OP_2_LINE, &from_4, &below_4);
    let part = &mut sheet[480..];
    draw_mux(part, AT_FROM_8, OP_0_LINE, &tape, &counter);
    let part = &mut sheet[576..];
    draw_mux(part, AT_RESULT, OP_3_LINE, &from_8, &below_8);
}

// The write port: the word from memory or the result, into the register that was kept.
pub(crate) fn draw_write(sheet: &mut [u32])
    requires room { 928 ≤ length sheet.old }
    ensures { Drew sheet.old 0 (ink (join (written_stage ∷ write_select_stage ∷ write_stage ∷ []))) sheet.new }
{
    let w = AT_WRITE;
    let instruction = every(INSTRUCTION_0, 1);
    let result = every(RESULT_0, 1);
    let written = every(AT_WRITTEN + 2, 3);
    let registers = registers();
    let select = [TARGET_0, TARGET_1, TARGET_2, WRITES];
    draw_mux(sheet, AT_WRITTEN, LOADS_LINE, &instruction, &result);
    draw_inverters(&mut sheet[96..], AT_WRITE_SELECT, &select);
    draw_split(&mut sheet[104..], w, TARGET_2_LINE, &ONE_LINE);
    draw_split(&mut sheet[112..], w + 4, TARGET_1_LINE, &TWO_LINES);
    draw_split(&mut sheet[128..], w + 12, TARGET_0_LINE, &FOUR_LINES);
    draw_keep(
        &mut sheet[160..],
        w + 28,
        &EIGHT_LINES,
        &written,
        &registers,
    );
}

// Where to go on, and the address: the sum in phase 1 and where a branch is taken, the operand at a jump, else no change.
pub(crate) fn draw_counter(sheet: &mut [u32])
    requires room { 298 ≤ length sheet.old }
    ensures { Drew sheet.old 0 (ink (join (branch_stage ∷ jump_stage ∷ counter_stage ∷ address_stage ∷ []))) sheet.new }
{
    let operand = operand();
    let counter = program_counter();
    let sum = sum();
    let stay_or_jump = every(AT_JUMP + 2, 3);
    put_gates(sheet, &BRANCH_GATES);
    let part = &mut sheet[10..];
    draw_mux(part, AT_JUMP, JUMP_LINE, &operand, &counter);
    let part = &mut sheet[106..];
    draw_mux(part, AT_COUNTER, TO_SUM_LINE, &sum, &stay_or_jump);
    let part = &mut sheet[202..];
    draw_mux(part, AT_ADDRESS, PHASE_2_LINE, &sum, &counter);
}
