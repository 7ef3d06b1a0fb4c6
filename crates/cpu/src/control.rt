// The control stage: its gates as a table, in the order of the lines that they make.
ghost use Rattle.std.specs.Prelude.{ℕ, ◌≤◌, length};
ghost use Rattle.cpu.specs.Control.{control_stage};
ghost use Rattle.cpu.specs.Ink.{ink, Drew};

use crate::parts::put_gates;
use crate::signals::*;

const CONTROL_GATES: [(u32, u32); 72] = [
    (OP_0, OP_0),
    (OP_1, OP_1),
    (OP_2, OP_2),
    (OP_3, OP_3),
    (NOT_OP_3, NOT_OP_2),
    (FROM_4, FROM_4),
    (PHASE_1, PHASE_1),
    (PHASE_2, PHASE_2),
    (LOADS, LOADS),
    (OP_3, NOT_OP_2),
    (NOT_8_TO_11, NOT_8_TO_11),
    (NOT_OP_1, OP_0),
    (NOT_ENDS_01, NOT_ENDS_01),
    (OPS_8_TO_11, ENDS_01),
    (NOT_ZERO, NOT_ZERO),
    (NOT_PHASE_1, NOT_ZERO),
    (FIRST_IS_COUNTER, FIRST_IS_COUNTER),
    (BELOW_4, OP_0),
    (NOT_ODD_BELOW_4, NOT_ODD_BELOW_4),
    (PHASE_2, ODD_BELOW_4),
    (NOT_SUBTRACT, NOT_SUBTRACT),
    (NOT_PHASE_1, NOT_SUBTRACT),
    (PHASE_2, BELOW_4),
    (NOT_SECOND_IS_PORT, NOT_SECOND_IS_PORT),
    (PHASE_2, FROM_4),
    (NOT_SECOND_IS_NUMBER, NOT_SECOND_IS_NUMBER),
    (NUMBER_6, OP_ZERO),
    (NOT_SIGN_6, NOT_SIGN_6),
    (NUMBER_7, OP_ZERO),
    (NOT_SIGN_7, NOT_SIGN_7),
    (NUMBER_8, OP_ZERO),
    (NOT_SIGN_8, NOT_SIGN_8),
    (NOT_OP_1, NOT_OP_0),
    (NOT_ENDS_00, NOT_ENDS_00),
    (OPS_8_TO_11, ENDS_00),
    (NOT_OP_STORE, NOT_OP_STORE),
    (PHASE_2, OP_STORE),
    (NOT_STORE, NOT_STORE),
    (OP_3, OP_2),
    (NOT_12_TO_15, NOT_12_TO_15),
    (OPS_12_TO_15, ENDS_00),
    (NOT_OP_OUT, NOT_OP_OUT),
    (PHASE_2, OP_OUT),
    (NOT_EMIT, NOT_EMIT),
    (OP_1, OP_0),
    (NOT_ENDS_11, NOT_ENDS_11),
    (OPS_8_TO_11, ENDS_11),
    (NOT_OP_IN, NOT_OP_IN),
    (PHASE_2, OP_IN),
    (NOT_TAKE, NOT_TAKE),
    (OP_1, NOT_OP_0),
    (NOT_ENDS_10, NOT_ENDS_10),
    (OPS_8_TO_11, ENDS_10),
    (NOT_OP_JUMP, NOT_OP_JUMP),
    (PHASE_2, OP_JUMP),
    (NOT_JUMP, NOT_JUMP),
    (OPS_12_TO_15, OP_0),
    (NOT_ODD_12_TO_15, NOT_ODD_12_TO_15),
    (PHASE_2, ODD_12_TO_15),
    (NOT_HALT_0, NOT_HALT_0),
    (OPS_12_TO_15, OP_1),
    (NOT_HIGH_12_TO_15, NOT_HIGH_12_TO_15),
    (PHASE_2, HIGH_12_TO_15),
    (NOT_HALT_1, NOT_HALT_1),
    (NOT_OP_3, OP_2),
    (NOT_4_TO_7, NOT_4_TO_7),
    (OPS_4_TO_7, ENDS_11),
    (NOT_OP_LOAD, NOT_OP_LOAD),
    (OPS_8_TO_11, OP_1),
    (OP_3, NOT_JUMP_OR_IN),
    (PHASE_2, OP_WRITES),
    (NOT_WRITE, NOT_WRITE),
];

// The control lines, from the operation's bits and the phases.
#[tactic(auto, unfolding(crate::specs::Control::control_stage))]
pub(crate) fn draw_control(sheet: &mut [u32])
    requires room { 144 ≤ length sheet.old }
    ensures { Drew sheet.old 0 (ink control_stage) sheet.new }
{
    put_gates(sheet, &CONTROL_GATES);
}
