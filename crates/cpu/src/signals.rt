// The drawing's signals by name, as in specs/Signals and specs/Control: what comes in, the flip-flops, the control lines, and
// where each stage begins.

// A line and its inverse.
#[derive(Clone, Copy)]
pub(crate) struct Line(pub(crate) u32, pub(crate) u32);

// always low, always high; the word that memory hands over and the tape's next word, each by its lowest bit
pub(crate) const LOW: u32 = 0;

pub(crate) const HIGH: u32 = 1;

pub(crate) const INSTRUCTION_0: u32 = 2;

pub(crate) const TAPE_0: u32 = 18;

// the instruction's fields b, a and d, bits 6 to 8 of its number, and the bits of its operation
pub(crate) const FIELD_B: [u32; 3] = [5, 6, 7];

pub(crate) const FIELD_A: [u32; 3] = [8, 9, 10];

pub(crate) const FIELD_D: [u32; 3] = [11, 12, 13];

pub(crate) const NUMBER_6: u32 = 8;

pub(crate) const NUMBER_7: u32 = 9;

pub(crate) const NUMBER_8: u32 = 10;

pub(crate) const OP_0: u32 = 14;

pub(crate) const OP_1: u32 = 15;

pub(crate) const OP_2: u32 = 16;

pub(crate) const OP_3: u32 = 17;

// flip-flops: program counter, eight registers of sixteen, operand, result, each by its lowest bit; the register to write,
// the phases, whether a register is written and whether from memory
pub(crate) const COUNTER_0: u32 = 34;

pub(crate) const REGISTER_0: u32 = 50;

pub(crate) const OPERAND_0: u32 = 178;

pub(crate) const RESULT_0: u32 = 194;

pub(crate) const TARGET_0: u32 = 210;

pub(crate) const TARGET_1: u32 = 211;

pub(crate) const TARGET_2: u32 = 212;

pub(crate) const PHASE_1: u32 = 213;

pub(crate) const PHASE_2: u32 = 214;

pub(crate) const PHASE_3: u32 = 215;

pub(crate) const WRITES: u32 = 216;

pub(crate) const LOADS: u32 = 217;

// where each stage begins
pub(crate) const AT_CONTROL: u32 = 218;

pub(crate) const AT_LATE_INDEX: u32 = 290;

pub(crate) const AT_INDEX: u32 = 299;

pub(crate) const AT_SELECT: u32 = 308;

pub(crate) const AT_READ: u32 = 311;

pub(crate) const AT_FIRST: u32 = 647;

pub(crate) const AT_SECOND: u32 = 695;

pub(crate) const AT_ADDEND: u32 = 743;

pub(crate) const AT_ADDER: u32 = 807;

pub(crate) const AT_NAND: u32 = 951;

pub(crate) const AT_LESS: u32 = 967;

pub(crate) const AT_ZERO: u32 = 968;

pub(crate) const AT_NAND_OR_LESS: u32 = 1016;

pub(crate) const AT_HALF_OR_LOW: u32 = 1064;

pub(crate) const AT_BELOW_4: u32 = 1112;

pub(crate) const AT_FROM_4: u32 = 1160;

pub(crate) const AT_BELOW_8: u32 = 1208;

pub(crate) const AT_FROM_8: u32 = 1256;

pub(crate) const AT_RESULT: u32 = 1304;

pub(crate) const AT_WRITTEN: u32 = 1352;

pub(crate) const AT_WRITE_SELECT: u32 = 1400;

pub(crate) const AT_WRITE: u32 = 1404;

pub(crate) const AT_BRANCH: u32 = 1816;

pub(crate) const AT_JUMP: u32 = 1821;

pub(crate) const AT_COUNTER: u32 = 1869;

pub(crate) const AT_ADDRESS: u32 = 1917;

// the control lines; one that begins with NOT is the inverse of the next, or a step on the way to it
pub(crate) const NOT_OP_0: u32 = 218;

pub(crate) const NOT_OP_1: u32 = 219;

pub(crate) const NOT_OP_2: u32 = 220;

pub(crate) const NOT_OP_3: u32 = 221;

pub(crate) const FROM_4: u32 = 222;

pub(crate) const BELOW_4: u32 = 223;

pub(crate) const NOT_PHASE_1: u32 = 224;

pub(crate) const NOT_PHASE_2: u32 = 225;

pub(crate) const NOT_LOADS: u32 = 226;

pub(crate) const NOT_8_TO_11: u32 = 227;

pub(crate) const OPS_8_TO_11: u32 = 228;

pub(crate) const NOT_ENDS_01: u32 = 229;

pub(crate) const ENDS_01: u32 = 230;

pub(crate) const NOT_ZERO: u32 = 231;

pub(crate) const OP_ZERO: u32 = 232;

pub(crate) const FIRST_IS_COUNTER: u32 = 233;

pub(crate) const FIRST_IS_OPERAND: u32 = 234;

pub(crate) const NOT_ODD_BELOW_4: u32 = 235;

pub(crate) const ODD_BELOW_4: u32 = 236;

pub(crate) const NOT_SUBTRACT: u32 = 237;

pub(crate) const SUBTRACT: u32 = 238;

pub(crate) const CARRY_IN: u32 = 239;

pub(crate) const NOT_SECOND_IS_PORT: u32 = 240;

pub(crate) const SECOND_IS_PORT: u32 = 241;

pub(crate) const NOT_SECOND_IS_NUMBER: u32 = 242;

pub(crate) const SECOND_IS_NUMBER: u32 = 243;

pub(crate) const NOT_SIGN_6: u32 = 244;

pub(crate) const SIGN_6: u32 = 245;

pub(crate) const NOT_SIGN_7: u32 = 246;

pub(crate) const SIGN_7: u32 = 247;

pub(crate) const NOT_SIGN_8: u32 = 248;

pub(crate) const SIGN_8: u32 = 249;

pub(crate) const NOT_ENDS_00: u32 = 250;

pub(crate) const ENDS_00: u32 = 251;

pub(crate) const NOT_OP_STORE: u32 = 252;

pub(crate) const OP_STORE: u32 = 253;

pub(crate) const NOT_STORE: u32 = 254;

pub(crate) const STORE: u32 = 255;

pub(crate) const NOT_12_TO_15: u32 = 256;

pub(crate) const OPS_12_TO_15: u32 = 257;

pub(crate) const NOT_OP_OUT: u32 = 258;

pub(crate) const OP_OUT: u32 = 259;

pub(crate) const NOT_EMIT: u32 = 260;

pub(crate) const EMIT: u32 = 261;

pub(crate) const NOT_ENDS_11: u32 = 262;

pub(crate) const ENDS_11: u32 = 263;

pub(crate) const NOT_OP_IN: u32 = 264;

pub(crate) const OP_IN: u32 = 265;

pub(crate) const NOT_TAKE: u32 = 266;

pub(crate) const TAKE: u32 = 267;

pub(crate) const NOT_ENDS_10: u32 = 268;

pub(crate) const ENDS_10: u32 = 269;

pub(crate) const NOT_OP_JUMP: u32 = 270;

pub(crate) const OP_JUMP: u32 = 271;

pub(crate) const NOT_JUMP: u32 = 272;

pub(crate) const JUMP: u32 = 273;

pub(crate) const NOT_ODD_12_TO_15: u32 = 274;

pub(crate) const ODD_12_TO_15: u32 = 275;

pub(crate) const NOT_HALT_0: u32 = 276;

pub(crate) const HALT_0: u32 = 277;

pub(crate) const NOT_HIGH_12_TO_15: u32 = 278;

pub(crate) const HIGH_12_TO_15: u32 = 279;

pub(crate) const NOT_HALT_1: u32 = 280;

pub(crate) const HALT_1: u32 = 281;

pub(crate) const NOT_4_TO_7: u32 = 282;

pub(crate) const OPS_4_TO_7: u32 = 283;

pub(crate) const NOT_OP_LOAD: u32 = 284;

pub(crate) const LOAD: u32 = 285;

pub(crate) const NOT_JUMP_OR_IN: u32 = 286;

pub(crate) const OP_WRITES: u32 = 287;

pub(crate) const NOT_WRITE: u32 = 288;

pub(crate) const WRITE: u32 = 289;

// words that several stages use, by their lowest bit: the port and the sum, each bit so many signals after the one before
pub(crate) const PORT_0: u32 = 601;

pub(crate) const PORT_STEP: u32 = 3;

pub(crate) const SUM_0: u32 = 814;

pub(crate) const SUM_STEP: u32 = 9;

// words that are put together from others: the instruction's number with its sign carried on, less, half, low and high
pub(crate) const NUMBER_WORD: [u32; 16] = [
    2, 3, 4, 5, 6, 7, SIGN_6, SIGN_7, SIGN_8, SIGN_8, SIGN_8, SIGN_8, SIGN_8, SIGN_8, SIGN_8,
    SIGN_8,
];

pub(crate) const LESS_WORD: [u32; 16] = [
    IS_LESS, LOW, LOW, LOW, LOW, LOW, LOW, LOW, LOW, LOW, LOW, LOW, LOW, LOW, LOW, LOW,
];

pub(crate) const HALF_WORD: [u32; 16] = [
    179, 180, 181, 182, 183, 184, 185, 186, 187, 188, 189, 190, 191, 192, 193, LOW,
];

pub(crate) const LOW_WORD: [u32; 16] = [
    2, 3, 4, 5, 6, 7, 8, 9, 10, LOW, LOW, LOW, LOW, LOW, LOW, LOW,
];

pub(crate) const HIGH_WORD: [u32; 16] = [
    601, 604, 607, 610, 613, 616, 619, 622, 2, 3, 4, 5, 6, 7, 8, 9,
];

// the index of the register that is read, on the way and at its end, with its lines
pub(crate) const LATE_INDEX: [u32; 3] = [292, 295, 298];

pub(crate) const INDEX: [u32; 3] = [301, 304, 307];

pub(crate) const INDEX_LINES: [Line; 3] = [Line(301, 308), Line(304, 309), Line(307, 310)];

// the decoder's lines: one, two, four, eight
pub(crate) const ONE_LINE: [Line; 1] = [Line(WRITES, NOT_WRITES)];

pub(crate) const TWO_LINES: [Line; 2] = [Line(1405, 1404), Line(1407, 1406)];

pub(crate) const FOUR_LINES: [Line; 4] = [
    Line(1409, 1408),
    Line(1411, 1410),
    Line(1413, 1412),
    Line(1415, 1414),
];

pub(crate) const EIGHT_LINES: [Line; 8] = [
    Line(1417, 1416),
    Line(1419, 1418),
    Line(1421, 1420),
    Line(1423, 1422),
    Line(1425, 1424),
    Line(1427, 1426),
    Line(1429, 1428),
    Line(1431, 1430),
];

// the carry out of the adder; whether the first word is less; whether the port is 0
pub(crate) const CARRY: u32 = 950;

pub(crate) const IS_LESS: u32 = 967;

pub(crate) const IS_ZERO: u32 = 1015;

// the lines that lead the program counter, and those that write a register
pub(crate) const NOT_BRANCH: u32 = 1816;

pub(crate) const BRANCH: u32 = 1817;

pub(crate) const NOT_TAKEN: u32 = 1818;

pub(crate) const TO_SUM: u32 = 1819;

pub(crate) const NOT_TO_SUM: u32 = 1820;

pub(crate) const NOT_TARGET_0: u32 = 1400;

pub(crate) const NOT_TARGET_1: u32 = 1401;

pub(crate) const NOT_TARGET_2: u32 = 1402;

pub(crate) const NOT_WRITES: u32 = 1403;

// the lines that choose one of two words: of the adder's first words the program counter, of its second the number
pub(crate) const OP_0_LINE: Line = Line(OP_0, NOT_OP_0);

pub(crate) const OP_1_LINE: Line = Line(OP_1, NOT_OP_1);

pub(crate) const OP_2_LINE: Line = Line(OP_2, NOT_OP_2);

pub(crate) const OP_3_LINE: Line = Line(OP_3, NOT_OP_3);

pub(crate) const FROM_4_LINE: Line = Line(FROM_4, BELOW_4);

pub(crate) const PHASE_1_LINE: Line = Line(PHASE_1, NOT_PHASE_1);

pub(crate) const PHASE_2_LINE: Line = Line(PHASE_2, NOT_PHASE_2);

pub(crate) const FIRST_LINE: Line = Line(FIRST_IS_COUNTER, FIRST_IS_OPERAND);

pub(crate) const SECOND_LINE: Line = Line(SECOND_IS_NUMBER, SECOND_IS_PORT);

pub(crate) const LOADS_LINE: Line = Line(LOADS, NOT_LOADS);

pub(crate) const JUMP_LINE: Line = Line(JUMP, NOT_JUMP);

pub(crate) const TO_SUM_LINE: Line = Line(TO_SUM, NOT_TO_SUM);

pub(crate) const TARGET_0_LINE: Line = Line(TARGET_0, NOT_TARGET_0);

pub(crate) const TARGET_1_LINE: Line = Line(TARGET_1, NOT_TARGET_1);

pub(crate) const TARGET_2_LINE: Line = Line(TARGET_2, NOT_TARGET_2);
