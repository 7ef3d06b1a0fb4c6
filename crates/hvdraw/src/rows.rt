// The names of the drawing's parts, in the order in which they stand, and what each does. They stay beside the list
// `places`, and not in it: its contract has numbers alone, and the names are only printed.
pub(crate) const ROWS: [(&str, &str); 26] = [
    (
        "control",
        "which operation it is, and what is done in which phase",
    ),
    ("late index", "register d for operations from 4 on, else b"),
    ("index", "register a in phase 1, else the late index"),
    ("select", "the index inverted, for the read port"),
    (
        "read port",
        "the register that the index names: a tree of choices",
    ),
    (
        "first",
        "the adder's first word: the program counter or the operand",
    ),
    (
        "second",
        "the adder's second word: the instruction's number, the port, or 0",
    ),
    ("addend", "the second word, inverted to subtract"),
    ("adder", "the sum of both with the carry in"),
    ("nand", "NAND of the operand and the port"),
    (
        "less",
        "the inverse of the carry: the operand is below the port",
    ),
    ("zero", "the port is 0"),
    ("nand or less", "the result of operations 2 and 3"),
    ("half or low", "the result of operations 4 and 5"),
    ("below 4", "the result of operations 0 to 3"),
    ("from 4", "the result of operations 4 to 6"),
    ("below 8", "the result of operations below 8"),
    (
        "from 8",
        "the result of jump and in: the next place, the tape's word",
    ),
    ("result", "the result of all operations"),
    (
        "written",
        "what a register takes: the word from memory or the result",
    ),
    (
        "write select",
        "the register's number and the write line inverted",
    ),
    (
        "write port",
        "a decoder, then each register takes the word or keeps its own",
    ),
    ("branch", "whether the program counter takes the sum"),
    ("jump", "the operand at a jump, else the program counter"),
    ("counter", "the next place"),
    ("address", "the sum in phase 2, else the program counter"),
];
