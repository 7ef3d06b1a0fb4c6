// A program as an array of nodes: one node for each expression, statement and procedure, in the order of its text. A
// node names its parts by their number in the array, and every part stands after its node. No tree of boxes: nothing in the
// layers allocates, and the course asks for one node at a time from an array of them.

// As many nodes as a program may have, and as many procedures.
pub const MOST_NODES: usize = 2000;

pub const MOST_PROCEDURES: usize = 256;

#[derive(Clone, Copy)]
pub enum Node {
    Num(u16),
    Loc(u16),
    Glob(u16),
    Cell(u16),
    Add(u16, u16),
    Sub(u16, u16),
    Nand(u16, u16),
    Less(u16, u16),
    Half(u16),
    // The procedure's number, and the argument's node.
    Call(u16, u16),
    Skip,
    Then(u16, u16),
    // The number of what is set, and the value's node.
    SetLoc(u16, u16),
    SetGlob(u16, u16),
    SetCell(u16, u16),
    If(u16, u16, u16),
    While(u16, u16),
    Out(u16),
    Take(u16),
    // How many further locals, the body's node, and the node after the body's last.
    Proc(u16, u16, u16),
}

// A procedure, as it is found by its number: how many further locals it has, and its body's node.
#[derive(Clone, Copy)]
pub struct Procedure {
    pub locals: u16,
    pub body: u16,
}

// How many globals, cells, procedures and signs a program has.
#[derive(Clone, Copy, PartialEq, Eq, Debug)]
pub struct Sizes {
    pub globals: usize,
    pub cells: usize,
    pub procs: usize,
    pub signs: usize,
}
