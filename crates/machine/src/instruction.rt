// An instruction word taken apart.
ghost use Rattle.std.specs.Prelude.{◌<◌};

// The operation, the registers d, a and b, and the numbers n (in the place of a and b) and m (in the place of b). The
// operation is its number in the course's table, since the course asks for a match on the number, 13 to 15 as one range.
#[derive(Clone, Copy)]
pub struct Instruction {
    pub op: u16,
    pub d: usize,
    pub a: usize,
    pub b: usize,
    pub n: u16,
    pub m: u16,
    ghost op_within: { op < 16 },
    ghost registers_within: { (d < 8) × (a < 8) × (b < 8) },
}
