// The definition of a circuit and of its board is in specs/. Each function here asks, by its contract, for the proof of
// the law of one part; a drawing cites the laws and never looks into a part again.
#![tactic(auto)]

ghost use Rattle.circuit.specs.PartsLaws.{InverterInverts, NandNands, MuxChooses, InvertIfInverts, ZeroTests, AdderAdds, SubtractSubtracts, LessCompares, PortReads, PortWrites};

// Inverters: a word and its inverse are all ones together.
pub fn inverter_inverts()
    ensures { InverterInverts }
{}

// NAND of all bits of two words.
pub fn nand_nands()
    ensures { NandNands }
{}

// The choice gives the first word where its line is high, else the second.
pub fn mux_chooses()
    ensures { MuxChooses }
{}

// The conditional inverse gives the word's inverse where its line is high, else the word.
pub fn invert_if_inverts()
    ensures { InvertIfInverts }
{}

// The zero test is high where the word is 0.
pub fn zero_tests()
    ensures { ZeroTests }
{}

// The adder adds.
pub fn adder_adds()
    ensures { AdderAdds }
{}

// The subtractor subtracts.
pub fn subtract_subtracts()
    ensures { SubtractSubtracts }
{}

// The subtractor compares, without sign.
pub fn less_compares()
    ensures { LessCompares }
{}

// The register file's read port reads.
pub fn port_reads()
    ensures { PortReads }
{}

// The register file's write port writes.
pub fn port_writes()
    ensures { PortWrites }
{}
