// An image as a list of instructions in readable form.
use machine::instruction::Instruction;
use std::io::Write;

// The names of the operations, by their numbers.
const NAMES: [&str; 16] = [
    "add", "sub", "nand", "less", "half", "low", "high", "load", "store", "zero", "jump", "in",
    "out", "done", "index", "full",
];

// The instruction's name, and its registers and numbers; how far a branch goes has a sign.
fn write_instruction(out: &mut impl Write, i: Instruction) -> anyhow::Result<()> {
    let Instruction { op, d, a, b, n, m } = i;
    let name = NAMES[op as usize];
    match op {
        0..=3 => writeln!(out, "{name} {d} {a} {b}")?,
        4 | 10 => writeln!(out, "{name} {d} {a}")?,
        5 => writeln!(out, "{name} {d} {n}")?,
        6 => {
            let byte = n % 256;
            writeln!(out, "{name} {d} {byte}")?
        }
        7 | 8 => writeln!(out, "{name} {d} {a} {m}")?,
        9 => {
            if n < 256 {
                writeln!(out, "{name} {d} +{n}")?
            } else {
                let back = 512 - n % 512;
                writeln!(out, "{name} {d} -{back}")?
            }
        }
        11 | 12 => writeln!(out, "{name} {d}")?,
        _ => writeln!(out, "{name}")?,
    }
    Ok(())
}

// Each word's place, the word, and its instruction.
pub(crate) fn write_listing(out: &mut impl Write, image: &[u16]) -> anyhow::Result<()> {
    for (place, w) in image.iter().enumerate() {
        write!(out, "{place} {w} ")?;
        write_instruction(out, Instruction::from(*w))?;
    }
    Ok(())
}
