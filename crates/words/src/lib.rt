// The five operations on 16-bit words, for all layers that work on words, and how a run ends.
#![tactic(auto)]

pub mod ending;

ghost use Rattle.std.specs.Prelude.{◌≡◌};
ghost use Rattle.words.specs.Words.{add16, sub16, nand16, less16, half16};

// The sum, wrapped at 65,536.
pub fn add(a: u16, b: u16) -> u16
    ensures { result ≡ add16 a b }
{
    ((a as u32 + b as u32) % 65536) as u16
}

// The difference, wrapped at 65,536.
pub fn sub(a: u16, b: u16) -> u16
    ensures { result ≡ sub16 a b }
{
    ((a as u32 + 65536 - b as u32) % 65536) as u16
}

// NAND of all bits.
pub fn nand(a: u16, b: u16) -> u16
    ensures { result ≡ nand16 a b }
{
    !(a & b)
}

// 1 if the first is below the second, without sign, else 0.
pub fn less(a: u16, b: u16) -> u16
    ensures { result ≡ less16 a b }
{
    if a < b { 1 } else { 0 }
}

// Half of a word, rounded down.
pub fn half(a: u16) -> u16
    ensures { result ≡ half16 a }
{
    a / 2
}
