// Numbers in decimal, as the programs read them from arguments and lines.
#![tactic(auto)]

ghost use Rattle.std.specs.Prelude.{◌≡◌, ℕ, ◌<◌, MatchOption};
ghost use Rattle.decimal.specs.Decimal.{Writes};

// The number that the text writes in decimal, if it writes one and that is below the bound.
pub fn number_below(text: &[u8], bound: u32) -> Option<u32>
    ensures { MatchOption result ((n : ℕ) → n < bound → Writes text.now n → ⊥) (λ n. (n < bound) × Writes text.now n) }
{
    if text.is_empty() || bound == 0 {
        return None;
    }
    let mut n: u32 = 0;
    for c in text {
        if *c < b'0' || *c > b'9' {
            return None;
        }
        let more = 10 * n as u64 + (*c - 48) as u64;
        if more >= bound as u64 {
            return None;
        }
        n = more as u32;
    }
    Some(n)
}

// The word that the text writes in decimal, if it writes a number below 65,536.
pub fn word(text: &[u8]) -> Option<u16>
    ensures { MatchOption result ((n : ℕ) → n < 65536 → Writes text.now n → ⊥) (λ n. Writes text.now n) }
{
    Some(number_below(text, 65536)? as u16)
}
