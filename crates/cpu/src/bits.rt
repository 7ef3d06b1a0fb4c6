// The loop that draws a part bit by bit.
ghost use Rattle.std.specs.Prelude.{◌≡◌, ℕ, ◌+◌, ◌*◌, ◌^◌, ◌<◌, ◌≤◌, length};
ghost use Rattle.circuit.specs.Parts.{Gates};
ghost use Rattle.cpu.specs.Bits.{bits, DrawsBit};
ghost use Rattle.cpu.specs.Ink.{ink, Drew};

// A part over two words of bits, or over lists of anything else, of so many gates a bit. `draw` draws the gates of one bit on
// the part of the sheet that begins where they belong, from the signal at which they begin, the last gate of the bit before,
// and the bit of either word; `part` says which gates. No two of its parameters come together anywhere else.
pub(crate) fn draw_bits<X: Copy, F: Fn(&mut [u32], u32, u32, X, X)>(
    sheet: &mut [u32],
    count: u32,
    first: u32,
    before: u32,
    xs: &[X],
    ys: &[X],
    draw: F,
)
    ghost part: { ℕ → ℕ → X → X → Gates }
    requires bit { DrawsBit part count (F.pre draw) (F.post draw) }
    requires same { length xs.now ≡ length ys.now }
    requires room { 2 * (count * length xs.now) ≤ length sheet.old }
    requires small { first + count * length xs.now < 2 ^ 32 }
    ensures { Drew sheet.old 0 (ink (bits part count first before xs.now ys.now)) sheet.new }
{
    // Two numbers run beside the words: the place on the sheet and the first signal of the bit. Counted from an index both
    // would be products, and a third number, the last gate, would still run.
    let mut at = 0;
    let mut n = first;
    let mut last = before;
    for (x, y) in xs.iter().zip(ys) {
        draw(&mut sheet[at..], n, last, *x, *y);
        at += 2 * count as usize;
        n += count;
        last = n - 1;
    }
}
