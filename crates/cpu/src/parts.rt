// Words of signals, and the parts, each drawn at the front of the sheet that it is lent. The caller lends the part of its
// sheet that begins where the part's gates belong. A part that leads nothing from bit to bit hands LOW to the first.
ghost use Rattle.std.specs.Prelude.{◌≡◌, ℕ, ◌+◌, ◌*◌, ◌^◌, ◌<◌, ◌≤◌, length, map};
ghost use Rattle.std.specs.List.{range_with_len};
ghost use Rattle.circuit.specs.Parts.{inverter_gates, nand_gates, mux_gates, invert_if_gates, zero_gates};
ghost use Rattle.circuit.specs.PartsAdder.{adder_gates};
ghost use Rattle.cpu.specs.Ink.{ink, Drew, spaced};

use crate::bits::draw_bits;
use crate::signals::{LOW, Line};
use std::array;

// Gates one after the other.
pub(crate) fn put_gates(sheet: &mut [u32], gates: &[(u32, u32)])
    requires { 2 * length gates.now ≤ length sheet.old }
    ensures { Drew sheet.old 0 (ink gates.now) sheet.new }
{
    for (i, &(a, b)) in gates.iter().enumerate() {
        sheet[2 * i] = a;
        sheet[2 * i + 1] = b;
    }
}

// A word of sixteen signals, each `step` after the one before.
pub(crate) fn every(first: u32, step: u32) -> [u32; 16]
    requires { first + 16 * step < 2 ^ 32 }
    ensures { result ≡ spaced first step }
{
    array::from_fn(|i| first + i as u32 * step)
}

// Words, each `apart` signals after the one before.
pub(crate) fn words<const N: usize>(first: u32, apart: u32, step: u32) -> [[u32; 16]; N]
    requires few { N < 2 ^ 32 }
    requires small { first + N * apart + 16 * step < 2 ^ 32 }
    ensures { result ≡ map (λ i. spaced (first + i * apart) step) (range_with_len 0 N) }
{
    array::from_fn(
        |i|
            requires few { i < 2 ^ 32 }
            requires small { first + i * apart + 16 * step < 2 ^ 32 }
            ensures { result ≡ spaced (first + i * apart) step }
        { every(first + i as u32 * apart, step) },
    )
}

// NAND of two words. Two words of one width come as two slices, here and below: pairs of bits would have to be made first.
#[tactic(auto, using(crate::proofs::BitByBit::nand_bits))]
pub(crate) fn draw_nands(sheet: &mut [u32], first: u32, xs: &[u32], ys: &[u32])
    requires same { length xs.now ≡ length ys.now }
    requires room { 2 * length xs.now ≤ length sheet.old }
    requires small { first + length xs.now < 2 ^ 32 }
    ensures { Drew sheet.old 0 (ink (nand_gates first xs.now ys.now)) sheet.new }
{
    draw_bits(sheet, 1, first, LOW, xs, ys, |place, _, _, x, y| {
        put_gates(place, &[(x, y)]);
    });
}

// Inverters.
#[tactic(auto, using(crate::proofs::BitByBit::nand_inverts))]
pub(crate) fn draw_inverters(sheet: &mut [u32], first: u32, xs: &[u32])
    requires room { 2 * length xs.now ≤ length sheet.old }
    requires small { first + length xs.now < 2 ^ 32 }
    ensures { Drew sheet.old 0 (ink (inverter_gates first xs.now)) sheet.new }
{
    draw_nands(sheet, first, xs, xs);
}

// The choice of two words: the first where the line is high.
#[tactic(auto, using(crate::proofs::BitByBit::mux_bits))]
pub(crate) fn draw_mux(sheet: &mut [u32], first: u32, line: Line, xs: &[u32], ys: &[u32])
    requires same { length xs.now ≡ length ys.now }
    requires room { 6 * length xs.now ≤ length sheet.old }
    requires small { first + 3 * length xs.now < 2 ^ 32 }
    ensures { Drew sheet.old 0 (ink (mux_gates first line.0 line.1 xs.now ys.now)) sheet.new }
{
    let Line(select, unselect) = line;
    draw_bits(sheet, 3, first, LOW, xs, ys, move |place, n, _, x, y| {
        put_gates(place, &[(x, select), (y, unselect), (n, n + 1)]);
    });
}

// A word, or its inverse where a line is high.
#[tactic(auto, using(crate::proofs::BitByBit::invert_if_bits))]
pub(crate) fn draw_invert_if(sheet: &mut [u32], first: u32, line: u32, xs: &[u32])
    requires room { 8 * length xs.now ≤ length sheet.old }
    requires small { first + 4 * length xs.now < 2 ^ 32 }
    ensures { Drew sheet.old 0 (ink (invert_if_gates first line xs.now)) sheet.new }
{
    draw_bits(sheet, 4, first, LOW, xs, xs, move |place, n, _, x, _| {
        put_gates(place, &[(x, line), (x, n), (line, n), (n + 1, n + 2)]);
    });
}

// The ripple-carry adder: the carry of each bit, its last gate, is led to the next.
#[tactic(auto, using(crate::proofs::BitByBit::adder_bits))]
pub(crate) fn draw_adder(sheet: &mut [u32], first: u32, xs: &[u32], ys: &[u32], carry_in: u32)
    requires same { length xs.now ≡ length ys.now }
    requires room { 18 * length xs.now ≤ length sheet.old }
    requires small { first + 9 * length xs.now < 2 ^ 32 }
    ensures { Drew sheet.old 0 (ink (adder_gates first xs.now ys.now carry_in)) sheet.new }
{
    draw_bits(sheet, 9, first, carry_in, xs, ys, |place, n, carry, x, y| {
        put_gates(
            place,
            &[
                (x, y),
                (x, n),
                (y, n),
                (n + 1, n + 2),
                (n + 3, carry),
                (n + 3, n + 4),
                (carry, n + 4),
                (n + 5, n + 6),
                (n, n + 4),
            ],
        );
    });
}

// The zero test: each bit inverted, then AND with what the bits below gave.
#[tactic(auto, using(crate::proofs::BitByBit::zero_bits))]
pub(crate) fn draw_zero_test(sheet: &mut [u32], first: u32, high: u32, xs: &[u32])
    requires room { 6 * length xs.now ≤ length sheet.old }
    requires small { first + 3 * length xs.now < 2 ^ 32 }
    ensures { Drew sheet.old 0 (ink (zero_gates first high xs.now)) sheet.new }
{
    draw_bits(sheet, 3, first, high, xs, xs, |place, n, so_far, x, _| {
        put_gates(place, &[(x, x), (so_far, n), (n + 1, n + 1)]);
    });
}
