// The loops that draw the ports of a register file of words of sixteen bits, at the front of the sheet that they are lent.
ghost use Rattle.std.specs.Prelude.{◌≡◌, ℕ, ◌+◌, ◌*◌, ◌^◌, ◌<◌, ◌≤◌, length, map};
ghost use Rattle.circuit.specs.PartsRegisters.{level_gates, split_gates, keep_gates};
ghost use Rattle.cpu.specs.Ink.{ink, Drew};
ghost use Rattle.cpu.specs.Lines.{both};

use crate::bits::draw_bits;
use crate::parts::{draw_mux, put_gates};
use crate::signals::{LOW, Line};

// One level of the read port: of each two words, the second where the line is high, else the first.
pub(crate) fn draw_level(sheet: &mut [u32], first: u32, line: Line, words: &[[u32; 16]])
    requires room { 48 * length words.now ≤ length sheet.old }
    requires small { first + 24 * length words.now < 2 ^ 32 }
    ensures { Drew sheet.old 0 (ink (level_gates first line.0 line.1 words.now)) sheet.new }
{
    // This loop and that of `draw_keep` are not `draw_bits`, which wants as many gates of whatever it is handed: here they
    // depend on how wide a word is. Nor are they one: what they would share is the line that calls `draw_mux`.
    for (i, pair) in words.chunks_exact(2).enumerate() {
        let n = first + 48 * i as u32;
        draw_mux(&mut sheet[96 * i..], n, line, &pair[1], &pair[0]);
    }
}

// Each line led on to two: the line and not the select line, the line and the select line.
#[tactic(auto, using(crate::proofs::BitByBit::split_bits))]
pub(crate) fn draw_split(sheet: &mut [u32], first: u32, select: Line, lines: &[Line])
    requires room { 8 * length lines.now ≤ length sheet.old }
    requires small { first + 4 * length lines.now < 2 ^ 32 }
    ensures { Drew sheet.old 0 (ink (split_gates first select.0 select.1 (map both lines.now))) sheet.new }
{
    let Line(select, unselect) = select;
    draw_bits(
        sheet,
        4,
        first,
        LOW,
        lines,
        lines,
        move |place, n, _, Line(line, _), _| {
            put_gates(
                place,
                &[(line, unselect), (n, n), (line, select), (n + 2, n + 2)],
            );
        },
    );
}

// Each register takes the word where its line is high, else it keeps its own.
pub(crate) fn draw_keep(
    sheet: &mut [u32],
    first: u32,
    lines: &[Line],
    word: &[u32; 16],
    words: &[[u32; 16]],
)
    requires same { length lines.now ≡ length words.now }
    requires room { 96 * length words.now ≤ length sheet.old }
    requires small { first + 48 * length words.now < 2 ^ 32 }
    ensures { Drew sheet.old 0 (ink (keep_gates first (map both lines.now) word.now words.now)) sheet.new }
{
    for (i, (&line, kept)) in lines.iter().zip(words).enumerate() {
        let n = first + 48 * i as u32;
        draw_mux(&mut sheet[96 * i..], n, line, word, kept);
    }
}
