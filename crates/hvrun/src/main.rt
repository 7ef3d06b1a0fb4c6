// hvrun: runs the program of a text on the board, and prints what the lamps show.
#![tactic(auto)]

use anyhow::bail;
use console::arguments::read_arguments;
use console::exit::finish;
use console::text::read_text_within;
use stack::{FLOPS, IMAGE, Lit, SHEET, SIGNALS};
use std::alloc::Global;
use std::env;
use std::io::{self, BufWriter, Write};
use std::process::ExitCode;

const HELP: &str = "usage: hvrun [WORD..] < TEXT

Runs the program of a text on the board: builds its image, draws the machine, and spins
the drawing from power on for at most 2000000 cycles. The tape is the WORDs, in decimal,
each below 65536.

Prints each word that the lamps show on a line of its own, then how the board halted (done,
index or full), or that it has not.

  --help      print this";

// The largest text and the longest tape that are read, in bytes and in words.
const MOST_BYTES: usize = 1_048_576;

const MOST_WORDS: usize = 100_000;

// A text that has not ended after so many reads is refused.
const MOST_READS: u64 = 1_000_000;

const CYCLES: u64 = 2_000_000;

// Room for the words that are shown: our drawing shows at most one in three cycles.
const WORDS: usize = 666_700;

// Prints what the lamps show, and how the board halted.
fn print_lamps(out: &mut impl Write, words: &[u16], lit: Lit) -> anyhow::Result<()> {
    let Some(shown) = words.get(0..lit.sent) else {
        bail!("more words shown than there is room for");
    };
    for word in shown {
        writeln!(out, "{word}")?;
    }
    match lit.halted {
        Some(ending) => writeln!(out, "{ending}")?,
        None => writeln!(out, "not halted after {CYCLES} cycles")?,
    }
    Ok(())
}

// Runs the text on the board, over buffers of its own.
fn run_text(heap: Global, out: &mut impl Write, text: &[u8], tape: &[u16]) -> anyhow::Result<()> {
    let mut image = vec![in heap; 0u16; IMAGE]?;
    let mut sheet = vec![in heap; 0u32; SHEET]?;
    let mut state = vec![in heap; 0u8; FLOPS]?;
    let mut work = vec![in heap; 0u8; SIGNALS]?;
    let mut words = vec![in heap; 0u16; WORDS]?;
    let lit = stack::run(
        text,
        tape,
        CYCLES,
        image.as_mut_slice(),
        sheet.as_mut_slice(),
        state.as_mut_slice(),
        work.as_mut_slice(),
        words.as_mut_slice(),
    )?;
    print_lamps(out, words.as_slice(), lit)
}

fn hvrun(rt: &HostRuntime) -> anyhow::Result<()> {
    let request = read_arguments(rt.alloc(), env::args(rt)?, None, MOST_WORDS)?;
    let mut out = BufWriter::new(rt.alloc(), rt.stdout())?;
    if request.help {
        writeln!(out, "{HELP}")?;
    } else {
        let input = &mut rt.stdin();
        let Some(text) = read_text_within(rt.alloc(), input, MOST_BYTES, MOST_READS)? else {
            bail!("the text is longer than {MOST_BYTES} bytes");
        };
        run_text(
            rt.alloc(),
            &mut out,
            text.as_slice(),
            request.tape.as_slice(),
        )?;
    }
    out.flush()?;
    Ok(())
}

fn main(rt: HostRuntime) -> io::Result<ExitCode> {
    finish(&rt, "hvrun", hvrun(&rt))
}
