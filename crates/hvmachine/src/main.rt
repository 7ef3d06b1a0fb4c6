// hvmachine: runs an image on the instruction machine and prints what it puts out.
#![tactic(auto)]

mod image;

use console::arguments::{NumberOption, read_arguments};
use console::exit::finish;
use image::read_image;
use machine::processor::Processor;
use std::env;
use std::io::{self, BufWriter, Write};
use std::process::ExitCode;

const HELP: &str = "usage: hvmachine [--limit N] [WORD..] < IMAGE

Runs an image on the instruction machine. The image is read from standard input: words in
decimal, one a line, for the places from 0 on; places after the last are 0. The tape is
the WORDs, in decimal. Every word is a number below 65536.

Prints each word put out on a line of its own, then how the machine halted (done, index
or full), or that it had not after N instructions (100000000 unless --limit says).

  --limit N   run at most N instructions, below 4294967295
  --help      print this";

const LIMIT: NumberOption = NumberOption {
    name: "--limit",
    what: "a number of instructions",
};

// So many instructions unless --limit says.
const STANDARD_LIMIT: u32 = 100_000_000;

// So many words are put out at most before they are printed.
const PIECE: usize = 4096;

// Runs the image in pieces, each short enough for the room that its words have, and prints the words of each.
fn run_image(
    out: &mut impl Write,
    image: &mut [u16],
    tape: &[u16],
    limit: u64,
) -> anyhow::Result<()> {
    let mut words = [0u16; PIECE];
    let mut p = machine::start();
    let mut left = limit;
    while left > 0 && p.halted.is_none() {
        let piece = left.min(PIECE as u64);
        let after = machine::run(p, image, tape, &mut words, piece)?;
        for word in &words[0..after.sent] {
            writeln!(out, "{word}")?;
        }
        p = Processor { sent: 0, ..after };
        left -= piece;
    }
    match p.halted {
        Some(ending) => writeln!(out, "{ending}")?,
        None => writeln!(out, "not halted after {limit} instructions")?,
    }
    Ok(())
}

fn hvmachine(rt: &HostRuntime) -> anyhow::Result<()> {
    let request = read_arguments(rt.alloc(), env::args(rt)?, Some(LIMIT), usize::MAX)?;
    let mut out = BufWriter::new(rt.alloc(), rt.stdout())?;
    if request.help {
        writeln!(out, "{HELP}")?;
    } else {
        let mut image = read_image(rt)?;
        let limit = request.number.unwrap_or(STANDARD_LIMIT);
        run_image(
            &mut out,
            image.as_mut_slice(),
            request.tape.as_slice(),
            u64::from(limit),
        )?;
    }
    out.flush()?;
    Ok(())
}

fn main(rt: HostRuntime) -> io::Result<ExitCode> {
    finish(&rt, "hvmachine", hvmachine(&rt))
}
