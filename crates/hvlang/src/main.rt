// hvlang: runs a program of the course language by its definition and prints what it puts out.
#![tactic(auto)]

mod run;

ghost use Rattle.std.specs.Prelude.{◌≡◌};
ghost use Rattle.hvlang.specs.Report.{printed_ending};

use console::arguments::{NumberOption, read_arguments};
use console::exit::finish;
use run::run_text;
use std::env;
use std::io::{self, BufWriter, Read, Write};
use std::process::ExitCode;
use words::ending::Ending;

const HELP: &str = "usage: hvlang [--fuel N] [WORD..] < TEXT

Runs a program of the course language. Its text is read from standard input. The tape is
the WORDs, in decimal, each a number below 65536.

Prints each word put out on a line of its own, then how the run ended (done, index or
full), or that it was still running after calls and turns N deep: a call inside a call
takes two of N, a further turn of a loop takes one (10000000 unless --fuel says).

  --fuel N   let calls and further turns stand at most N deep, below 4294967295
  --help     print this";

const FUEL: NumberOption = NumberOption {
    name: "--fuel",
    what: "an amount of fuel",
};

// So much fuel unless --fuel says.
const STANDARD_FUEL: u32 = 10_000_000;

// So many words can be put out.
const MOST_OUT: usize = 1_000_000;

// What is printed of how a run ended.
fn printed_ending(ending: Option<Ending>) -> &'static str
    ensures { result.now ≡ printed_ending ending }
{
    match ending {
        Some(ending) => ending.name(),
        None => "still running",
    }
}

// Prints the words put out, and how the run ended.
fn print_run(
    out: &mut impl Write,
    words: &[u16],
    ending: Option<Ending>,
    fuel: u32,
) -> anyhow::Result<()> {
    for w in words {
        writeln!(out, "{w}")?;
    }
    let how = printed_ending(ending);
    match ending {
        Some(_) => writeln!(out, "{how}")?,
        None => writeln!(out, "{how} after calls and turns {fuel} deep")?,
    }
    Ok(())
}

// Runs the text and prints what came of it.
fn report(
    rt: &HostRuntime,
    out: &mut impl Write,
    text: &[u8],
    tape: &[u16],
    fuel: u32,
) -> anyhow::Result<()> {
    let mut words = vec![in rt.alloc(); 0u16; MOST_OUT]?;
    let run = run_text(text, tape, fuel, words.as_mut_slice())?;
    let sent = run.counts.sent;
    print_run(
        out,
        words.as_slice().get(0..sent).unwrap_or(&[]),
        run.ending,
        fuel,
    )
}

fn hvlang(rt: &HostRuntime) -> anyhow::Result<()> {
    let request = read_arguments(rt.alloc(), env::args(rt)?, Some(FUEL), usize::MAX)?;
    let mut out = BufWriter::new(rt.alloc(), rt.stdout())?;
    if request.help {
        writeln!(out, "{HELP}")?;
    } else {
        let mut text = Vec::new(rt.alloc());
        rt.stdin().read_to_end(&mut text)?;
        let fuel = request.number.unwrap_or(STANDARD_FUEL);
        report(rt, &mut out, text.as_slice(), request.tape.as_slice(), fuel)?;
    }
    out.flush()?;
    Ok(())
}

fn main(rt: HostRuntime) -> io::Result<ExitCode> {
    finish(&rt, "hvlang", hvlang(&rt))
}
