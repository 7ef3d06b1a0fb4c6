// hvdraw: draws the machine and prints its sheet, or a table of its parts.
#![tactic(auto)]

mod rows;

ghost use Rattle.std.specs.Prelude.{◌≡◌, ℕ, ◌^◌, ◌<◌};
ghost use Rattle.circuit.specs.Sheet.{sheet_size};

use anyhow::bail;
use console::exit::finish;
use cpu::Size;
use cpu::places::places;
use rows::ROWS;
use std::env;
use std::io::{self, BufWriter, Write};
use std::process::ExitCode;

const HELP: &str = "usage: hvdraw [--parts]

Draws the machine as a circuit of NAND gates and flip-flops. The first line has the
number of flip-flops f and the number of gates k; then come the sheet's numbers, one a
line: f values at power on, the two signals of each gate, f next signals, 37 pins.

  --parts   print a table of the drawing's parts instead: name, first signal, number of
            gates, what the part does
  --help    print this";

// What the program is asked to do.
#[derive(Clone, Copy)]
enum Task {
    Sheet,
    Parts,
    Help,
}

fn from_args(rt: &HostRuntime) -> anyhow::Result<Task> {
    let mut task = Task::Sheet;
    for arg in env::args(rt)?.skip(1) {
        task = match arg.as_str() {
            "--help" => Task::Help,
            "--parts" => Task::Parts,
            other => bail!("unknown option (--help lists them): '{other}'"),
        };
    }
    Ok(task)
}

// How many numbers a sheet of this size has.
fn numbers(size: Size) -> usize
    ensures { sheet_size size.flops size.gates < 2 ^ 64 → result ≡ sheet_size size.flops size.gates }
{
    let flops = size.flops.saturating_mul(2);
    let gates = size.gates.saturating_mul(2).saturating_add(37);
    flops.saturating_add(gates)
}

// The sheet: the two counts, then its numbers, one a line.
fn print_sheet(rt: &HostRuntime, out: &mut impl Write) -> anyhow::Result<()> {
    let mut sheet = vec![in rt.alloc(); 0u32; 262144]?;
    let size = cpu::draw(sheet.as_mut_slice())?;
    writeln!(out, "{} {}", size.flops, size.gates)?;
    for x in sheet.iter().take(numbers(size)) {
        writeln!(out, "{x}")?;
    }
    Ok(())
}

// The table of parts: where each begins and how many gates it has, beside its name and what it does.
fn print_parts(out: &mut impl Write) -> anyhow::Result<()> {
    let places = places();
    writeln!(
        out,
        "{:<14} {:>6} {:>6}  {}",
        "part", "first", "gates", "what it does"
    )?;
    for ((first, gates), (name, does)) in places.iter().zip(ROWS.iter()) {
        writeln!(out, "{name:<14} {first:>6} {gates:>6}  {does}")?;
    }
    Ok(())
}

fn hvdraw(rt: &HostRuntime) -> anyhow::Result<()> {
    let task = from_args(rt)?;
    let mut out = BufWriter::new(rt.alloc(), rt.stdout())?;
    match task {
        Task::Sheet => print_sheet(rt, &mut out)?,
        Task::Parts => print_parts(&mut out)?,
        Task::Help => writeln!(out, "{HELP}")?,
    }
    out.flush()?;
    Ok(())
}

fn main(rt: HostRuntime) -> io::Result<ExitCode> {
    finish(&rt, "hvdraw", hvdraw(&rt))
}
