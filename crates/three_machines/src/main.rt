// three_machines: runs the texts of some tables by the language's definition, on the instruction machine and on the board,
// and compares what the three give with one another and with what the table says.
#![tactic(auto)]

mod agreement;
mod cases;
mod machines;
mod outcome;

use agreement::all_meet;
use anyhow::bail;
use cases::Case;
use console::exit::finish;
use machines::{Bounds, Task, by_definition, on_board, on_instructions};
use outcome::{Fate, Outcome, Runs};
use std::process::ExitCode;
use std::{env, fs, io};

const HELP: &str = "usage: three_machines TABLE..

Runs each text of the tables by the language's definition, on the instruction machine and on
the board, and compares what they give with one another and with what the table says. Prints
each difference; status 1 if there is one. How a table is written: src/cases.rt.";

// Far enough for every text that is expected to end, and a beginning of those that never do.
const TO_THE_END: Bounds = Bounds {
    fuel: 100_000,
    instructions: 500_000,
    cycles: 1_500_001,
};

const A_BEGINNING: Bounds = Bounds {
    fuel: 400,
    instructions: 10_000,
    cycles: 30_001,
};

// How many texts were to run, how many to be refused, and how many came out otherwise.
#[derive(Clone, Copy, Default)]
struct Tally {
    ran: u64,
    refused: u64,
    differ: u64,
}

// The first words of an outcome, how many there are, and its ending.
fn print_outcome(rt: &HostRuntime, who: &str, outcome: &Outcome) -> anyhow::Result<()> {
    print!(rt; "  {who}:")?;
    for w in outcome.words.iter().take(40) {
        print!(rt; " {w}")?;
    }
    let ending = outcome.ending;
    let words = outcome.words.len();
    let taken = outcome.taken;
    println!(rt; " {ending} (put out {words}, taken {taken})")?;
    Ok(())
}

// Runs a case on the three machines. Whether all came out as expected; if not, how is printed.
fn try_case(rt: &HostRuntime, case: &Case) -> anyhow::Result<bool> {
    let heap = rt.alloc();
    let bounds = match case.expected.ending {
        Fate::Running => A_BEGINNING,
        _ => TO_THE_END,
    };
    let task = Task {
        text: case.text.as_slice(),
        tape: case.tape.as_slice(),
        bounds,
    };
    let runs = Runs {
        definition: by_definition(heap, task)?,
        instructions: on_instructions(heap, task)?,
        board: on_board(heap, task)?,
    };
    if all_meet(&case.expected, &runs, case.more) {
        return Ok(true);
    }
    println!(rt; "DIFFERS: {}", case.name)?;
    print_outcome(rt, "expected", &case.expected)?;
    print_outcome(rt, "definition", &runs.definition)?;
    print_outcome(rt, "instruction machine", &runs.instructions)?;
    print_outcome(rt, "board", &runs.board)?;
    Ok(false)
}

// Runs a case and counts it.
fn count(rt: &HostRuntime, case: &Case, before: Tally) -> anyhow::Result<Tally> {
    let mut tally = before;
    if !try_case(rt, case)? {
        tally.differ = tally.differ.saturating_add(1);
    }
    match case.expected.ending {
        Fate::NoProgram | Fate::Limits => tally.refused = tally.refused.saturating_add(1),
        _ => tally.ran = tally.ran.saturating_add(1),
    }
    Ok(tally)
}

// Runs the cases of a table: each when its expected outcome is read.
fn run_table(rt: &HostRuntime, path: &str, before: Tally) -> anyhow::Result<Tally> {
    let heap = rt.alloc();
    let Ok(table) = fs::read_to_string(rt, path) else {
        bail!("{path}: cannot be read");
    };
    let mut tally = before;
    let mut case = Case::new(heap, "")?;
    for line in table.as_str().lines() {
        if let Some(name) = line.strip_prefix("name ") {
            case = Case::new(heap, name)?;
        } else if let Some(text) = line.strip_prefix("text ") {
            case.add_text(heap, text)?;
        } else if let Some(tape) = line.strip_prefix("tape ") {
            case.set_tape(heap, tape)?;
        } else if let Some(outcome) = line.strip_prefix("gives ") {
            case.set_outcome(heap, outcome)?;
            tally = count(rt, &case, tally)?;
        } else if !line.is_empty() && !line.starts_with("#") {
            bail!("{path}: {line}");
        }
    }
    Ok(tally)
}

// Runs the tables and sums up.
fn run_tables(rt: &HostRuntime) -> anyhow::Result<()> {
    let mut tally = Tally::default();
    for path in env::args(rt)?.skip(1) {
        if path.as_str() == "--help" {
            rt.println(HELP)?;
            return Ok(());
        }
        tally = run_table(rt, path.as_str(), tally)?;
    }
    let Tally {
        ran,
        refused,
        differ,
    } = tally;
    if differ > 0 {
        println!(rt; "{differ} texts differ")?;
        bail!("not all texts came out as expected");
    }
    if ran == 0 && refused == 0 {
        bail!("no texts (--help says how)");
    }
    println!(rt;
        "{ran} texts: the expected words and endings on three machines; {refused} texts refused by all"
    )?;
    Ok(())
}

fn main(rt: HostRuntime) -> io::Result<ExitCode> {
    finish(&rt, "three_machines", run_tables(&rt))
}
