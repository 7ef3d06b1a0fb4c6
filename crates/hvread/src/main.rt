// hvread reads a text from standard input and says what it is: a program, with its sizes, or no program, or a program
// outside the limits. Status 0 for a program; else 1, with the answer on standard error.
#![tactic(auto)]

use language::nodes::Sizes;
use std::io::Read;
use std::process::ExitCode;
use std::{env, io};
use text::load::load;

const HELP: &str = "usage: hvread < TEXT
Says whether TEXT is a program, and how many globals, cells, procedures and signs it has.
Answers 'no program' and 'limits' go to standard error, with status 1.";

fn answer(rt: &HostRuntime, text: &[u8]) -> io::Result<ExitCode> {
    match load(text) {
        Ok(parsed) => {
            let Sizes {
                globals,
                cells,
                procs,
                signs,
            } = parsed.sizes;
            println!(rt;
                "program: {globals} globals, {cells} cells, {procs} procedures, {signs} signs"
            )?;
            Ok(ExitCode::SUCCESS)
        }
        Err(refused) => {
            eprintln!(rt; "{refused}")?;
            Ok(ExitCode::FAILURE)
        }
    }
}

fn input(rt: &HostRuntime) -> io::Result<Vec<u8>> {
    let mut text = Vec::new(rt.alloc());
    rt.stdin().read_to_end(&mut text)?;
    Ok(text)
}

fn hvread(rt: &HostRuntime) -> io::Result<ExitCode> {
    let mut args = env::args(rt)?;
    let _ = args.next();
    if let Some(option) = args.next() {
        if option.as_str() == "--help" {
            rt.println(HELP)?;
            return Ok(ExitCode::SUCCESS);
        }
        eprintln!(rt; "hvread: unknown option {option} (see hvread --help)")?;
        return Ok(ExitCode::FAILURE);
    }
    let text = input(rt)?;
    answer(rt, text.as_slice())
}

fn main(rt: HostRuntime) -> io::Result<ExitCode> {
    match hvread(&rt) {
        Ok(status) => Ok(status),
        Err(e) => {
            eprintln!(rt; "hvread: {e}")?;
            Ok(ExitCode::FAILURE)
        }
    }
}
