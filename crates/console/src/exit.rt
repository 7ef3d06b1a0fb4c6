// How a program ends.
ghost use Rattle.std.specs.Prelude.{◌≡◌, ◌↔◌, IfOk, IsOk};
ghost use Rattle.std.specs.Process.{exit_status};

use std::io;
use std::process::ExitCode;

// Status 0 if all went well; else the error goes to standard error, behind the program's name, and the status is 1.
pub fn finish(rt: &impl Eprint, program: &str, outcome: anyhow::Result<()>) -> io::Result<ExitCode>
    ensures { IfOk result (λ code. (exit_status code ≡ 0) ↔ IsOk outcome) }
{
    match outcome {
        Ok(()) => Ok(ExitCode::SUCCESS),
        Err(e) => {
            eprintln!(rt; "{program}: {e}")?;
            Ok(ExitCode::FAILURE)
        }
    }
}
