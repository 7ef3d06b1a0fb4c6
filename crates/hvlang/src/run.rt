// A text's program, loaded and run.
ghost use Rattle.std.specs.Prelude.{◌≡◌};
ghost use Rattle.hvlang.specs.Report.{Reports, refused_as};

use interpreter::{FRAME_ROOM, InterpretError, Run, interpret};
use text::judge::Refused;
use text::limits::{MOST_CELLS, MOST_GLOBALS};
use text::load::load;
use thiserror::Error;

// Why there is no run: more words are put out than there is room for; no program; a program outside the limits.
#[derive(Clone, Copy, PartialEq, Eq, Debug, Error)]
pub(crate) enum RunError {
    #[error("more than 1000000 words are put out")]
    NoOut,
    #[error("the text is no program")]
    NoProgram,
    #[error("the program is outside the limits")]
    Limits,
}

impl From<Refused> for RunError {
    ghost from_gives = { λ r e. e ≡ refused_as r };

    fn from(refused: Refused) -> RunError {
        match refused {
            Refused::NoProgram => RunError::NoProgram,
            Refused::Limits => RunError::Limits,
        }
    }
}

// Runs the program that the text writes, with so much fuel.
pub(crate) fn run_text(
    source: &[u8],
    tape: &[u16],
    fuel: u32,
    out: &mut [u16],
) -> Result<Run, RunError>
    ensures { Reports source.now tape.now fuel out.old out.new result }
{
    let program = load(source)?;
    let sizes = program.sizes;
    let mut frames = [0u16; FRAME_ROOM];
    let mut globals = [0u16; MOST_GLOBALS];
    let mut cells = [0u16; MOST_CELLS];
    match interpret(
        &program.nodes,
        program.procedures(),
        tape,
        fuel,
        &mut frames,
        &mut globals[0..sizes.globals],
        &mut cells[0..sizes.cells],
        out,
    ) {
        Ok(run) => Ok(run),
        Err(InterpretError::NoOut) => Err(RunError::NoOut),
        // Neither can be: the program that is loaded is lent, and there are words enough for frames.
        Err(InterpretError::NoProgram) => Err(RunError::NoProgram),
        Err(InterpretError::Short) => Err(RunError::NoProgram),
    }
}
