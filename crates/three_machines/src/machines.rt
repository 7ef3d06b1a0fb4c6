// The three machines: each runs a text with a tape, up to a bound.
use crate::outcome::{Fate, Outcome};
use compiler::build;
use interpreter::{FRAME_ROOM, interpret};
use stack::{FLOPS, IMAGE, Lit, SHEET, SIGNALS};
use std::alloc::{AllocError, Global};
use text::load::load;

// How far each machine runs: how deep calls and turns may stand, how many instructions, how many cycles.
#[derive(Clone, Copy)]
pub(crate) struct Bounds {
    pub fuel: u32,
    pub instructions: u64,
    pub cycles: u64,
}

// A text, its tape, and the bounds of its runs.
#[derive(Clone, Copy)]
pub(crate) struct Task<'a> {
    pub text: &'a [u8],
    pub tape: &'a [u16],
    pub bounds: Bounds,
}

// Room for the words that are put out.
const MOST_OUT: usize = 200_000;

// The outcome of a run that put its words out in front of some, or of one that did not come about.
fn outcome(heap: Global, mut words: Vec<u16>, ran: Result<Lit, Fate>) -> Outcome {
    match ran {
        Ok(lit) => {
            words.truncate(lit.sent);
            Outcome {
                words,
                taken: lit.taken,
                ending: lit.halted.into(),
            }
        }
        Err(ending) => Outcome {
            words: Vec::new(heap),
            taken: 0,
            ending,
        },
    }
}

// The program that a text writes, by the language's definition.
pub(crate) fn by_definition(heap: Global, task: Task<'_>) -> Result<Outcome, AllocError> {
    let program = match load(task.text) {
        Ok(program) => program,
        Err(refused) => return Ok(outcome(heap, Vec::new(heap), Err(refused.into()))),
    };
    let mut frames = vec![in heap; 0u16; FRAME_ROOM]?;
    let mut globals = vec![in heap; 0u16; program.sizes.globals]?;
    let mut cells = vec![in heap; 0u16; program.sizes.cells]?;
    let mut words = vec![in heap; 0u16; MOST_OUT]?;
    let run = interpret(
        &program.nodes,
        program.procedures(),
        task.tape,
        task.bounds.fuel,
        frames.as_mut_slice(),
        globals.as_mut_slice(),
        cells.as_mut_slice(),
        words.as_mut_slice(),
    );
    let ran = match run {
        Ok(run) => Ok(Lit {
            sent: run.counts.sent,
            taken: run.counts.taken,
            halted: run.ending,
        }),
        Err(error) => Err(error.into()),
    };
    Ok(outcome(heap, words, ran))
}

// Builds the image and runs it on the instruction machine.
fn run_image(task: Task<'_>, image: &mut [u16], out: &mut [u16]) -> Result<Lit, Fate> {
    build(task.text, image)?;
    let start = machine::start();
    let p = machine::run(start, image, task.tape, out, task.bounds.instructions)?;
    Ok(Lit {
        sent: p.sent,
        taken: p.taken,
        halted: p.halted,
    })
}

// The image, on the instruction machine.
pub(crate) fn on_instructions(heap: Global, task: Task<'_>) -> Result<Outcome, AllocError> {
    let mut image = vec![in heap; 0u16; IMAGE]?;
    let mut words = vec![in heap; 0u16; MOST_OUT]?;
    let ran = run_image(task, image.as_mut_slice(), words.as_mut_slice());
    Ok(outcome(heap, words, ran))
}

// The image, on the drawing, on the board.
pub(crate) fn on_board(heap: Global, task: Task<'_>) -> Result<Outcome, AllocError> {
    let mut image = vec![in heap; 0u16; IMAGE]?;
    let mut sheet = vec![in heap; 0u32; SHEET]?;
    let mut state = vec![in heap; 0u8; FLOPS]?;
    let mut work = vec![in heap; 0u8; SIGNALS]?;
    let mut words = vec![in heap; 0u16; MOST_OUT]?;
    let lit = stack::run(
        task.text,
        task.tape,
        task.bounds.cycles,
        image.as_mut_slice(),
        sheet.as_mut_slice(),
        state.as_mut_slice(),
        work.as_mut_slice(),
        words.as_mut_slice(),
    );
    Ok(outcome(heap, words, lit.map_err(Fate::from)))
}
