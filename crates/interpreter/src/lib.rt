// The course language, run over a program's nodes: 'interpret' is the definition, over lent memory and without an
// allocator.
#![tactic(auto)]

mod code;
mod lent;
mod prepare;
pub mod state;
mod walk;

ghost use Rattle.interpreter.specs.Interpreter.{Interprets};
ghost use Rattle.interpreter.specs.Running.{memory};

use code::Code;
use language::nodes::{MOST_PROCEDURES, Node, Procedure};
use prepare::prepare;
use state::{Counts, Stop, Store};
use thiserror::Error;
use words::ending::Ending;

// All frames of a run together have so many words.
pub const FRAME_ROOM: usize = 8192;

// A run: how it ended, none where its fuel is spent, and what it took and put out.
#[derive(Clone, Copy, PartialEq, Eq, Debug)]
pub struct Run {
    pub ending: Option<Ending>,
    pub counts: Counts,
}

// Why there is no run: more words were put out than there is room for, and globals, cells, frames and out words may hold
// anything; or the nodes and the table hold no program within the limits; or there are too few words for frames. By the
// last two nothing has changed.
#[derive(Clone, Copy, PartialEq, Eq, Debug, Error)]
pub enum InterpretError {
    #[error("more words put out than there is room for")]
    NoOut,
    #[error("no program within the limits")]
    NoProgram,
    #[error("too few words for frames")]
    Short,
}

// Runs the program that the nodes and the table hold, with so much fuel. Globals and cells are 0 at first, whatever they
// hold. Each part of memory is lent by itself, since a caller cuts each to the program's size: a struct of them would be
// made for this one call.
pub fn interpret(
    nodes: &[Node],
    table: &[Procedure],
    tape: &[u16],
    fuel: u32,
    frames: &mut [u16],
    globals: &mut [u16],
    cells: &mut [u16],
    out: &mut [u16],
) -> Result<Run, InterpretError>
    ensures { Interprets nodes.now table.now tape.now fuel (memory frames.old globals.old cells.old out.old) (memory frames.new globals.new cells.new out.new) result }
{
    if frames.len() < FRAME_ROOM {
        return Err(InterpretError::Short);
    }
    let count = table.len();
    if count > MOST_PROCEDURES {
        return Err(InterpretError::NoProgram);
    }
    let procs = prepare(nodes, table).ok_or(InterpretError::NoProgram)?;
    let code = Code {
        nodes,
        procs: &procs[0..count],
        tape,
    };
    globals.fill(0);
    cells.fill(0);
    let mut store = Store {
        globals,
        cells,
        out,
        counts: Counts { taken: 0, sent: 0 },
    };
    let ending = match code.call(0, 0, fuel, &mut frames[0..FRAME_ROOM], &mut store) {
        Ok(_) => Some(Ending::Done),
        Err(Stop::Index) => Some(Ending::Index),
        Err(Stop::Full) => Some(Ending::Full),
        Err(Stop::Spent) => None,
        Err(Stop::NoOut) => return Err(InterpretError::NoOut),
    };
    Ok(Run {
        ending,
        counts: store.counts,
    })
}
