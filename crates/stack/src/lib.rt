// The promise across the layers: from a text and a tape to the lamps.
#![tactic(auto)]

mod theorems;

ghost use Rattle.std.specs.Prelude.{◌≡◌, ◌+◌, ◌≤◌, length};
ghost use Rattle.board.specs.Board.{Fits};
ghost use Rattle.circuit.specs.Circuit.{board_run, input_signals};
ghost use Rattle.circuit.specs.Sheet.{drawn};
ghost use Rattle.stack.specs.declared.RunError.TheVariants.{BadRoom};
ghost use Rattle.stack.specs.Run.{Lights, lent, refused_as, RunPromise};

use board::{SpinError, power_on, spin};
use compiler::{BuildError, build};
use cpu::{NoRoom, Size, draw};
pub use theorems::{lamps_right, layers_join};
use thiserror::Error;
use words::ending::Ending;

// What the lamps show: so many words, which stand first in the out words; so many words of the tape are taken; how the
// board halted, if it has.
#[derive(Clone, Copy, PartialEq, Eq, Debug)]
pub struct Lit {
    pub sent: usize,
    pub taken: usize,
    pub halted: Option<Ending>,
}

// Why nothing is shown of a text: it is no program, or one outside the limits; or the out words are too few; or one of the
// other lent slices has not the size that it needs.
#[derive(Clone, Copy, PartialEq, Eq, Debug, Error)]
pub enum RunError {
    #[error("no program")]
    NoProgram,
    #[error("limits: the program is larger than the course allows, or names what is not there")]
    Limits,
    #[error("more words shown than there is room for")]
    NoOut,
    #[error("the board's buffers have the wrong sizes")]
    BadRoom,
}

impl From<BuildError> for RunError {
    ghost from_gives = { λ e r. r ≡ refused_as e };

    fn from(error: BuildError) -> RunError {
        match error {
            BuildError::NoProgram => RunError::NoProgram,
            BuildError::Limits => RunError::Limits,
            BuildError::Short => RunError::BadRoom,
        }
    }
}

impl From<NoRoom> for RunError {
    ghost from_gives = { λ _ r. r ≡ BadRoom };

    fn from(_: NoRoom) -> RunError {
        RunError::BadRoom
    }
}

// The sizes of the lent slices: an image's words, a sheet's numbers at least, the drawing's flip-flops, its signals at least.
pub const IMAGE: usize = 65536;

pub const SHEET: usize = 262144;

pub const FLOPS: usize = 184;

pub const SIGNALS: usize = 34 + 184 + 1747;

// Spins a sheet's circuit from power on, over slices lent one by one as `spin` wants them. None: there is no room for the
// words put out.
fn light(
    sheet: &[u32],
    size: Size,
    state: &mut [u8],
    mem: &mut [u16],
    tape: &[u16],
    out: &mut [u16],
    cycles: u64,
    work: &mut [u8],
) -> Option<Lit>
    requires fits { Fits size.flops size.gates sheet.now state.old mem.old }
    requires room { input_signals + (size.flops + size.gates) ≤ length work.old }
    ensures { Lights (board_run (drawn size.flops size.gates sheet.now) mem.old tape.now cycles) tape.now out.old out.new result }
{
    let Size { flops, gates } = size;
    match power_on(sheet, flops, state) {
        Ok(()) => {}
        Err(_) => unreachable(),
    }
    match spin(sheet, flops, gates, state, mem, 0, tape, out, cycles, work) {
        Ok(port) => Some(Lit {
            sent: port.sent,
            taken: port.taken,
            halted: port.halted,
        }),
        Err(SpinError::NoOut) => None,
        Err(SpinError::BadSheet | SpinError::FewWork) => unreachable(),
    }
}

// Runs the program of a text on the board for so many cycles: builds its image, draws the machine, and spins it from power
// on. The slices are lent apart, each with the size that its use needs: what is not in use yet may hold anything.
pub fn run(
    text: &[u8],
    tape: &[u16],
    cycles: u64,
    image: &mut [u16],
    sheet: &mut [u32],
    state: &mut [u8],
    work: &mut [u8],
    out: &mut [u16],
) -> Result<Lit, RunError>
    ensures { RunPromise text.now tape.now cycles (lent image.old sheet.old state.old work.old out.old) (lent image.new sheet.new state.new work.new out.new) result }
{
    if image.len() != IMAGE || sheet.len() < SHEET || state.len() != FLOPS || work.len() < SIGNALS {
        return Err(RunError::BadRoom);
    }
    build(text, image)?;
    let size = draw(sheet)?;
    match light(sheet, size, state, image, tape, out, cycles, work) {
        Some(lit) => Ok(lit),
        None => Err(RunError::NoOut),
    }
}
