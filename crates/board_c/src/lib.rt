// `spin` for callers in C.
#![tactic(auto)]

ghost use Rattle.std.specs.Prelude.{Result};
ghost use Rattle.board.specs.Board.{asked, lent, SpunPost};
ghost use Rattle.board.specs.declared.SpinError.{SpinError as Refusal};
ghost use Rattle.board.specs.declared.cycle.Port.{Port as Came};
ghost use Rattle.board_c.specs.Coded.{Coded};

use board::{Port, SpinError, spin};

// The answer as a number, since C has no enum with data: 0 ran, 1 bad sheet, 2 no out, 3 few work. After *ran* the port has the
// word that memory hands over next, how many words of the tape were taken, how many were put out, and how the board halted.
// Each slice is lent by itself, as C lends it.
#[unsafe(no_mangle)]
pub extern "C" fn spin_c(
    sheet: &[u32],
    flops: usize,
    gates: usize,
    state: &mut [u8],
    mem: &mut [u16],
    read: u16,
    tape: &[u16],
    out: &mut [u16],
    cycles: u64,
    work: &mut [u8],
    port: &mut [u64; 4],
) -> u32
    ensures { (s : Result Came Refusal) × SpunPost (asked sheet.now flops gates read tape.now cycles) (lent state.old mem.old out.old work.old) (lent state.new mem.new out.new work.new) s × Coded s result port.old port.new }
{
    match spin(
        sheet, flops, gates, state, mem, read, tape, out, cycles, work,
    ) {
        Ok(
            Port {
                read,
                taken,
                sent,
                halted,
            },
        ) => {
            let code = halted.map_or(0, u16::from);
            *port = [read as u64, taken as u64, sent as u64, code as u64];
            0
        }
        Err(SpinError::BadSheet) => 1,
        Err(SpinError::NoOut) => 2,
        Err(SpinError::FewWork) => 3,
    }
}
