// The board as lent slices: any circuit that a sheet holds, spun for any number of cycles from any state.
#![tactic(auto)]

ghost use Rattle.board.specs.Board.{asked, lent, SpunPost};

mod cycle;
mod laws;
mod lines;
mod parts;
mod pins;
mod sheet;
mod signals;
mod start;

pub use cycle::Port;
use cycle::run;
pub use laws::{
    halted_spin_stays, halted_stays, one_word_a_cycle, pieces_join, room_suffices, spins_join,
};
use sheet::{MEMORY_SIZE, cut, signal_count};
use signals::make_levels;
pub use start::{NoPower, power_on};
use thiserror::Error;

// Why a board does not come to its cycles: the sheet, the flip-flop bytes and the memory make no whole board; more words
// are put out than there is room for; or there is no work byte for each signal.
#[derive(Clone, Copy, PartialEq, Eq, Debug, Error)]
pub enum SpinError {
    #[error("no whole board")]
    BadSheet,
    #[error("more words put out than there is room for")]
    NoOut,
    #[error("no work byte for each signal")]
    FewWork,
}

// Spins the sheet's circuit for so many cycles, from the flip-flops, the memory, the word in hand and the tape that it is
// lent. It leaves there what they are then, and the words put out at the front of the out words. Each slice is a
// parameter of its own, as the course lends them.
pub fn spin(
    sheet: &[u32],
    flops: usize,
    gates: usize,
    state: &mut [u8],
    mem: &mut [u16],
    read: u16,
    tape: &[u16],
    out: &mut [u16],
    cycles: u64,
    work: &mut [u8],
) -> Result<Port, SpinError>
    ensures { SpunPost (asked sheet.now flops gates read tape.now cycles) (lent state.old mem.old out.old work.old) (lent state.new mem.new out.new work.new) result }
{
    let signals = signal_count(flops, gates).ok_or(SpinError::FewWork)?;
    if work.len() < signals {
        return Err(SpinError::FewWork);
    }
    if state.len() != flops || mem.len() != MEMORY_SIZE {
        return Err(SpinError::BadSheet);
    }
    let parts = cut(sheet, flops, gates).ok_or(SpinError::BadSheet)?;
    make_levels(state);
    run(
        parts,
        state,
        mem,
        read,
        tape,
        out,
        cycles,
        &mut work[0..signals],
    )
    .ok_or(SpinError::NoOut)
}
