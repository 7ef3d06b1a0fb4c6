// Power on: the sheet's values go into the flip-flops.
ghost use Rattle.std.specs.Prelude.{◌≡◌, length};
ghost use Rattle.circuit.specs.Sheet.{levels};
ghost use Rattle.board.specs.Board.{PowerPost};
ghost use Rattle.board.specs.Slices.{bytes};

use thiserror::Error;

// There is no value at power on for each flip-flop, or no byte.
#[derive(Clone, Copy, PartialEq, Eq, Debug, Error)]
#[error("no value at power on and byte for each flip-flop")]
pub struct NoPower;

// Lays values, 0 low and any other high, as levels. `make_levels` does the same in place: a generic function for both
// would have to read the slice that it writes.
fn lay_values(values: &[u32], state: &mut [u8])
    requires { length values.now ≡ length state.old }
    ensures { state.new ≡ bytes (levels values.now) }
{
    // By place, as in `latch`.
    for (i, value) in values.iter().enumerate() {
        state[i] = u8::from(*value != 0);
    }
}

// Lays the sheet's values at power on into the flip-flop bytes, each 0 or 1. It refuses where the sheet has no value for
// each flip-flop, or the bytes are not one for each.
pub fn power_on(sheet: &[u32], flops: usize, state: &mut [u8]) -> Result<(), NoPower>
    ensures { PowerPost sheet.now flops state.old state.new result }
{
    if sheet.len() < flops || state.len() != flops {
        return Err(NoPower);
    }
    lay_values(&sheet[0..flops], state);
    Ok(())
}
