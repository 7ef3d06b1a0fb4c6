// Where the drawing's stages stand: the first signal of each and the number of its gates, in their order.
ghost use Rattle.std.specs.Prelude.{◌≡◌};
ghost use Rattle.cpu.specs.Signals.{control_start};
ghost use Rattle.cpu.specs.Cpu.{stages, stage_places};

use crate::signals::*;

#[tactic(auto, unfolding(crate::proofs::Drawing::drawing))]
pub fn places() -> [(u32, u32); 26]
    ensures { result ≡ stage_places control_start stages }
{
    [
        (AT_CONTROL, 72),
        (AT_LATE_INDEX, 9),
        (AT_INDEX, 9),
        (AT_SELECT, 3),
        (AT_READ, 336),
        (AT_FIRST, 48),
        (AT_SECOND, 48),
        (AT_ADDEND, 64),
        (AT_ADDER, 144),
        (AT_NAND, 16),
        (AT_LESS, 1),
        (AT_ZERO, 48),
        (AT_NAND_OR_LESS, 48),
        (AT_HALF_OR_LOW, 48),
        (AT_BELOW_4, 48),
        (AT_FROM_4, 48),
        (AT_BELOW_8, 48),
        (AT_FROM_8, 48),
        (AT_RESULT, 48),
        (AT_WRITTEN, 48),
        (AT_WRITE_SELECT, 4),
        (AT_WRITE, 412),
        (AT_BRANCH, 5),
        (AT_JUMP, 48),
        (AT_COUNTER, 48),
        (AT_ADDRESS, 48),
    ]
}
