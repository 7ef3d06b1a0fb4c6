// Lines out of the circuit: the levels on some signals.
ghost use Rattle.std.specs.Prelude.{length};
ghost use Rattle.circuit.specs.Circuit.{AllBelow};
ghost use Rattle.board.specs.Slices.{Clean};
ghost use Rattle.board.specs.Props.{below_prop};

// The levels of all signals as bytes, each 0 or 1, and some of the signals.
#[derive(Clone, Copy)]
pub struct Lines<'a> {
    pub levels: &'a [u8],
    pub signals: &'a [u32],
    ghost clean: { Clean levels.now },
    ghost there: { AllBelow signals.now (length levels.now) } by { below_prop signals.now (length levels.now) },
}
