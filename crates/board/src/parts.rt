// A circuit cut into its parts.
ghost use Rattle.std.specs.Prelude.{length};
ghost use Rattle.std.proofs.Props.{props};
ghost use Rattle.board.specs.Slices.{SoundParts};
ghost use Rattle.board.specs.Props.{gates_prop, below_prop};

// The signals of the gates, two for each, the next signals of the flip-flops and the pins' signals: each names one of so
// many signals, and a gate only signals before it.
#[derive(Clone, Copy)]
pub struct Parts<'a> {
    pub wires: &'a [u32],
    pub next: &'a [u32],
    pub pins: &'a [u32],
    pub signals: usize,
    ghost sound: { SoundParts wires.now next.now pins.now (length next.now) signals } by { Prim.hlevel (props, gates_prop, below_prop) },
}
