// The theorems across the layers: the contract of each function is the theorem. They compute nothing.
ghost use Rattle.stack.specs.Lamps.{LampsRight};
ghost use Rattle.stack.specs.Stack.{LayersJoin};

// The layers join: it knows of no drawing, no code and no number of cycles.
pub fn layers_join()
    ensures { LayersJoin }
{}

// What the board shows after so many cycles is right for the program.
pub fn lamps_right()
    ensures { LampsRight }
{}
