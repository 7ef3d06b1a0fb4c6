// The course language. Its meaning stands in specs/Language.antt; here is how a program is held for those who walk it,
// how high an expression or a statement is, and how large a procedure's frame.
#![tactic(auto)]

pub mod frames;
pub mod heights;
pub mod nodes;
pub mod parsed;

ghost use Rattle.language.specs.Language.{FuelKeeps};

// Asks for the law of fuel: with more fuel a run puts out what it put out and more, and a run that has ended stays.
pub fn fuel_keeps()
    ensures { FuelKeeps }
{}
