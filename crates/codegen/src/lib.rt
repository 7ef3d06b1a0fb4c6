// The code of a program is a definition, in specs/; these functions ask for its theorems.
#![tactic(auto)]

ghost use Rattle.codegen.specs.Example.{SumCodeIs};
ghost use Rattle.codegen.specs.Heart.{ExpressionRuns, StatementRuns};
ghost use Rattle.codegen.specs.Promise.{ImagesRight};

// Asks for the compiler's heart: what the code of an expression does, and of a statement.
pub fn expressions_run()
    ensures { ExpressionRuns }
{}

pub fn statements_run()
    ensures { StatementRuns }
{}

// Asks for the theorem on images: each does what its program does, and leaves memory's top alone.
pub fn images_right()
    ensures { ImagesRight }
{}

// Asks for the worked example: the code of the sum program.
pub fn sum_code_is()
    ensures { SumCodeIs }
{}
