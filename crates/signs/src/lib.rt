// The signs of a program, its procedures, statements and expressions, are a definition, in specs/; this function asks for the
// theorem on them.
#![tactic(auto)]

ghost use Rattle.signs.specs.Signs.{AllSignsRight};

// Each sign's writing stands in the text from its word on, and its code in the image from its place on.
pub fn signs_right()
    ensures { AllSignsRight }
{}
