// What a text is: a program within the limits, a program outside them, or no program.
ghost use Rattle.std.specs.Prelude.{◌≡◌, ℕ, List, Some};
ghost use Rattle.text.specs.Reading.{run, fresh};
ghost use Rattle.text.specs.Text.{words, OneProgram};
ghost use Rattle.text.specs.Verdicts.{Judged, VerdictIs, refusal};

use crate::cut::Words;
use crate::limits::MOST_SIGNS;
use crate::reader::Reader;
use std::error::Error;
use std::fmt;

// Why a text is refused: it is no program, or one outside the limits.
#[derive(Clone, Copy, PartialEq, Eq, Debug)]
pub enum Refused {
    NoProgram,
    Limits,
}

impl fmt::Display for Refused {
    ghost output = { λ r. Some (refusal r) };

    fn fmt<W: fmt::Write>(&self, f: &mut fmt::Formatter<W>) -> fmt::Result {
        match self {
            Refused::NoProgram => write!(f, "no program"),
            Refused::Limits => write!(f, "limits"),
        }
    }
}

impl Error for Refused {}

impl Reader {
    // What a text is that the reader has read to its end.
    pub(crate) fn verdict(self) -> Result<(), Refused>
        ensures { (s : List ℕ) → Some self ≡ run (words s) fresh → Judged s result }
    {
        if !self.is_done() {
            return Err(Refused::NoProgram);
        }
        if self.fits && self.signs <= MOST_SIGNS {
            Ok(())
        } else {
            Err(Refused::Limits)
        }
    }
}

// Whether a text is a program within the limits: the verdict is right, and no other is.
pub fn judge(text: &[u8]) -> Result<(), Refused>
    ensures { VerdictIs text.now result }
{
    let mut reader = Reader::new();
    for word in Words::of(text) {
        reader = reader.step(word).ok_or(Refused::NoProgram)?;
    }
    reader.verdict()
}

// One text is the writing of at most one program.
pub fn one_program()
    ensures { OneProgram }
{}
