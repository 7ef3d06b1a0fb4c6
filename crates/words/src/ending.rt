// How a run ends, in every layer: the language, the instruction machine and the board.
ghost use Rattle.std.specs.Prelude.{◌≡◌, codes, Some};
ghost use Rattle.words.specs.Endings.{code_of, halt_code, ending_name, Decodes};

use std::fmt;
use thiserror::Error;

// At its end, at a place past the cells, or without room for a frame. A run that goes on has no ending.
#[derive(Clone, Copy, PartialEq, Eq, Debug)]
pub enum Ending {
    Done,
    Index,
    Full,
}

impl Ending {
    // The name by which the programs call it.
    pub fn name(self) -> &'static str
        ensures { result.now ≡ ending_name self }
    {
        match self {
            Ending::Done => "done",
            Ending::Index => "index",
            Ending::Full => "full",
        }
    }
}

impl fmt::Display for Ending {
    ghost output = { λ e. Some (ending_name e) };

    fn fmt<W: fmt::Write>(&self, f: &mut fmt::Formatter<W>) -> fmt::Result {
        f.write_str(self.name())
    }
}

// The code of an ending, as halt pins have it.
impl From<Ending> for u16 {
    ghost from_gives = { λ e n. n ≡ code_of e };

    fn from(ending: Ending) -> u16 {
        match ending {
            Ending::Done => 1,
            Ending::Index => 2,
            Ending::Full => 3,
        }
    }
}

// A number that is no ending's code.
#[derive(Clone, Copy, PartialEq, Eq, Debug, Error)]
#[error("no ending has code {0}")]
pub struct NoEnding(pub u16);

impl TryFrom<u16> for Ending {
    type Error = NoEnding;

    ghost try_from_gives = { Decodes };

    fn try_from(code: u16) -> Result<Self, NoEnding> {
        match code {
            1 => Ok(Ending::Done),
            2 => Ok(Ending::Index),
            3 => Ok(Ending::Full),
            _ => Err(NoEnding(code)),
        }
    }
}
