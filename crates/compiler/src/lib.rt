// From a program's text to an image of the instruction machine.
#![tactic(auto)]

mod blocks;
mod emit;
mod frames;
mod instructions;
pub mod locate;
pub mod located;
mod measure;
mod parts;
mod places;
mod procs;
mod registers;
pub mod sizes;
mod source;
mod writer;

ghost use Rattle.std.specs.Prelude.{◌≡◌, Some};
ghost use Rattle.compiler.specs.Promise.{Built, message, why};

use procs::assemble;
use std::error::Error;
use std::fmt;
use text::judge::Refused;
use text::load::load;

// An image has so many words.
const MEMORY_SIZE: usize = 65536;

// Why no image was made of a text: it is no program, or one outside the limits; or there is no place for an image.
#[derive(Clone, Copy, PartialEq, Eq, Debug)]
pub enum BuildError {
    NoProgram,
    Limits,
    Short,
}

impl From<Refused> for BuildError {
    ghost from_gives = { λ r e. e ≡ why r };

    fn from(refused: Refused) -> BuildError {
        match refused {
            Refused::NoProgram => BuildError::NoProgram,
            Refused::Limits => BuildError::Limits,
        }
    }
}

impl fmt::Display for BuildError {
    ghost output = { λ e. Some (message e) };

    fn fmt<W: fmt::Write>(&self, f: &mut fmt::Formatter<W>) -> fmt::Result {
        match self {
            BuildError::NoProgram => write!(f, "no program: the text is not the writing of one"),
            BuildError::Limits => write!(
                f,
                "limits: the program is larger than it may be, or names what is not there"
            ),
            BuildError::Short => write!(f, "the image has not 65536 words"),
        }
    }
}

impl Error for BuildError {}

// Makes the image of the program that a text is the writing of. A refusal leaves the image's words as they were.
pub fn build(text: &[u8], image: &mut [u16]) -> Result<(), BuildError>
    ensures { Built text.now image.old image.new result }
{
    if image.len() != MEMORY_SIZE {
        return Err(BuildError::Short);
    }
    let parsed = load(text)?;
    assemble(&parsed, image);
    Ok(())
}
