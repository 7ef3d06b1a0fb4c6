// What comes of a text: the words put out, how many words of the tape are taken, and the ending.
use compiler::BuildError;
use interpreter::InterpretError;
use std::fmt;
use text::judge::Refused;
use words::ending::Ending;

// How a run ended; or it goes on; or the text was refused; or the run was out of room for the words that it puts out. One
// enum, since a table's line names all of these alike, and they are compared and printed alike.
#[derive(Clone, Copy, PartialEq)]
pub(crate) enum Fate {
    Ended(Ending),
    Running,
    NoProgram,
    Limits,
    NoRoom,
}

impl fmt::Display for Fate {
    fn fmt<W: fmt::Write>(&self, f: &mut fmt::Formatter<W>) -> fmt::Result {
        match *self {
            Fate::Ended(ending) => write!(f, "{ending}"),
            Fate::Running => f.write_str("running"),
            Fate::NoProgram => f.write_str("no program"),
            Fate::Limits => f.write_str("limits"),
            Fate::NoRoom => f.write_str("no room"),
        }
    }
}

// How a machine halted, if it has.
impl From<Option<Ending>> for Fate {
    fn from(halted: Option<Ending>) -> Fate {
        match halted {
            Some(ending) => Fate::Ended(ending),
            None => Fate::Running,
        }
    }
}

impl From<Refused> for Fate {
    fn from(refused: Refused) -> Fate {
        match refused {
            Refused::NoProgram => Fate::NoProgram,
            Refused::Limits => Fate::Limits,
        }
    }
}

impl From<InterpretError> for Fate {
    fn from(error: InterpretError) -> Fate {
        match error {
            InterpretError::NoProgram => Fate::NoProgram,
            InterpretError::NoOut | InterpretError::Short => Fate::NoRoom,
        }
    }
}

impl From<BuildError> for Fate {
    fn from(error: BuildError) -> Fate {
        match error {
            BuildError::NoProgram => Fate::NoProgram,
            BuildError::Limits => Fate::Limits,
            BuildError::Short => Fate::NoRoom,
        }
    }
}

impl From<machine::RunError> for Fate {
    fn from(_: machine::RunError) -> Fate {
        Fate::NoRoom
    }
}

impl From<stack::RunError> for Fate {
    fn from(error: stack::RunError) -> Fate {
        match error {
            stack::RunError::NoProgram => Fate::NoProgram,
            stack::RunError::Limits => Fate::Limits,
            stack::RunError::NoOut | stack::RunError::BadRoom => Fate::NoRoom,
        }
    }
}

#[derive(Drop)]
pub(crate) struct Outcome {
    pub words: Vec<u16>,
    pub taken: usize,
    pub ending: Fate,
}

// What the three machines made of a text.
#[derive(Drop)]
pub(crate) struct Runs {
    pub definition: Outcome,
    pub instructions: Outcome,
    pub board: Outcome,
}
