// What the arguments of a program ask for, read one by one: help, a number behind an option, and the words of a tape.
ghost use Rattle.std.specs.Prelude.{◌≡◌, false, [], None};
ghost use Rattle.console.specs.Request.{Reads, Takes};

use std::alloc::Global;
use thiserror::Error;

// Numbers behind an option are below this.
const NUMBER_BOUND: u32 = u32::MAX;

// What one argument is: the number that an option wants, the wish for help, that option, a word of the tape.
#[derive(Clone, Copy, PartialEq, Eq, Debug)]
pub enum Argument {
    Number(u32),
    Help,
    NumberOption,
    Word(u16),
}

// Why an argument is refused.
#[derive(Clone, Copy, PartialEq, Eq, Debug, Error)]
pub enum RequestError {
    #[error("unknown option (--help lists them)")]
    UnknownOption,
    #[error("not a number below 4294967295")]
    NoNumber,
    #[error("a tape word is a number below 65536")]
    NoWord,
    #[error("memory allocation failed")]
    OutOfMemory,
}

// What an argument is, where an option's number is due or not, and a number follows the option, if the program has one.
pub fn classify(due: bool, option: Option<&str>, text: &str) -> Result<Argument, RequestError>
    ensures { Reads due option.entry text.now result }
{
    if due {
        let n = decimal::number_below(text.as_bytes(), NUMBER_BOUND);
        return n.map(Argument::Number).ok_or(RequestError::NoNumber);
    }
    if text == "--help" {
        return Ok(Argument::Help);
    }
    match option {
        Some(name) if name == text => return Ok(Argument::NumberOption),
        _ => {}
    }
    if text.starts_with("-") {
        return Err(RequestError::UnknownOption);
    }
    let word = decimal::word(text.as_bytes());
    word.map(Argument::Word).ok_or(RequestError::NoWord)
}

// What was asked for so far, and whether the next argument has to be the option's number: a `for` over the arguments can't
// take that one itself. Help stands beside the rest, since what is wrong behind it is still refused.
#[derive(Drop)]
pub struct Request {
    pub help: bool,
    pub number: Option<u32>,
    pub number_next: bool,
    pub tape: Vec<u16>,
}

impl Request {
    // Nothing is asked for yet.
    pub fn new(heap: Global) -> Request
        ensures asked { (result.help ≡ false) × (result.number ≡ None) × (result.number_next ≡ false) }
        ensures tape { result.tape.items ≡ [] }
    {
        Request {
            help: false,
            number: None,
            number_next: false,
            tape: Vec::new(heap),
        }
    }

    // One argument more. A refusal leaves all as it was.
    pub fn take(&mut self, option: Option<&str>, text: &str) -> Result<(), RequestError>
        ensures { Takes option.entry text.now self.old self.new result }
    {
        match classify(self.number_next, option, text)? {
            Argument::Word(w) => {
                if self.tape.push(w).is_err() {
                    return Err(RequestError::OutOfMemory);
                }
            }
            Argument::Help => self.help = true,
            Argument::NumberOption => self.number_next = true,
            Argument::Number(n) => {
                self.number = Some(n);
                self.number_next = false;
            }
        }
        Ok(())
    }
}
