// A table of cases, read line by line: for each a name, a text, a tape, and what is expected.
//
//   name a sum wraps
//   text program 0 0 1 proc 0 out add num 65535 num 2
//   tape 5 6 | 7
//   gives 1 done
//
// Lines of text are joined by a newline; {N:WORDS} stands for N times WORDS. Of the tape the words before the bar are
// taken, all of them if there is none. 'gives' has the words put out and the ending: done, index, full; running, of a
// program that never ends and puts out nothing more; '...', of one that goes on putting out; or 'no program' or 'limits'
// alone. Lines that begin with # are comments.
use crate::outcome::{Fate, Outcome};
use anyhow::Context;
use std::alloc::{AllocError, Global};
use words::ending::Ending;

#[derive(Drop)]
pub(crate) struct Case {
    pub name: String,
    pub text: Vec<u8>,
    pub tape: Vec<u16>,
    pub expected: Outcome,
    // The program goes on putting out words after those that are expected; these are compared either way.
    pub more: bool,
}

impl Case {
    // A case that nothing is known of but its name.
    pub(crate) fn new(heap: Global, name: &str) -> Result<Case, AllocError> {
        let expected = Outcome {
            words: Vec::new(heap),
            taken: 0,
            ending: Fate::Running,
        };
        Ok(Case {
            name: String::from_str(heap, name)?,
            text: Vec::new(heap),
            tape: Vec::new(heap),
            expected,
            more: false,
        })
    }

    // A line of the text.
    pub(crate) fn add_text(&mut self, heap: Global, line: &str) -> Result<(), AllocError> {
        if !self.text.is_empty() {
            self.text.push(b'\n')?;
        }
        let line = repeat(heap, line)?;
        self.text.extend_from_slice(line.as_bytes())?;
        Ok(())
    }

    // The tape, and how many of its words are taken.
    pub(crate) fn set_tape(&mut self, heap: Global, line: &str) -> anyhow::Result<()> {
        let line = repeat(heap, line)?;
        let mut bar = false;
        for word in line.as_str().split_whitespace() {
            if word == "|" {
                bar = true;
                self.expected.taken = self.tape.len();
            } else {
                self.tape.push(number(word)?)?;
            }
        }
        if !bar {
            self.expected.taken = self.tape.len();
        }
        Ok(())
    }

    // The words that are to be put out, and the ending.
    pub(crate) fn set_outcome(&mut self, heap: Global, line: &str) -> anyhow::Result<()> {
        let line = repeat(heap, line)?;
        for word in line.as_str().split_whitespace() {
            match word {
                "done" => self.expected.ending = Fate::Ended(Ending::Done),
                "index" => self.expected.ending = Fate::Ended(Ending::Index),
                "full" => self.expected.ending = Fate::Ended(Ending::Full),
                "running" => self.expected.ending = Fate::Running,
                "..." => self.more = true,
                "program" => self.expected.ending = Fate::NoProgram,
                "limits" => self.expected.ending = Fate::Limits,
                "no" => {}
                _ => self.expected.words.push(number(word)?)?,
            }
        }
        Ok(())
    }
}

// A word of the tape or of those put out.
fn number(word: &str) -> anyhow::Result<u16> {
    decimal::word(word.as_bytes()).context("a word of a table is a number below 65536")
}

// The line, with N times WORDS for each {N:WORDS}. text_tests reads the same braces into bytes, with codes outside them:
// shared, these few lines would want a crate and a parameter for what is done with a piece.
fn repeat(heap: Global, line: &str) -> Result<String, AllocError> {
    let mut whole = String::new(heap);
    for piece in line.split('{') {
        if let Some((repeated, tail)) = piece.split_once('}') {
            if let Some((count, words)) = repeated.split_once(':') {
                let times = count.parse::<u32>().unwrap_or(0);
                // One by one: the library's `repeat` makes a string as long again.
                let times = if words.is_empty() { 0 } else { times };
                for _ in 0..times {
                    whole.push_str(words)?;
                }
            }
            whole.push_str(tail)?;
        } else {
            whole.push_str(piece)?;
        }
    }
    Ok(whole)
}
