// What is read from and written to lent memory: locals, globals and cells, tape and out words.
ghost use Rattle.std.specs.Prelude.{◌≡◌};
ghost use Rattle.interpreter.specs.Running.{SameLoans, Fetches, Stores, Takes, Puts};
ghost use Rattle.words.specs.Words.{word, put};

use crate::state::{Stop, Store};

// The word at a place, 0 past the end.
pub(crate) fn word_at(words: &[u16], i: u16) -> u16
    ensures { result ≡ word words.now i }
{
    words.get(i as usize).copied().unwrap_or(0)
}

// Puts a word at a place; past the end nothing changes.
pub(crate) fn put_at(words: &mut [u16], i: u16, v: u16)
    ensures { words.new ≡ put words.old i v }
{
    // An index: get_mut of a slice does not promise what the words become.
    if (i as usize) < words.len() {
        words[i as usize] = v;
    }
}

impl Store<'_> {
    // The global k; 0 past the last.
    pub(crate) fn global(&self, k: u16) -> u16
        ensures { result ≡ word self.now.globals.now k }
    {
        word_at(self.globals, k)
    }

    // The word of a cell, if there is such a cell.
    pub(crate) fn cell(&self, place: u16) -> Result<u16, Stop>
        ensures { Fetches self.now.cells.now place result }
    {
        self.cells.get(place as usize).copied().ok_or(Stop::Index)
    }

    // Puts a word into a cell, if there is such a cell.
    pub(crate) fn set_cell(&mut self, place: u16, v: u16) -> Result<(), Stop>
        ensures same_loans { SameLoans self.old self.new }
        ensures stores { Stores self.old self.new place v result }
    {
        if place as usize >= self.cells.len() {
            return Err(Stop::Index);
        }
        self.cells[place as usize] = v;
        Ok(())
    }

    // Takes the tape's next word, 0 at its end.
    pub(crate) fn take_word(&mut self, tape: &[u16]) -> u16
        ensures same_loans { SameLoans self.old self.new }
        ensures takes { Takes tape.now self.old self.new result }
    {
        match tape.get(self.counts.taken) {
            Some(&word) => {
                self.counts.taken += 1;
                word
            }
            None => 0,
        }
    }

    // Puts out a word, if there is room for it.
    pub(crate) fn put_out(&mut self, v: u16) -> Result<(), Stop>
        ensures same_loans { SameLoans self.old self.new }
        ensures puts { Puts self.old self.new v result }
    {
        let sent = self.counts.sent;
        if sent >= self.out.len() {
            return Err(Stop::NoOut);
        }
        self.out[sent] = v;
        self.counts.sent += 1;
        Ok(())
    }
}
