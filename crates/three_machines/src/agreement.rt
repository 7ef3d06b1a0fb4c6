// Whether outcomes agree: yes is said of none that do not.
ghost use Rattle.three_machines.specs.Agreement.{SameWords, Agree, Meets, AllMeet};
ghost use Rattle.std.specs.Prelude.{◌≡◌, true};

use crate::outcome::{Outcome, Runs};

// The same words; of programs that put out more and more, as far as both were seen.
fn same_words(a: &[u16], b: &[u16], more: bool) -> bool
    ensures { result ≡ true → SameWords more a.now b.now }
{
    if more {
        a.starts_with(b) || b.starts_with(a)
    } else {
        a == b
    }
}

fn agree(a: &Outcome, b: &Outcome, more: bool) -> bool
    ensures { result ≡ true → Agree more a.now b.now }
{
    same_words(a.words.as_slice(), b.words.as_slice(), more)
        && a.taken == b.taken
        && a.ending == b.ending
}

fn meets(expected: &Outcome, run: &Outcome, more: bool) -> bool
    ensures { result ≡ true → Meets more expected.now run.now }
{
    expected.words.len() <= run.words.len() && agree(expected, run, more)
}

// The three runs came out as expected, and agree with one another.
pub(crate) fn all_meet(expected: &Outcome, runs: &Runs, more: bool) -> bool
    ensures { result ≡ true → AllMeet more expected.now runs.now }
{
    let Runs {
        definition,
        instructions,
        board,
    } = runs;
    meets(expected, definition, more)
        && meets(expected, instructions, more)
        && meets(expected, board, more)
        && agree(definition, instructions, more)
        && agree(instructions, board, more)
        && agree(board, definition, more)
}
