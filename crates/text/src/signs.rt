// One number for each sign of a program, in the order of its text; and which words of a text begin a sign.
ghost use Rattle.text.specs.Kinds.{kind};
ghost use Rattle.text.specs.Signs.{room, kind_of_sign, sign_words};
ghost use Rattle.text.specs.Text.{words};
ghost use Rattle.std.specs.Prelude.{◌≡◌, [], ◌∷◌, ◌++◌};

use crate::cut::Words;
use crate::kinds::{Kind, kind_of};
use arrayvec::ArrayVec;
use language::nodes::MOST_NODES;

// Numbers that are noted one after the other, as many as a program may have signs.
pub type Notes = ArrayVec<usize, MOST_NODES>;

// A number is noted behind the others, if there is a place for it.
pub fn note(notes: &mut Notes, n: usize)
    ensures { notes.new.items ≡ room (notes.old.items ++ n ∷ []) }
{
    let _ = notes.try_push(n);
}

// Every word of the language begins a sign, apart from the first of a program.
fn begins_sign(w: &[u8]) -> bool
    ensures { result ≡ kind_of_sign (kind w.now) }
{
    kind_of(w).is_some_and(|k| k != Kind::Program)
}

// For each sign, how many words stand before it in the text.
pub fn sign_words(text: &[u8]) -> Notes
    ensures { result.items ≡ room (sign_words 0 (words text.now)) }
{
    let mut notes = Notes::new();
    for (before, word) in Words::of(text).enumerate() {
        if begins_sign(word) {
            note(&mut notes, before);
        }
    }
    notes
}
