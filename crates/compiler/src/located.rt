// The signs of a text with their places.
ghost use Rattle.std.specs.Prelude.{◌≡◌, ◌≤◌, length};
ghost use Rattle.language.specs.Nodes.{most_nodes};
ghost use Rattle.compiler.specs.Pairs.{pairs};

use arrayvec::ArrayVec;
use language::nodes::MOST_NODES;

// Of a procedure, a statement or an expression: how many words of the text stand before it, and the place of the image that
// `build` makes at which its code begins.
#[derive(Clone, Copy, PartialEq, Eq, Debug, Default)]
pub struct SignPlace {
    pub word: usize,
    pub place: usize,
}

// The signs of a text, in its order.
pub type Located = ArrayVec<SignPlace, MOST_NODES>;

// Words and places, side by side.
pub(crate) fn side_by_side(words: &[usize], places: &[usize]) -> Located
    requires few { length words.now ≤ most_nodes }
    ensures { result.items ≡ pairs words.now places.now }
{
    let mut signs = Located::new();
    for (&word, &place) in words.iter().zip(places) {
        signs.push(SignPlace { word, place });
    }
    signs
}
