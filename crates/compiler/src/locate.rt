// From each sign of a text to the place of its code.
ghost use Rattle.compiler.specs.Locates.{Locates};

use crate::located::{Located, side_by_side};
use crate::places::place_signs;
use text::judge::Refused;
use text::load::load;
use text::signs::sign_words;

// The signs of a text that is a program within the limits.
pub fn locate(text: &[u8]) -> Result<Located, Refused>
    ensures { Locates text.now result }
{
    let parsed = load(text)?;
    let words = sign_words(text);
    let places = place_signs(&parsed);
    Ok(side_by_side(words.as_slice(), places.as_slice()))
}
