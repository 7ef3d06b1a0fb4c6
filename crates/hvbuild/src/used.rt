// How many words of an image are used.
ghost use Rattle.hvbuild.specs.Used.{Used};

// Up to the last word that isn't 0.
pub(crate) fn used_length(image: &[u16]) -> usize
    ensures { Used image.now result }
{
    match image.iter().rposition(|w| *w != 0) {
        Some(last) => last + 1,
        None => 0,
    }
}
