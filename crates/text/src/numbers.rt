// The numbers of a text.
ghost use Rattle.text.specs.Numbers.{number_of};
ghost use Rattle.std.specs.Prelude.{◌≡◌};

// A number up to this can have one digit more, and is then one of at most five.
const FOUR_DIGITS: usize = 9999;

// The number that a word writes in decimal, of at most five digits and with no 0 in front of another digit.
pub(crate) fn number(w: &[u8]) -> Option<usize>
    ensures { result ≡ number_of w.now }
{
    let mut n: usize = 0;
    for (i, c) in w.iter().enumerate() {
        if !c.is_ascii_digit() {
            return None;
        }
        if i > 0 && n == 0 {
            return None;
        }
        if n > FOUR_DIGITS {
            return None;
        }
        n = n * 10 + usize::from(*c - b'0');
    }
    if w.is_empty() {
        return None;
    }
    Some(n)
}
