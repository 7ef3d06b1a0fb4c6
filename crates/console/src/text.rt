// The text that a program reads.
ghost use Rattle.std.specs.Prelude.{◌≤◌, IfOk, IfSome, length};

use std::alloc::Global;
use std::io::{self, ErrorKind, Read};

// So many bytes are read at a time.
const PIECE: usize = 4096;

// All of an input, if that has at most so many bytes; of a longer one a byte more is read.
pub fn read_text(heap: Global, input: &mut impl Read, most: usize) -> io::Result<Option<Vec<u8>>>
    ensures { IfOk result (λ r. IfSome r (λ text. length text.items ≤ most)) }
{
    let mut bounded = input.take((most as u64).saturating_add(1));
    read_text_within(heap, &mut bounded, most, u64::MAX)
}

// The same of an input that has to end within so many reads. An interrupted read is an error, and not tried again.
pub fn read_text_within(
    heap: Global,
    input: &mut impl Read,
    most: usize,
    reads: u64,
) -> io::Result<Option<Vec<u8>>>
    ensures { IfOk result (λ r. IfSome r (λ text. length text.items ≤ most)) }
{
    let mut text = Vec::new(heap);
    let mut piece = [0u8; PIECE];
    for _done in 0..reads {
        let count = input.read(&mut piece)?;
        if count == 0 {
            return Ok(Some(text));
        }
        if count > most - text.len() {
            return Ok(None);
        }
        if text.extend_from_slice(&piece[0..count]).is_err() {
            return Err(io::Error::new(ErrorKind::OutOfMemory, "memory allocation failed"));
        }
    }
    Err(io::Error::other("the text does not end"))
}
