// The image on standard input: a word a line.
ghost use Rattle.hvmachine.specs.Report.{Adds};

use anyhow::bail;
use machine::processor::MEMORY_SIZE;
use std::alloc::Global;
use std::io::{BufRead, BufReader};
use thiserror::Error;

// Why a text does not join an image: it writes no word, or all places are taken, or memory is out.
#[derive(Clone, Copy, PartialEq, Eq, Debug, Error)]
pub(crate) enum ImageError {
    #[error("an image word is a number below 65536")]
    NoWord,
    #[error("the image has more than 65536 words")]
    TooMany,
    #[error("out of memory")]
    NoMemory,
}

// The word that the text writes joins the image, if it is one and there is a place for it.
fn add_word(image: &mut Vec<u16>, text: &[u8]) -> Result<(), ImageError>
    ensures { Adds text.now image.old.items image.new.items result }
{
    if image.len() >= MEMORY_SIZE {
        return Err(ImageError::TooMany);
    }
    let Some(word) = decimal::word(text) else {
        return Err(ImageError::NoWord);
    };
    match image.push(word) {
        Ok(()) => Ok(()),
        Err(_) => Err(ImageError::NoMemory),
    }
}

// The image's words on a line of standard input: one, or none on a blank line.
fn add_line(image: &mut Vec<u16>, number: usize, line: &str) -> anyhow::Result<()> {
    let text = line.trim();
    if text.is_empty() {
        return Ok(());
    }
    match add_word(image, text.as_bytes()) {
        Err(ImageError::NoWord) => bail!("line {number}: {}: '{text}'", ImageError::NoWord),
        added => Ok(added?),
    }
}

// The image: the words on standard input, and 0 in the places after the last.
pub(crate) fn read_image(rt: &HostRuntime) -> anyhow::Result<Vec<u16>> {
    let heap = rt.alloc();
    let mut image = Vec::new(heap);
    let lines = BufReader::new(heap, rt.stdin())?.lines(heap);
    for (before, line) in lines.enumerate() {
        add_line(&mut image, before.saturating_add(1), line?.as_str())?;
    }
    image.resize(MEMORY_SIZE, 0)?;
    Ok(image)
}
